//! The steps of men from a board to configurations.

ghost use Rattle.std.specs.Prelude.{◌≡◌, ◌||◌, IfOk, MatchOption, not, true};
ghost use Rattle.frz_fide.specs.Legal.{after as board_after, can_go};
ghost use Rattle.frz_sets.specs.Sound.{IsSound};
ghost use Rattle.frz_plane_arms.specs.Arms.{HasNoMember};
ghost use Rattle.frz_plane_arms.specs.MenArms.{AreArms, IsArm};

use crate::target::target_of;
use frz_board::Move;
use frz_configurations::Configurations;
use frz_exits::allowed;
use frz_fide::Bitboards;
use frz_index::Set;
use frz_pair_moves::{after, next_step, step_at};
use std::alloc::{AllocError, Global};

/// A step that a man can go, whether no forbid line of its side covers it, and the configuration to
/// which it leads.
#[derive(Clone, Copy)]
pub struct ManArm {
    pub step: Move,
    pub free: bool,
    pub target: u32,
}

impl ManArm {
    /// Does the step count, if only free ones do?
    pub(crate) fn counts(&self, only_free: bool) -> bool
        ensures { result ≡ (self.now.free || not only_free) }
    {
        self.free || !only_free
    }
}

/// The step with its configuration. `None` where kings make no position of the set after it.
fn arm_of(
    set: &Set,
    configurations: &Configurations<'_>,
    p: &Bitboards,
    step: Move,
) -> Option<ManArm>
    requires sound { IsSound configurations.now.rules.now }
    requires set { set.now ≡ configurations.now.rules.now.groups }
    requires can { can_go p.now step ≡ true }
    ensures { MatchOption result
        (HasNoMember configurations.now.rules.now.groups (board_after p.now step))
        (λ arm. IsArm configurations.now.rules.now p.now arm × (arm.step ≡ step)) }
{
    let q = after(p, step);
    let target = target_of(set, configurations, &q)?;
    let free = allowed(configurations.rules, p.turn(), p.as_position(), step);
    Some(ManArm { step, free, target })
}

/// All steps that men on the board can go, with the configurations to which they lead. Steps after
/// which kings make no position of the set are left out.
pub fn men_arms(
    alloc: Global,
    set: &Set,
    configurations: &Configurations<'_>,
    p: &Bitboards,
) -> Result<Vec<ManArm>, AllocError>
    requires sound { IsSound configurations.now.rules.now }
    requires set { set.now ≡ configurations.now.rules.now.groups }
    ensures { IfOk result (λ arms. AreArms configurations.now.rules.now p.now arms.items) }
{
    let mut arms = Vec::new(alloc);
    let mut n: u16 = 0;
    while let Some(k) = next_step(p, n) {
        n = k + 1;
        if let Some(arm) = arm_of(set, configurations, p, step_at(k)) {
            arms.push(arm)?;
        }
    }
    Ok(arms)
}
