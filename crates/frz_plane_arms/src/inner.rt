//! The moves of a configuration that may stay in the set.

ghost use Rattle.std.specs.Prelude.{◌≡◌, IfOk};
ghost use Rattle.frz_sets.specs.Sound.{IsSound};
ghost use Rattle.frz_configurations.specs.Configurations.{configuration_count};
ghost use Rattle.frz_plane_arms.specs.Inner.{AreBelow, AreInner, IsHandedOver};

use crate::men::{ManArm, men_arms};
use crate::taking::{KingArm, king_arms};
use crate::target::target_of;
use frz_board::Colour;
use frz_configurations::Configurations;
use frz_fide::Bitboards;
use frz_index::Set;
use std::alloc::{AllocError, Global};

/// The moves of the side to move on the board of a configuration, with the configurations to which
/// they lead: the steps of its men, the steps of its king to empty squares, which all lead to one
/// configuration, and its king's captures.
#[derive(Drop)]
pub struct InnerMoves {
    pub turn: Colour,
    pub men: Vec<ManArm>,
    pub quiet: Option<u32>,
    pub captures: Vec<KingArm>,
}

/// The configuration after a king's step to an empty square. `None` where kings make no position of
/// the set after it.
fn quiet_target(set: &Set, configurations: &Configurations<'_>, p: &Bitboards) -> Option<u32>
    requires sound { IsSound configurations.now.rules.now }
    requires set { set.now ≡ configurations.now.rules.now.groups }
    ensures { IsHandedOver set.now p.now result }
{
    let q = p.hand_over(None);
    target_of(set, configurations, &q)
}

/// The moves on a board that lead to configurations. The only error is want of memory.
pub fn inner_moves(
    alloc: Global,
    set: &Set,
    configurations: &Configurations<'_>,
    p: &Bitboards,
) -> Result<InnerMoves, AllocError>
    requires sound { IsSound configurations.now.rules.now }
    requires set { set.now ≡ configurations.now.rules.now.groups }
    ensures inner { IfOk result (AreInner configurations.now.rules.now p.now) }
    ensures below { IfOk result (AreBelow (configuration_count set.now)) }
{
    Ok(InnerMoves {
        turn: p.turn(),
        men: men_arms(alloc, set, configurations, p)?,
        quiet: quiet_target(set, configurations, p),
        captures: king_arms(alloc, set, configurations, p)?,
    })
}
