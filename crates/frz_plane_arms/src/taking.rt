//! The captures of a king from a board to configurations.

ghost use Rattle.std.specs.Prelude.{ℕ, ◌≡◌, ◌<◌, ◌↔◌, IfOk, MatchOption, true, length};
ghost use Rattle.std.specs.List.{All};
ghost use Rattle.frz_board.specs.Boards.{Board};
ghost use Rattle.frz_sets.specs.Sound.{IsSound};
ghost use Rattle.frz_sets.specs.Views.{RuleLines};
ghost use Rattle.frz_planes.specs.Planes.{has_pair};
ghost use Rattle.frz_kingless.specs.Boards.{AreLive, IsBoardOf};
ghost use Rattle.frz_plane_arms.specs.Arms.{MakesMember};
ghost use Rattle.frz_plane_arms.specs.MenArms.{AreAllLive};
ghost use Rattle.frz_plane_arms.specs.Inner.{AreKingArms, HasNoCapture, IsKingArm, KingTakes};

use crate::leading::leading_to;
use crate::target::target_of;
use frz_board::{Colour, Square};
use frz_configurations::Configurations;
use frz_fide::Bitboards;
use frz_index::Set;
use frz_planes::Plane;
use frz_sets::Forbid;
use std::alloc::{AllocError, Global};

/// A square on which a king may capture, and the configuration of the men that he leaves.
#[derive(Clone, Copy)]
pub struct KingArm {
    pub square: Square,
    pub target: u32,
}

/// The capture on the square with its configuration. `None` where there is no man of the other side,
/// or kings make no position of the set after it.
fn king_arm(
    set: &Set,
    configurations: &Configurations<'_>,
    p: &Bitboards,
    square: Square,
) -> Option<KingArm>
    requires sound { IsSound configurations.now.rules.now }
    requires set { set.now ≡ configurations.now.rules.now.groups }
    ensures { MatchOption result (HasNoCapture set.now p.now square)
        (λ arm. IsKingArm set.now p.now arm × (arm.square ≡ square)) }
{
    if !p.holds(p.turn().other(), square) {
        return None;
    }
    let q = p.hand_over(None).put(square, 0);
    let target = target_of(set, configurations, &q)?;
    Some(KingArm { square, target })
}

/// All squares on which the king of the side to move may capture, with the configurations of the men
/// that he leaves. Captures after which kings make no position of the set are left out.
pub fn king_arms(
    alloc: Global,
    set: &Set,
    configurations: &Configurations<'_>,
    p: &Bitboards,
) -> Result<Vec<KingArm>, AllocError>
    requires sound { IsSound configurations.now.rules.now }
    requires set { set.now ≡ configurations.now.rules.now.groups }
    ensures { IfOk result (λ arms. AreKingArms set.now p.now arms.items) }
{
    let mut arms = Vec::new(alloc);
    for s in 0..64 {
        if let Some(arm) = king_arm(set, configurations, p, Square::at(s)) {
            arms.push(arm)?;
        }
    }
    Ok(arms)
}

/// The pairs at which the king of the side to move may capture and lead to a pair of the plane of
/// the configuration, or to another where `into` is false, as in `leading_men`. Captures that one of
/// the lines forbids do not count.
pub fn leading_captures(
    lines: &[Forbid],
    turn: Colour,
    arms: &[KingArm],
    live: &Plane,
    lives: &[Plane],
    planes: &[Plane],
    into: bool,
) -> Plane
    requires inside { All (λ arm. arm.target < length lives.now) arms.now }
    requires many { length planes.now ≡ length lives.now }
    ensures { (r : RuleLines) (p : Board) (c : ℕ) → IsSound r → p.turn ≡ turn →
        IsBoardOf r.groups c p → AreLive r.groups c live.now → AreKingArms r.groups p arms.now →
        AreAllLive r.groups lives.now → (a b : ℕ) → a < 64 → b < 64 →
        (has_pair result a b ≡ true)
        ↔ (MakesMember r.groups p a b × KingTakes r.groups lines.now p planes.now into a b) }
{
    let mut pairs = Plane::empty();
    for arm in arms {
        let target = arm.target as usize;
        let (after, plane) = (&lives[target], &planes[target]);
        pairs.union_with(&leading_to(lines, turn, arm.square, live, after, plane, into));
    }
    pairs
}
