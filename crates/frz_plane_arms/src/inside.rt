//! The pairs at which some move stays in the set, and leads to pairs of given planes or elsewhere.

ghost use Rattle.std.specs.Prelude.{ℕ, ◌≡◌, ◌<◌, ◌↔◌, IfSome, true, length, [], if◌then◌else◌};
ghost use Rattle.frz_board.specs.Boards.{Board};
ghost use Rattle.frz_sets.specs.Sound.{IsSound};
ghost use Rattle.frz_sets.specs.Views.{RuleLines};
ghost use Rattle.frz_planes.specs.Planes.{has_pair};
ghost use Rattle.frz_kingless.specs.Boards.{AreLive, IsBoardOf};
ghost use Rattle.frz_plane_arms.specs.Arms.{MakesMember};
ghost use Rattle.frz_plane_arms.specs.MenArms.{AreAllLive};
ghost use Rattle.frz_plane_arms.specs.Inner.{AreBelow, AreInner, IsHandedOver, KingSteps};
ghost use Rattle.frz_plane_arms.specs.Inside.{LeadsInside};

use crate::inner::InnerMoves;
use crate::leading::leading_quietly;
use crate::led::leading_men;
use crate::taking::leading_captures;
use frz_board::Colour;
use frz_planes::Plane;
use frz_sets::{Forbid, Rules};

/// The forbid lines, if only free moves count.
fn counted_lines(rules: &Rules, only_free: bool) -> &[Forbid]
    ensures { result.now ≡ (if only_free then rules.now.forbids else []) }
{
    if only_free { &rules.forbids } else { &[] }
}

/// The pairs at which the king of the side to move may step to an empty square and lead to a pair of
/// the plane of the configuration after it, or to another where `into` is false. `quiet` is that
/// configuration, and `None` where kings make no position of the set then.
fn leading_steps(
    lines: &[Forbid],
    turn: Colour,
    quiet: Option<u32>,
    live: &Plane,
    lives: &[Plane],
    planes: &[Plane],
    into: bool,
) -> Plane
    requires inside { IfSome quiet (λ d. d < length lives.now) }
    requires many { length planes.now ≡ length lives.now }
    ensures { (r : RuleLines) (p : Board) (c : ℕ) → IsSound r → p.turn ≡ turn →
        IsBoardOf r.groups c p → AreLive r.groups c live.now → IsHandedOver r.groups p quiet →
        AreAllLive r.groups lives.now → (a b : ℕ) → a < 64 → b < 64 →
        (has_pair result a b ≡ true)
        ↔ (MakesMember r.groups p a b × KingSteps r.groups lines.now p planes.now into a b) }
{
    match quiet {
        None => Plane::empty(),
        Some(quiet) => {
            let target = quiet as usize;
            leading_quietly(lines, turn, live, &lives[target], &planes[target], into)
        }
    }
}

/// The pairs at which some legal move of the side to move stays in the set and leads to a pair of
/// the plane of its configuration, or to another where `into` is false. `moves` are those of the
/// configuration whose live pairs `live` has; `lives` has the live pairs of all configurations, and
/// `planes` a plane for each. With `only_free` the moves that forbid lines cover do not count.
pub fn leading_inside(
    rules: &Rules,
    moves: &InnerMoves,
    live: &Plane,
    lives: &[Plane],
    planes: &[Plane],
    only_free: bool,
    into: bool,
) -> Plane
    requires below { AreBelow (length lives.now) moves.now }
    requires many { length planes.now ≡ length lives.now }
    ensures { let r = rules.now in (p : Board) (c : ℕ) → IsSound r → IsBoardOf r.groups c p →
        AreLive r.groups c live.now → AreAllLive r.groups lives.now → AreInner r p moves.now →
        (a b : ℕ) → a < 64 → b < 64 → (has_pair result a b ≡ true)
        ↔ (MakesMember r.groups p a b × LeadsInside r p only_free into planes.now a b) }
{
    let lines = counted_lines(rules, only_free);
    let turn = moves.turn;
    let mut pairs = leading_men(&moves.men, only_free, live, lives, planes, into);
    pairs.union_with(&leading_captures(lines, turn, &moves.captures, live, lives, planes, into));
    pairs.union_with(&leading_steps(lines, turn, moves.quiet, live, lives, planes, into));
    pairs
}
