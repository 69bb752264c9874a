//! The pairs at which moves lead to pairs of a plane, or to others.

ghost use Rattle.std.specs.Prelude.{ℕ, ◌≡◌, ◌<◌, ◌↔◌, ◌&&◌, true, false};
ghost use Rattle.frz_board.specs.Boards.{Board, holds};
ghost use Rattle.frz_board.specs.Men.{other_of};
ghost use Rattle.frz_board.specs.Moving.{IsStep};
ghost use Rattle.frz_fide.specs.Legal.{after as board_after, can_go};
ghost use Rattle.frz_sets.specs.Sound.{IsSound};
ghost use Rattle.frz_sets.specs.Views.{RuleLines};
ghost use Rattle.frz_planes.specs.Planes.{has_pair, IsPlaneOf};
ghost use Rattle.frz_pair_moves.specs.Kings.{handed};
ghost use Rattle.frz_pair_moves.specs.Moves.{entered};
ghost use Rattle.frz_kingless.specs.Boards.{AreLive, IsBoardOf};
ghost use Rattle.frz_plane_arms.specs.Arms.{AreLeading, is_as, is_led, KingLeads, KingLeadsQuietly, MakesMember};

use crate::freely::{arriving_freely, stepping_freely};
use frz_board::{Colour, Move, Square};
use frz_pair_moves::legal_pairs;
use frz_planes::Plane;
use frz_sets::Forbid;

/// The live pairs that the plane has, or those that it has not.
fn counted(live: &Plane, plane: &Plane, into: bool) -> Plane
    ensures { IsPlaneOf result (λ a b. has_pair live.now a b && is_as into (has_pair plane.now a b)) }
{
    let mut pairs = *live;
    if into {
        pairs.cut_with(plane);
    } else {
        pairs.without(plane);
    }
    pairs
}

/// Do all moves lead elsewhere, because they are to lead to a plane that has no pair?
fn is_nowhere(to: &Plane, into: bool) -> bool
    ensures { result ≡ true → (a b : ℕ) → a < 64 → b < 64 →
        is_as into (has_pair to.now a b) ≡ false }
{
    into && to.is_empty()
}

/// The pairs at which a step that a man can go leads to one of the pairs `to`, or to another where
/// `into` is false. `live` has the pairs of the positions before it, and `live_after` those of the
/// configuration to which it leads.
pub fn leading_pairs(m: Move, live: &Plane, live_after: &Plane, to: &Plane, into: bool) -> Plane
    ensures plane { IsPlaneOf result (is_led m live.now live_after.now to.now into) }
    ensures step { IsStep m }
    ensures leading { (r : RuleLines) (p : Board) (c d : ℕ) → IsSound r → IsBoardOf r.groups c p →
        AreLive r.groups c live.now → can_go p m ≡ true → IsBoardOf r.groups d (board_after p m) →
        AreLive r.groups d live_after.now → AreLeading r.groups p m to.now into result }
{
    if is_nowhere(to, into) {
        // the contract of `number` tells the proof that the squares are on the board
        let _ends = (m.from.number(), m.to.number());
        return Plane::empty();
    }
    legal_pairs(m, live, &counted(live_after, to, into))
}

/// The pairs at which the king of the side to move may step to an empty square and lead to one of
/// the pairs `to`, or to another where `into` is false. `live` has the pairs of the positions before
/// the step, and `live_after` those of the configuration of the same men with the other side to
/// move. Steps that one of the lines forbids do not count.
pub fn leading_quietly(
    lines: &[Forbid],
    turn: Colour,
    live: &Plane,
    live_after: &Plane,
    to: &Plane,
    into: bool,
) -> Plane
    ensures { (r : RuleLines) (p : Board) (c d : ℕ) → IsSound r → p.turn ≡ turn →
        IsBoardOf r.groups c p → AreLive r.groups c live.now → IsBoardOf r.groups d (handed p) →
        AreLive r.groups d live_after.now → (a b : ℕ) → a < 64 → b < 64 →
        (has_pair result a b ≡ true)
        ↔ (MakesMember r.groups p a b × KingLeadsQuietly r.groups lines.now p to.now into a b) }
{
    stepping_freely(lines, turn, live, &counted(live_after, to, into))
}

/// The pairs at which the king of the side to move may capture the man on the square and lead to one
/// of the pairs `to`, or to another where `into` is false. `live_after` has the pairs of the
/// configuration of the men that he leaves. Captures that one of the lines forbids do not count.
pub fn leading_to(
    lines: &[Forbid],
    turn: Colour,
    s: Square,
    live: &Plane,
    live_after: &Plane,
    to: &Plane,
    into: bool,
) -> Plane
    ensures on_board { s < 64 }
    ensures leading { (r : RuleLines) (p : Board) (c d : ℕ) → IsSound r → p.turn ≡ turn →
        holds p (other_of turn) s ≡ true → IsBoardOf r.groups c p → AreLive r.groups c live.now →
        IsBoardOf r.groups d (entered p s) → AreLive r.groups d live_after.now →
        (a b : ℕ) → a < 64 → b < 64 → (has_pair result a b ≡ true)
        ↔ (MakesMember r.groups p a b × KingLeads r.groups lines.now p to.now into a b s) }
{
    arriving_freely(lines, turn, true, s, live, &counted(live_after, to, into))
}
