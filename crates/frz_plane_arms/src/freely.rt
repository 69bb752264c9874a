//! The pairs from which a king may go, with the lines that bind him.

ghost use Rattle.std.specs.Prelude.{ℕ, ◌≡◌, ◌<◌, ◌&&◌, true, false};
ghost use Rattle.frz_squares.specs.SquareSets.{has_square};
ghost use Rattle.frz_planes.specs.Planes.{has_pair, IsPlaneOf};
ghost use Rattle.frz_king_planes.specs.Kings.{king_square};
ghost use Rattle.frz_plane_arms.specs.Binding.{arrives_freely, may_go, steps_freely};

use crate::binding::{bound_squares, free_origins};
use frz_board::{Colour, Square};
use frz_pair_moves::{arriving_pairs, stepping_pairs};
use frz_planes::Plane;
use frz_sets::Forbid;
use frz_squares::SquareSet;

/// Keeps the pairs whose king of this side stands on one of the squares.
fn keep_king(pairs: &mut Plane, side: Colour, squares: u64)
    ensures { IsPlaneOf pairs.new
        (λ a b. has_pair pairs.old a b && has_square squares (king_square side a b)) }
{
    match side {
        Colour::White => pairs.keep(squares, u64::MAX),
        Colour::Black => pairs.keep(u64::MAX, squares),
    }
}

/// The pairs of `before` whose king of the side to move may go to the square, to a pair of `after`.
pub(crate) fn arriving_freely(
    lines: &[Forbid],
    turn: Colour,
    captures: bool,
    s: Square,
    before: &Plane,
    after: &Plane,
) -> Plane
    ensures plane { IsPlaneOf result (λ a b.
        arrives_freely lines.now turn captures s after.now a b && has_pair before.now a b) }
    ensures on_board { s < 64 }
{
    let origins = free_origins(lines, turn, captures, s);
    if origins == 0 {
        let _on_board = s.number();
        return Plane::empty();
    }
    let mut pairs = arriving_pairs(turn, s, before, after);
    keep_king(&mut pairs, turn, origins);
    pairs
}

/// Is the square one to which some line forbids the king of the side to go, but not from all
/// squares? `bound` has the squares to which some line does.
fn is_partly_bound(lines: &[Forbid], side: Colour, bound: u64, s: u8) -> bool
    requires { s < 64 }
    ensures { result ≡ false → has_square bound s ≡ true →
        (a : ℕ) → a < 64 → may_go lines.now side false a s ≡ false }
{
    if !SquareSet(bound).has(s) {
        return false;
    }
    free_origins(lines, side, false, Square::at(s)) != 0
}

/// The pairs of `before` whose king of the side to move may go to some square without capturing, to
/// a pair of `after`. The squares to which no line forbids him to go are taken all at once.
pub(crate) fn stepping_freely(
    lines: &[Forbid],
    turn: Colour,
    before: &Plane,
    after: &Plane,
) -> Plane
    ensures { IsPlaneOf result (λ a b.
        steps_freely lines.now turn after.now a b && has_pair before.now a b) }
{
    if after.is_empty() {
        return Plane::empty();
    }
    let bound = bound_squares(lines, turn, false);
    let mut loose = *after;
    keep_king(&mut loose, turn, !bound);
    let mut pairs = stepping_pairs(turn, before, &loose);
    for s in 0..64 {
        if is_partly_bound(lines, turn, bound, s) {
            pairs.union_with(&arriving_freely(lines, turn, false, Square::at(s), before, after));
        }
    }
    pairs
}
