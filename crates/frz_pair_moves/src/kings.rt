//! The pairs at which a king has a legal move.

ghost use Rattle.std.specs.Prelude.{ℕ, ◌≡◌, ◌<◌, ◌↔◌, ◌&&◌, true, false};
ghost use Rattle.frz_board.specs.Boards.{Board, holds};
ghost use Rattle.frz_board.specs.Lines.{is_king_step};
ghost use Rattle.frz_squares.specs.SquareSets.{has_square};
ghost use Rattle.frz_planes.specs.Planes.{has_pair, IsPlaneOf};
ghost use Rattle.frz_king_planes.specs.Valid.{AreValid};
ghost use Rattle.frz_pair_moves.specs.Kings.{AreArriving, EntersFrom, handed, steps_into, steps_onto};
ghost use Rattle.frz_pair_moves.specs.Moves.{Makes, entered};

use frz_bits::king_set;
use frz_board::{Colour, Square};
use frz_king_planes::column;
use frz_planes::Plane;

/// The pairs whose king of the side to move is a step from one of these pairs.
fn pairs_beside(turn: Colour, to: &Plane) -> Plane
    ensures { IsPlaneOf result (steps_into turn to.now) }
{
    match turn {
        Colour::White => to.step_white(),
        Colour::Black => to.step_black(),
    }
}

/// The pairs whose white king is a step from `s`, beside the black kings of this row.
#[tactic(auto, using(frz_squares::proofs::Lemmas::set_reading))]
fn white_beside(s: Square, row: u64) -> Plane
    ensures { IsPlaneOf result (λ a b. is_king_step s a && has_square row b) }
{
    Plane::product(king_set(s), row)
}

/// The pairs whose black king is a step from `s`, beside the white kings of this column.
#[tactic(auto, using(frz_squares::proofs::Lemmas::set_reading))]
fn black_beside(s: Square, column: u64) -> Plane
    ensures { IsPlaneOf result (λ a b. has_square column a && is_king_step s b) }
{
    Plane::product(column, king_set(s))
}

/// The pairs whose king of the side to move is a step from `s`, if the pair after it is one of
/// these.
fn pairs_around(turn: Colour, s: Square, after: &Plane) -> Plane
    ensures pairs { IsPlaneOf result (steps_onto turn s after.now) }
    ensures on_board { s < 64 }
{
    match turn {
        Colour::White => white_beside(s, after.row(s.number())),
        Colour::Black => black_beside(s, column(after, s.number())),
    }
}

/// The pairs at which the king of the side to move may step to a pair of `to`. `before` has the
/// pairs of the valid positions before the step, and `to` some of those after it, on the same board
/// with the other side to move.
pub fn stepping_pairs(turn: Colour, before: &Plane, to: &Plane) -> Plane
    ensures plane { IsPlaneOf result
        (λ a b. steps_into turn to.now a b && has_pair before.now a b) }
    ensures legal { (p : Board) → p.turn ≡ turn → AreValid p before.now →
        ((a b : ℕ) → a < 64 → b < 64 → has_pair to.now a b ≡ true → Makes (handed p) a b) →
        (a b : ℕ) → a < 64 → b < 64 →
        (has_pair result a b ≡ true) ↔ (Makes p a b × EntersFrom p to.now a b) }
{
    let mut pairs = pairs_beside(turn, to);
    pairs.cut_with(before);
    pairs
}

/// The pairs at which the king of the side to move may go to the square, where none of its men
/// stands: a man of the other side is captured. `before` has the pairs of the valid positions before
/// the move, and `after` those of the board that the king leaves.
pub fn arriving_pairs(turn: Colour, s: Square, before: &Plane, after: &Plane) -> Plane
    ensures plane { IsPlaneOf result
        (λ a b. steps_onto turn s after.now a b && has_pair before.now a b) }
    ensures on_board { s < 64 }
    ensures legal { (p : Board) → p.turn ≡ turn → holds p turn s ≡ false → AreValid p before.now →
        AreValid (entered p s) after.now → AreArriving p s result }
{
    let mut pairs = pairs_around(turn, s, after);
    pairs.cut_with(before);
    pairs
}
