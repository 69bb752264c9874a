//! The pairs at which a man's step is legal.

ghost use Rattle.std.specs.Prelude.{ℕ, ◌≡◌, ◌<◌, ◌&&◌, not, true};
ghost use Rattle.frz_board.specs.Boards.{Board};
ghost use Rattle.frz_board.specs.Moving.{IsStep};
ghost use Rattle.frz_squares.specs.SquareSets.{has_square};
ghost use Rattle.frz_fide.specs.Legal.{after as board_after, can_go};
ghost use Rattle.frz_planes.specs.Planes.{has_pair, IsPlaneOf};
ghost use Rattle.frz_king_planes.specs.Valid.{AreValid};
ghost use Rattle.frz_pair_moves.specs.Moves.{AreLegal};
ghost use Rattle.frz_pair_moves.specs.Ways.{is_on_way, leave_way};

use crate::way::way_of;
use frz_bits::Bitboards;
use frz_board::Move;
use frz_king_planes::attacked;
use frz_planes::Plane;

/// The squares off the man's way.
fn off_way(m: Move) -> u64
    ensures off { (s : ℕ) → s < 64 → has_square result s ≡ not (is_on_way m s) }
    ensures step { IsStep m }
{
    // the contract of `number` tells the proof that the squares are on the board
    let _ends = (m.from.number(), m.to.number());
    !way_of(m)
}

/// The pairs at which a step that a man can go is legal, by the pairs of the valid positions before
/// it and after it.
pub fn legal_pairs(m: Move, before: &Plane, after: &Plane) -> Plane
    ensures plane { IsPlaneOf result
        (λ a b. (has_pair before.now a b && leave_way m a b) && has_pair after.now a b) }
    ensures step { IsStep m }
    ensures legal { (p : Board) → AreValid p before.now → AreValid (board_after p m) after.now →
        can_go p m ≡ true → AreLegal p m result }
{
    let squares = off_way(m);
    let mut pairs = *before;
    pairs.keep(squares, squares);
    pairs.cut_with(after);
    pairs
}

/// The same pairs, by what is attacked on the board after the step: `before` has the pairs of the
/// valid positions before it.
pub fn safe_pairs(p: &Bitboards, m: Move, before: &Plane, after: &Bitboards) -> Plane
    requires before { AreValid p.now before.now }
    requires step { can_go p.now m ≡ true }
    requires after { after.now ≡ board_after p.now m }
    ensures { AreLegal p.now m result }
{
    let squares = off_way(m);
    let mut pairs = *before;
    pairs.keep(squares, squares);
    pairs.without(&attacked(after, p.turn()));
    pairs
}
