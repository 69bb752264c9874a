//! The pairs of squares on which a king is attacked.

ghost use Rattle.std.specs.Prelude.{ℕ, ◌≡◌, ◌<◌, ◌&&◌, ◌||◌, not, true};
ghost use Rattle.frz_board.specs.Attacks.{attacks};
ghost use Rattle.frz_board.specs.Boards.{is_empty};
ghost use Rattle.frz_board.specs.Lines.{is_between, is_king_step};
ghost use Rattle.frz_squares.specs.SquareSets.{has_square};
ghost use Rattle.frz_planes.specs.Planes.{has_pair, IsPlaneOf};
ghost use Rattle.frz_king_planes.specs.Attacked.{is_attacked_past, AreAttacked};

use crate::room::empty_squares;
use crate::turning::turned;
use frz_bits::{Bitboards, between, king_set, next_square};
use frz_board::{Colour, Square};
use frz_planes::Plane;

/// The empty squares that the man on `m` attacks, and none if no man stands there.
fn attacked_by(p: &Bitboards, m: Square) -> u64
    ensures { (s : ℕ) → s < 64 → has_square result s ≡ (is_empty p.now s && attacks p.now m s) }
{
    match p.man(m) {
        None => 0,
        Some(man) => p.reached(man, m, empty_squares(p)),
    }
}

/// Adds the pairs of an empty square that the man on `m` attacks and a square that does not shield
/// it.
fn join_attacks(pairs: &mut Plane, p: &Bitboards, m: Square)
    ensures { IsPlaneOf pairs.new (λ s t. has_pair pairs.old s t
        || ((is_empty p.now s && attacks p.now m s) && not (is_between m t s))) }
{
    let squares = attacked_by(p, m);
    let mut n = 0;
    while let Some(s) = next_square(squares, n) {
        let row = pairs.row(s.number()) | !between(m, s);
        pairs.set_row(s.number(), row);
        n = s.number() + 1;
    }
}

/// The pairs of a king's square, if it is empty, and the other king's on which a man of the side
/// attacks the king.
fn attacked_by_men(p: &Bitboards, by: Colour) -> Plane
    ensures { (s t : ℕ) → s < 64 → t < 64 → is_empty p.now s ≡ true →
        has_pair result s t ≡ is_attacked_past p.now s by t }
{
    let men = p.side(by);
    let mut pairs = Plane::empty();
    let mut n = 0;
    while let Some(m) = next_square(men, n) {
        join_attacks(&mut pairs, p, m);
        n = m.number() + 1;
    }
    pairs
}

/// The pairs of adjoining squares.
fn adjoining() -> Plane
    ensures { IsPlaneOf result (λ s t. is_king_step s t) }
{
    let mut rows = [0; 64];
    for (i, row) in rows.iter_mut().enumerate() {
        *row = king_set(Square::at(i as u8));
    }
    Plane(rows)
}

/// The pairs of a king's square, if it is empty, and the other king's on which a man of the side
/// attacks the king, or the kings adjoin.
fn attacked_first(p: &Bitboards, by: Colour) -> Plane
    ensures { (s t : ℕ) → s < 64 → t < 64 → is_empty p.now s ≡ true →
        has_pair result s t ≡ (is_attacked_past p.now s by t || is_king_step s t) }
{
    let mut pairs = attacked_by_men(p, by);
    pairs.union_with(&adjoining());
    pairs
}

/// The pairs of two empty squares on which the colour's king is attacked, with both kings on the
/// board. Of other pairs nothing is said.
pub fn attacked(p: &Bitboards, colour: Colour) -> Plane
    ensures { AreAttacked p.now colour result }
{
    // the contract of `turn` tells the proof that there are 64 cells
    let _turn = p.as_position().turn();
    let pairs = attacked_first(p, colour.other());
    match colour {
        Colour::White => pairs,
        Colour::Black => turned(&pairs),
    }
}
