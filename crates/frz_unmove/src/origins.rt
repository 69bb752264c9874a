//! The squares from which a man may have come.
ghost use Rattle.std.specs.Prelude.{ℕ, ◌≡◌, ◌<◌, ◌&&◌};
ghost use Rattle.frz_squares.specs.SquareSets.{has_square, set_of};
ghost use Rattle.frz_bits.specs.Ways.{may_go};
ghost use Rattle.frz_board.specs.Boards.{is_empty};
ghost use Rattle.frz_board.specs.Men.{cell_of_man, other_of};
ghost use Rattle.frz_fide.specs.Valid.{IsValid};
ghost use Rattle.frz_index.specs.Kept.{is_known};
ghost use Rattle.frz_index.specs.Room.{has_room};
ghost use Rattle.frz_unmove.specs.Earlier.{mover_cell};
ghost use Rattle.frz_unmove.specs.Gathering.{HasOrigins};

use frz_bits::{Bitboards, both, move_set, next_square, replaced, without};
use frz_board::{Kind, Man, Square};
use frz_index::Set;

/// The empty squares from which the man may have come to `to` on some board: a man comes from where
/// a man of its kind and of the other side would go.
#[tactic(auto, using(frz_squares::proofs::Lemmas::set_reading))]
fn ways_back(q: &Bitboards, man: Man, to: Square) -> u64
    ensures { (a : ℕ) → a < 64 →
        has_square result a ≡ (may_go (other_of man.colour) man.kind to a && is_empty q.now a) }
{
    let back = Man {
        colour: man.colour.other(),
        kind: man.kind,
    };
    without(move_set(back, to), q.occupied())
}

/// The bitboard of those squares on which the set has room for one man more, this one.
fn with_room(set: &Set, p: &Bitboards, man: Man, word: u64) -> u64
    ensures { (a : ℕ) → a < 64 →
        has_square result a ≡ (has_square word a && has_room set.now p.now man a) }
{
    let mut kept = word;
    let mut n = 0;
    while let Some(s) = next_square(word, n) {
        kept = replaced(kept, s, set.has_room(p, man, s));
        n = s.number() + 1;
    }
    kept
}

/// The bitboard of those squares on which the set allows the man.
fn with_known(set: &Set, man: Man, squares: u64) -> u64
    ensures { result ≡
        set_of (λ a. has_square squares a && is_known set.now (cell_of_man man) a) }
{
    both(squares, set.known_squares(man))
}

/// A bitboard with each square from which the man came to `to` by a legal move from a position of
/// the set, and perhaps with others. If the move promoted, the man is the pawn that it was before.
pub(crate) fn origins(set: &Set, q: &Bitboards, to: Square, promo: Option<Kind>, man: Man) -> u64
    requires mover { (a : ℕ) →
        mover_cell q.now (record { from = a; to = to; promo = promo }) ≡ cell_of_man man }
    requires valid { IsValid q.now }
    ensures { HasOrigins set.now q.now to promo result }
{
    let ways = ways_back(q, man, to);
    if promo.is_some() {
        with_room(set, &q.put(to, 0), man, ways)
    } else {
        with_known(set, man, ways)
    }
}
