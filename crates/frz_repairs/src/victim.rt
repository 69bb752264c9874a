//! The man that a move captures.
ghost use Rattle.std.specs.Prelude.{◌≡◌};
ghost use Rattle.frz_repairs.specs.Victims as words;

use frz_bits::Bitboards;
use frz_board::{Kind, Man, Move, Square};
use frz_fide::beside;

/// A man that is captured, and the square on which he stands.
#[derive(Clone, Copy)]
pub struct Victim {
    pub man: Man,
    pub square: Square,
}

/// Does a pawn capture en passant by the move?
fn is_en_passant(p: &Bitboards, m: Move) -> bool
    ensures { result ≡ words.is_en_passant p.now m }
{
    p.has(p.turn(), Kind::Pawn, m.from)
        && (m.from.is_pawn_attack(p.turn(), m.to) && p.as_position().is_target(m.to))
}

/// Where the man stands that the move captures, if it captures one.
fn victim_square(p: &Bitboards, m: Move) -> Square
    ensures { result ≡ words.victim_square p.now m }
{
    if is_en_passant(p, m) {
        beside(m.from, m.to)
    } else {
        m.to
    }
}

/// The man that the move captures.
pub fn captured_by(p: &Bitboards, m: Move) -> Option<Victim>
    ensures { result ≡ words.victim_of p.now m }
{
    let square = victim_square(p, m);
    let man = p.man(square)?;
    Some(Victim { man, square })
}
