//! Reads the notation of a move.
ghost use Rattle.std.specs.Prelude.{◌≡◌, ◌↔◌, ◌≤◌, ◌+◌, true, false};
ghost use Rattle.frz_board.specs.Moving.{Step, IsStep};
ghost use Rattle.frz_fide.specs.Legal.{is_legal};
ghost use Rattle.frz_fide.specs.Listing.{legal_moves_of};
ghost use Rattle.frz_fide.specs.Valid.{IsValid};
ghost use Rattle.frz_san.specs.Notation.{IsSan, san_of, gives_check, unsigned as unsigned_of};

use crate::sign::sign_after;
use crate::unsigned::unsigned;
use frz_board::{Move, Position};
use frz_fide::legal_moves;
use frz_steps::Steps;
use std::sync::ledger::Ledger;

/// The legal move whose text without its sign is `text`. `moves` are all legal moves.
fn find_unsigned(p: &Position, moves: &[Move], text: &[u8]) -> Option<Move>
    requires { moves.now ≡ legal_moves_of p.now }
    ensures { (m : Step) → (result ≡ Some m)
        ↔ (IsStep m × (is_legal p.now m ≡ true) × (unsigned_of p.now m ≡ text.now)) }
{
    for m in moves {
        if unsigned(p, moves, *m).as_bytes() == text {
            return Some(*m);
        }
    }
    None
}

/// The legal move that the text stands for, or `None`. The sign (`+` or `#`) may be left out, but a
/// sign that the move does not have is refused. It takes at most two steps.
pub fn read_san<L: Ledger>(p: &Position, text: &[u8], steps: &mut Steps<L>) -> Option<Move>
    requires { IsValid p.now }
    ensures exact { (m : Step) → (result ≡ Some m)
        ↔ (IsStep m × (is_legal p.now m ≡ true) × IsSan p.now m text.now) }
    ensures back { (m : Step) → IsStep m → is_legal p.now m ≡ true
        → text.now ≡ san_of p.now m → result ≡ Some m }
    ensures later { steps.old ≤ steps.new }
    ensures few { steps.new ≤ steps.old + 2 }
    ensures quiet { (m : Step) → result ≡ Some m → gives_check p.now m ≡ false →
        steps.new ≤ steps.old + 1 }
{
    let moves = legal_moves(p, steps);
    if let Some(m) = find_unsigned(p, &moves, text) {
        return Some(m);
    }
    let (sign, front) = text.split_last()?;
    let m = find_unsigned(p, &moves, front)?;
    if sign_after(p, m, steps) == Some(*sign) {
        Some(m)
    } else {
        None
    }
}
