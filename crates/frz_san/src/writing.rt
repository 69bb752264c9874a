//! Writes the notation of a move.
ghost use Rattle.std.specs.Prelude.{◌≡◌, ◌≤◌, ◌+◌, true, false};
ghost use Rattle.arrayvec.specs.ArrayString.{array_string_len};
ghost use Rattle.frz_fide.specs.Legal.{is_legal};
ghost use Rattle.frz_fide.specs.Listing.{legal_moves_of};
ghost use Rattle.frz_fide.specs.Valid.{IsValid};
ghost use Rattle.frz_san.specs.Notation.{san_of, gives_check};

use crate::sign::sign_after;
use crate::text::{San, add};
use crate::unsigned::unsigned;
use frz_board::{Move, Position};
use frz_fide::legal_moves;
use frz_steps::Steps;
use std::sync::ledger::Ledger;

/// The text of a legal move, where `moves` are all legal moves, listed already. Moves are listed
/// once more, in one step, only where the move gives check.
pub fn san_among<L: Ledger>(p: &Position, moves: &[Move], m: Move, steps: &mut Steps<L>) -> San
    requires valid { IsValid p.now }
    requires moves { moves.now ≡ legal_moves_of p.now }
    requires legal { is_legal p.now m ≡ true }
    ensures text { result.bytes ≡ san_of p.now m }
    ensures len { array_string_len result ≤ 7 }
    ensures later { steps.old ≤ steps.new }
    ensures few { steps.new ≤ steps.old + 1 }
    ensures quiet { gives_check p.now m ≡ false → steps.new ≡ steps.old }
{
    let mut text = unsigned(p, moves, m);
    if let Some(byte) = sign_after(p, m, steps) {
        add(&mut text, byte);
    }
    text
}

/// The text of a legal move. To write all moves of a position, list them once and use
/// [`san_among`].
pub fn san<L: Ledger>(p: &Position, m: Move, steps: &mut Steps<L>) -> San
    requires valid { IsValid p.now }
    requires legal { is_legal p.now m ≡ true }
    ensures text { result.bytes ≡ san_of p.now m }
    ensures len { array_string_len result ≤ 7 }
    ensures later { steps.old ≤ steps.new }
    ensures few { steps.new ≤ steps.old + 2 }
    ensures quiet { gives_check p.now m ≡ false → steps.new ≤ steps.old + 1 }
{
    let moves = legal_moves(p, steps);
    san_among(p, &moves, m, steps)
}
