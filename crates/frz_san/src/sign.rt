//! The sign of a move, for check or mate.
ghost use Rattle.std.specs.Prelude.{◌≡◌, ◌<◌, ◌≤◌, ◌+◌, true, false, IfSome, option_to_list};
ghost use Rattle.frz_board.specs.Attacks.{is_in_check};
ghost use Rattle.frz_fide.specs.Legal.{is_legal, after as board_after};
ghost use Rattle.frz_fide.specs.Valid.{IsValid};
ghost use Rattle.frz_san.specs.Notation.{sign as sign_of, gives_check};

use frz_bits::Bitboards;
use frz_board::{Move, Position};
use frz_fide::{MoveList, after, put_legal_moves};
use frz_steps::Steps;
use std::sync::ledger::Ledger;

/// `#` where the side to move is mated, else `+` where it is in check, else nothing. Its moves are
/// listed only where it is in check.
#[tactic(auto, unfolding(crate::specs::Notation::sign))]
fn sign<L: Ledger>(q: &Bitboards, steps: &mut Steps<L>) -> Option<u8>
    requires { IsValid q.now }
    ensures sign { option_to_list result ≡ sign_of q.now }
    ensures ascii { IfSome result (λ byte. byte < 128) }
    ensures later { steps.old ≤ steps.new }
    ensures few { steps.new ≤ steps.old + 1 }
    ensures quiet { is_in_check q.now q.now.turn ≡ false → steps.new ≡ steps.old }
{
    if !q.is_in_check(q.turn()) {
        return None;
    }
    let mut moves = MoveList::new();
    put_legal_moves(q, &mut moves, steps);
    if moves.is_empty() {
        Some(b'#')
    } else {
        Some(b'+')
    }
}

/// The sign of a legal move: that of the position after it.
pub fn sign_after<L: Ledger>(p: &Position, m: Move, steps: &mut Steps<L>) -> Option<u8>
    requires valid { IsValid p.now }
    requires legal { is_legal p.now m ≡ true }
    ensures sign { option_to_list result ≡ sign_of (board_after p.now m) }
    ensures ascii { IfSome result (λ byte. byte < 128) }
    ensures later { steps.old ≤ steps.new }
    ensures few { steps.new ≤ steps.old + 1 }
    ensures quiet { gives_check p.now m ≡ false → steps.new ≡ steps.old }
{
    sign(&after(&Bitboards::of(p), m), steps)
}
