//! Men that may expose their king by leaving their square.

ghost use Rattle.std.specs.Prelude.{◌≡◌, not, true, Some};
ghost use Rattle.frz_board.specs.Attacks.{is_attacked, is_in_check};
ghost use Rattle.frz_board.specs.Boards.{man_on};
ghost use Rattle.frz_board.specs.Men.{other_of};
ghost use Rattle.frz_squares.specs.SquareSets.{set_of};
ghost use Rattle.frz_fide.specs.Exposing.{is_king as is_kings_kind, moves_apart as man_moves_apart, without as board_without, may_expose as man_may_expose};
ghost use Rattle.frz_fide.specs.Valid.{IsValid};
ghost use Rattle.frz_fide.specs.Legal.{can_go, after};

use super::aftermath::is_safe;
use frz_bits::{Bitboards, contains};
use frz_board::{Kind, Man, Move, Square};

fn is_king(man: Man) -> bool
    ensures { result ≡ is_kings_kind man.kind }
{
    man.kind == Kind::King
}

/// Is the man the king, or may its move change a third square, as a capture en passant does?
fn moves_apart(p: &Bitboards, man: Man) -> bool
    ensures { result ≡ man_moves_apart p.now man }
{
    is_king(man) || (man.kind == Kind::Pawn && p.ep().is_some())
}

/// May a move of the man leave its king attacked? If not, its moves need no test for that. `bare`
/// is the board without the man.
pub fn may_expose(p: &Bitboards, man: Man, from: Square, bare: &Bitboards) -> bool
    requires { bare.now ≡ board_without p.now from }
    ensures { result ≡ man_may_expose p.now man from }
{
    moves_apart(p, man) || bare.is_in_check(p.turn())
}

/// The squares that a king of the side to move may not go to: those that the other side attacks on
/// `bare`, the board without him. For any other man they are not looked for.
pub fn barred(p: &Bitboards, man: Man, bare: &Bitboards) -> u64
    ensures { is_kings_kind man.kind ≡ true →
        result ≡ set_of (λ s. is_attacked bare.now s (other_of p.now.turn)) }
{
    if is_king(man) {
        bare.attacked(p.turn().other())
    } else {
        0
    }
}

/// Is the mover's king not attacked after the move of this man? Only if the man may expose the king
/// (`exposing`) is the move made on a board. Of a king's move, only its new square is looked for
/// among those that are `barred`.
pub fn keeps_safe(p: &Bitboards, man: Man, m: Move, barred: u64, exposing: bool) -> bool
    requires valid { IsValid p.now }
    requires man { man_on p.now m.from ≡ Some man }
    requires can { can_go p.now m ≡ true }
    requires barred { is_kings_kind man.kind ≡ true → barred
        ≡ set_of (λ s. is_attacked (board_without p.now m.from) s (other_of p.now.turn)) }
    requires exposing { exposing ≡ man_may_expose p.now man m.from }
    ensures { result ≡ not (is_in_check (after p.now m) p.now.turn) }
{
    if !exposing {
        true
    } else if is_king(man) {
        !contains(barred, m.to)
    } else {
        is_safe(p, man, m)
    }
}
