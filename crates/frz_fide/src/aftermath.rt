//! The position after a move, and whether its king is safe.

ghost use Rattle.std.specs.Prelude.{◌≡◌, not, Some};
ghost use Rattle.frz_board.specs.Men.{other_of};
ghost use Rattle.frz_board.specs.Boards.{man_on};
ghost use Rattle.frz_board.specs.Attacks.{is_in_check};
ghost use Rattle.frz_fide.specs.Legal.{beside_on_file, arrives, cells_after, target_after, after as board_after};

use super::ways::{advances_two, midway, takes_passing};
use frz_bits::Bitboards;
use frz_board::{Kind, Man, Move, Position, Square, cell_of};

/// The square on the rank of `a` and the file of `b`. By a capture en passant from `a` to `b`, the
/// captured pawn stands there.
pub fn beside(a: Square, b: Square) -> Square
    ensures { result ≡ beside_on_file a b }
{
    Square::at(8 * a.rank() + b.file())
}

fn arriving(man: Man, promo: Option<Kind>) -> Man
    ensures { result ≡ arrives man promo }
{
    match promo {
        None => man,
        Some(kind) => Man {
            colour: man.colour,
            kind,
        },
    }
}

/// The position after the move of this man, legal or not, with `ep` as the target after it.
fn moved(p: &Bitboards, man: Man, m: Move, ep: Option<Square>) -> Bitboards
    ensures { result ≡
        record { cells = cells_after p.now man m; turn = other_of p.now.turn; ep = ep } }
{
    let mut q = p.hand_over(ep);
    q.set(m.from, 0);
    q.set(m.to, cell_of(arriving(man, m.promo)));
    if man.kind == Kind::Pawn && takes_passing(p, man.colour, m.from, m.to) {
        q.set(beside(m.from, m.to), 0);
    }
    q
}

fn new_target(p: &Bitboards, man: Man, m: Move) -> Option<Square>
    ensures { result ≡ target_after p.now man m }
{
    if (man.kind == Kind::Pawn && advances_two(p, man.colour, m.from, m.to))
        && p.has_pawn_beside(man.colour.other(), m.to)
    {
        Some(midway(m.from, m.to))
    } else {
        None
    }
}

/// The position after the move, legal or not. If nobody stands on the move's origin, the position
/// stays as it is.
pub fn boards_after(p: &Bitboards, m: Move) -> Bitboards
    ensures { result ≡ board_after p.now m }
{
    match p.man(m.from) {
        None => Bitboards::of(&p.position()),
        Some(man) => moved(p, man, m, new_target(p, man, m)),
    }
}

/// Is the mover's king not attacked after the move of this man?
pub fn is_safe(p: &Bitboards, man: Man, m: Move) -> bool
    requires { man_on p.now m.from ≡ Some man }
    ensures { result ≡ not (is_in_check (board_after p.now m) p.now.turn) }
{
    !moved(p, man, m, None).is_in_check(p.turn())
}
