//! The board after a step.

ghost use Rattle.std.specs.Prelude.{◌≡◌};
ghost use Rattle.frz_board.specs.Men.{other_of};
ghost use Rattle.frz_fide.specs.Legal.{arrives, cells_after, target_after, after as board_after};

use crate::steps::{advances, takes_in_passing};
use frz_bits::Bitboards;
use frz_board::{Kind, Man, Move, Square, cell_of};
use frz_fide::beside;

fn arriving(man: Man, promo: Option<Kind>) -> Man
    ensures { result ≡ arrives man promo }
{
    match promo {
        None => man,
        Some(kind) => Man {
            colour: man.colour,
            kind,
        },
    }
}

fn new_target(p: &Bitboards, man: Man, m: Move) -> Option<Square>
    ensures { result ≡ target_after p.now man m }
{
    if (man.kind == Kind::Pawn && advances(p, man.colour, m.from, m.to))
        && p.has_pawn_beside(man.colour.other(), m.to)
    {
        Some(Square::at((m.from.number() + m.to.number()) / 2))
    } else {
        None
    }
}

fn moved(p: &Bitboards, man: Man, m: Move, ep: Option<Square>) -> Bitboards
    ensures { result ≡
        record { cells = cells_after p.now man m; turn = other_of p.now.turn; ep = ep } }
{
    let mut q = p.hand_over(ep);
    q.set(m.from, 0);
    q.set(m.to, cell_of(arriving(man, m.promo)));
    if man.kind == Kind::Pawn && takes_in_passing(p, man.colour, m.from, m.to) {
        q.set(beside(m.from, m.to), 0);
    }
    q
}

/// The board after the step, whether it can go or not. If nobody stands where it begins, the board
/// stays as it is.
pub fn after(p: &Bitboards, m: Move) -> Bitboards
    ensures { result ≡ board_after p.now m }
{
    match p.man(m.from) {
        None => Bitboards::of(&p.position()),
        Some(man) => moved(p, man, m, new_target(p, man, m)),
    }
}
