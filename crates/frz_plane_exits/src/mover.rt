//! Who makes a step.

ghost use Rattle.std.specs.Prelude.{◌≡◌};
ghost use Rattle.frz_king_planes.specs.Kings.{king_square as square_of};
ghost use Rattle.frz_plane_exits.specs.Leaving.{step_by};

use frz_board::{Colour, Move, Square};

/// Who makes a step: a man, or the king of the side to move, which goes to this square.
#[derive(Clone, Copy)]
pub(crate) enum Mover {
    Man(Move),
    King(Square),
}

/// The square of the side's king.
fn king_square(side: Colour, white: Square, black: Square) -> Square
    ensures { result ≡ square_of side white black }
{
    match side {
        Colour::White => white,
        Colour::Black => black,
    }
}

/// The step with the kings on these squares.
pub(crate) fn step_of(mover: &Mover, turn: Colour, white: Square, black: Square) -> Move
    ensures { result ≡ step_by mover.now turn white black }
{
    match *mover {
        Mover::Man(m) => m,
        Mover::King(to) => Move {
            from: king_square(turn, white, black),
            to,
            promo: None,
        },
    }
}
