//! Kings put on a board.

ghost use Rattle.std.specs.Prelude.{◌≡◌, ◌≤◌};
ghost use Rattle.frz_king_planes.specs.Kings.{king_cell as cell_of_king, with_kings as crowned};

use frz_bits::Bitboards;
use frz_board::{Colour, Kind, Man, Square, cell_of};

fn king_cell(colour: Colour) -> u8
    ensures cell { result ≡ cell_of_king colour }
    ensures fits { result ≤ 12 }
{
    cell_of(Man {
        colour,
        kind: Kind::King,
    })
}

/// The board with White's king on `white` and then Black's on `black`, whatever stood there.
pub fn with_kings(p: &Bitboards, white: Square, black: Square) -> Bitboards
    ensures { result ≡ crowned p.now white black }
{
    p.put(white, king_cell(Colour::White))
        .put(black, king_cell(Colour::Black))
}
