//! How many men of a kind, or of a side, stand on a board.

ghost use Rattle.std.specs.Prelude.{◌≡◌, ◌≤◌, ◌&&◌, count_by, nat_le};
ghost use Rattle.frz_board.specs.Shapes.{count_of, men_of};

use super::man::{Colour, Kind, Man, cell_of};
use super::position::Position;

impl Position {
    /// How many men of this colour and kind stand on the board.
    pub fn count(&self, c: Colour, kind: Kind) -> u8
        ensures count { result ≡ count_of self.now c kind }
        ensures most { result ≤ 64 }
    {
        let cell = cell_of(Man { colour: c, kind });
        count_between(&self.cells(), cell, cell)
    }

    /// How many men the side has.
    pub fn men(&self, c: Colour) -> u8
        ensures men { result ≡ men_of self.now c }
        ensures most { result ≤ 64 }
    {
        match c {
            Colour::White => count_between(&self.cells(), 1, 6),
            Colour::Black => count_between(&self.cells(), 7, 12),
        }
    }
}

/// How many cells hold a number from `least` to `most`, both included.
fn count_between(cells: &[u8; 64], least: u8, most: u8) -> u8
    ensures count { result ≡ count_by (λ x. nat_le least x && nat_le x most) cells.now }
    ensures few { result ≤ 64 }
{
    let mut count = 0;
    for cell in cells {
        if least <= *cell && *cell <= most {
            count += 1;
        }
    }
    count
}
