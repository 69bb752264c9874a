//! Boards from placements, rank 8 first, as in FEN.
ghost use Rattle.std.specs.Prelude.{◌≡◌, IfOk};
ghost use Rattle.frz_fide.specs.Valid.{IsValid};

use frz_board::{Colour, Position, Square};
use frz_fide::valid;
use std::test::Fail;

fn cell_of_letter(letter: u8) -> u8 {
    match letter {
        b'K' => 1,
        b'Q' => 2,
        b'R' => 3,
        b'B' => 4,
        b'N' => 5,
        b'P' => 6,
        b'k' => 7,
        b'q' => 8,
        b'r' => 9,
        b'b' => 10,
        b'n' => 11,
        b'p' => 12,
        _ => 0,
    }
}

/// The cells of a placement, rank 8 first, as in FEN.
fn cells_of(placement: &str) -> [u8; 64] {
    let mut cells = [0; 64];
    let mut n = 0usize;
    for c in placement.as_bytes() {
        if b'1' <= *c && *c <= b'8' {
            n = n.saturating_add(usize::from(*c - b'0'));
        } else if *c != b'/' {
            if n < 64 {
                cells[(7 - n / 8) * 8 + n % 8] = cell_of_letter(*c);
            }
            n = n.saturating_add(1);
        }
    }
    cells
}

/// The board of a placement, with the number of its target.
pub(crate) fn set_up(placement: &str, turn: Colour, target: Option<u8>) -> Result<Position, Fail> {
    let target = target.and_then(Square::new);
    Ok(Position::new(cells_of(placement), turn, target).ok_or("a position")?)
}

/// The same, where it is a valid position.
pub(crate) fn set_up_valid(
    placement: &str,
    turn: Colour,
    target: Option<u8>,
) -> Result<Position, Fail>
    ensures { IfOk result IsValid }
{
    let p = set_up(placement, turn, target)?;
    match valid(&p) {
        Ok(()) => Ok(p),
        Err(_) => Err("a valid position")?,
    }
}
