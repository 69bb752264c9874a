//! Boards from letters.
ghost use Rattle.std.specs.Prelude.{◌≡◌, IfSome};
ghost use Rattle.frz_fide.specs.Valid.{IsValid};

use frz_board::{Colour, Man, Position, Square, cell_of};
use frz_fide::valid;

/// Puts a man on his square, by his letter, a capital for White, and the square, as `Ka1`.
fn put(cells: &mut [u8; 64], word: &[u8]) {
    if let [letter, file @ b'a'..=b'h', rank @ b'1'..=b'8'] = word {
        if let Some(man) = Man::of_letter(*letter) {
            let square = (*rank - b'1') * 8 + (*file - b'a');
            cells[square as usize] = cell_of(man);
        }
    }
}

/// The cells of these men, each a letter and a square, as `Ka1 pd5`.
fn cells_of(men: &str) -> [u8; 64] {
    let mut cells = [0; 64];
    for man in men.split_whitespace() {
        put(&mut cells, man.as_bytes());
    }
    cells
}

/// The valid position of these men, each a letter and a square, as `Ka1 pd5`; capitals are White's.
/// The target is a number.
pub fn position(men: &str, turn: Colour, target: Option<u8>) -> Option<Position>
    ensures valid { IfSome result IsValid }
    ensures turn { IfSome result (λ p. p.turn ≡ turn) }
{
    let p = Position::new(cells_of(men), turn, target.and_then(Square::new))?;
    match valid(&p) {
        Ok(()) => Some(p),
        Err(_) => None,
    }
}
