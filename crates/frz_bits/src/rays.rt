//! The squares that a rook or a bishop attacks where some squares are occupied.

ghost use Rattle.std.specs.Prelude.{◌≡◌, ◌&&◌};
ghost use Rattle.frz_squares.specs.SquareSets.{set_of, has_square};
ghost use Rattle.frz_bits.specs.Rays.{is_open, is_rook_ray, is_bishop_ray};

use super::sets::{bishop_lines, hidden, rook_lines};
use super::ways::queen_lines;
use super::word::{both, next_square, without};
use frz_board::Square;

/// Those squares of `lines`, lines through `s`, that no occupied square hides from `s`. Each occupied
/// square on a line with `s` hides those behind it.
pub(crate) fn seen(s: Square, lines: u64, occupied: u64) -> u64
    ensures { result ≡ set_of (λ b. has_square lines b && is_open occupied s b) }
{
    let men = both(occupied, queen_lines(s));
    let mut word = lines;
    let mut n = 0;
    while let Some(m) = next_square(men, n) {
        word = without(word, hidden(s, m));
        n = m.number() + 1;
    }
    word
}

/// The squares that a rook on `s` attacks where the squares of `occupied` are occupied: along its
/// rank and file each way up to the first occupied square, and that square too.
pub fn rook_rays(s: Square, occupied: u64) -> u64
    ensures { result ≡ set_of (λ b. is_rook_ray occupied s b) }
{
    seen(s, rook_lines(s), occupied)
}

/// The squares that a bishop on `s` attacks where the squares of `occupied` are occupied: along its
/// diagonals each way up to the first occupied square, and that square too.
pub fn bishop_rays(s: Square, occupied: u64) -> u64
    ensures { result ≡ set_of (λ b. is_bishop_ray occupied s b) }
{
    seen(s, bishop_lines(s), occupied)
}
