//! The squares that a man's move needs.

ghost use Rattle.std.specs.Prelude.{ℕ, ◌≡◌, ◌<◌};
ghost use Rattle.frz_squares.specs.SquareSets.{has_square};
ghost use Rattle.frz_pair_moves.specs.Ways.{is_on_way};

use frz_bits::{between, replaced};
use frz_board::Move;

/// The squares that kings must leave to the man's move: those that it passes, and that to which it
/// goes.
pub fn way_of(m: Move) -> u64
    ensures { (s : ℕ) → s < 64 → has_square result s ≡ is_on_way m s }
{
    replaced(between(m.from, m.to), m.to, true)
}
