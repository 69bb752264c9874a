//! Words made from the 64 cells of a board, which are compared all at once.

ghost use Rattle.std.specs.Prelude.{ℕ, ◌≡◌, ◌<◌, ◌==◌, ◌&&◌, nat_lt, not, slice_index};
ghost use Rattle.frz_squares.specs.SquareSets.{has_square};

use super::word::without;
use std::simd::prelude::*;

/// The squares whose cell is this number.
pub(crate) fn cells_equal(cells: u8x64, cell: u8) -> u64
    ensures { (k : ℕ) → k < 64 → has_square result k ≡ (slice_index cells k == cell) }
{
    cells.simd_eq(u8x64::splat(cell)).to_bitmask()
}

/// The squares whose cell is below `end`.
fn cells_below(cells: u8x64, end: u8) -> u64
    ensures { (k : ℕ) → k < 64 → has_square result k ≡ nat_lt (slice_index cells k) end }
{
    cells.simd_lt(u8x64::splat(end)).to_bitmask()
}

/// The squares whose cell is at least `first` and below `end`.
pub(crate) fn cells_from(cells: u8x64, first: u8, end: u8) -> u64
    ensures { (k : ℕ) → k < 64 → has_square result k
        ≡ (nat_lt (slice_index cells k) end && not (nat_lt (slice_index cells k) first)) }
{
    without(cells_below(cells, end), cells_below(cells, first))
}

/// The squares on which the two boards have different cells.
pub(crate) fn cells_unlike(cells: u8x64, others: u8x64) -> u64
    ensures { (k : ℕ) → k < 64 →
        has_square result k ≡ not (slice_index cells k == slice_index others k) }
{
    cells.simd_ne(others).to_bitmask()
}
