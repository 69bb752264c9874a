//! The codes of a table file: where those of a side begin, and how those of both sides are read.
ghost use Rattle.std.specs.Prelude.{◌≡◌, IfOk};
ghost use Rattle.frz_asks.specs.Runs.{Run, Sized, end_of};
ghost use Rattle.frz_store.specs.Told.{store_of};
ghost use Rattle.frz_table.specs.Asking.{loading};
ghost use Rattle.frz_table.specs.Faults.{stop_of};
ghost use Rattle.frz_table.specs.Layout.{due_length, place_of};
ghost use Rattle.frz_table.specs.Numbers.{AreNumbers};

use crate::TableFault;
use crate::laws::numbers_fit;
use crate::lists::load_numbers;
use frz_board::Colour;
use frz_store::Store;
use std::alloc::Global;

/// The byte at which the side's codes begin in a file of this text, with `size` codes a side.
pub(crate) fn codes_place(side: Colour, text: &[u8], size: u32) -> u64
    ensures { result ≡ place_of side text.now size }
{
    let front = 16 + text.len() as u64;
    match side {
        Colour::White => front,
        Colour::Black => front + 4 * u64::from(size),
    }
}

/// Reads White's codes and Black's, each in order of number, from the file of this name and text,
/// with `size` codes a side. The only errors are those of the store and of memory.
pub fn load_codes<S: Store>(
    alloc: Global,
    store: &mut S,
    name: &str,
    text: &[u8],
    size: u32,
) -> Result<(Vec<u32>, Vec<u32>), TableFault>
    requires { Sized (S.files store.old) name.now (due_length text.now size) }
    ensures run { Run (loading name.now text.now size)
        (end_of stop_of (λ lists. (lists.0.items, lists.1.items)) result)
        (store_of S.Store store.old) (store_of S.Store store.new) }
    ensures white_fit { IfOk result (λ lists. AreNumbers lists.0.items) }
    ensures black_fit { IfOk result (λ lists. AreNumbers lists.1.items) }
{
    let white_place = codes_place(Colour::White, text, size);
    let white = load_numbers(alloc, store, name, white_place, size)?;
    let black_place = codes_place(Colour::Black, text, size);
    let black = load_numbers(alloc, store, name, black_place, size)?;
    numbers_fit(&white);
    numbers_fit(&black);
    Ok((white, black))
}
