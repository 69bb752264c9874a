//! Lists of 32-bit numbers, read from a file in pieces.
ghost use Rattle.std.specs.Prelude.{◌≡◌, ◌+◌, ◌*◌, ◌^◌, ◌≤◌, ◌<◌, length, vec_len, vec_capacity, IfOk, IfErr, IfSome, OnOk};
ghost use Rattle.frz_asks.specs.Runs.{Run, came, end_by, halted};
ghost use Rattle.frz_store.specs.Files.{Covers};
ghost use Rattle.frz_store.specs.Told.{store_of};
ghost use Rattle.frz_table.specs.Asking.{listing, next_count, next_piece};

use crate::numbers::push_numbers;
use frz_asks::read_at;
use frz_store::{Store, StoreFault};
use std::alloc::Global;

/// How many numbers are read or written at once, at most.
pub(crate) const PIECE: usize = 16_384;

/// Reads the next numbers of a list of `count` that begins at byte `at`. The buffer has four bytes
/// for each.
fn read_piece<S: Store>(
    store: &mut S,
    name: &str,
    at: u64,
    count: usize,
    buffer: &mut [u8],
    list: &mut Vec<u32>,
) -> Result<(), StoreFault>
    requires there { IfSome (S.files store.old)
        (Covers (at + 4 * vec_len list.old) (4 * next_count count list.old.items) name.now) }
    requires buffer { length buffer.old ≡ 4 * next_count count list.old.items }
    requires place { at + 4 * count < 2 ^ 64 }
    requires within { vec_len list.old ≤ count }
    requires room { count ≤ vec_capacity list.old }
    ensures ran { OnOk result (Run (next_piece name.now at count list.old.items)
        (came list.new.items) (store_of S.Store store.old) (store_of S.Store store.new)) }
    ensures halted { IfErr result (λ h. Run (next_piece name.now at count list.old.items)
        (halted h) (store_of S.Store store.old) (store_of S.Store store.new)) }
    ensures length { OnOk result
        (vec_len list.new ≡ vec_len list.old + next_count count list.old.items) }
    ensures capacity { vec_capacity list.old ≤ vec_capacity list.new }
{
    let place = at + 4 * list.len() as u64;
    read_at(store, name, place, buffer)?;
    push_numbers(buffer, list);
    Ok(())
}

/// Reads `count` numbers, four bytes each, from byte `at` of the file on.
pub(crate) fn load_numbers<S: Store>(
    alloc: Global,
    store: &mut S,
    name: &str,
    at: u64,
    count: u32,
) -> Result<Vec<u32>, StoreFault>
    requires there { IfSome (S.files store.old) (Covers at (4 * count) name.now) }
    requires place { at + 4 * count < 2 ^ 64 }
    ensures run { Run (listing name.now at count) (end_by (λ list. list.items) result)
        (store_of S.Store store.old) (store_of S.Store store.new) }
    ensures length { IfOk result (λ list. vec_len list ≡ count) }
{
    let count = count as usize;
    let Ok(mut list) = Vec::with_capacity(alloc, count) else {
        return Err(StoreFault::NoMemory);
    };
    let mut buffer = [0; 4 * PIECE];
    while list.len() < count {
        let here = PIECE.min(count - list.len());
        read_piece(store, name, at, count, &mut buffer[..4 * here], &mut list)?;
    }
    Ok(list)
}
