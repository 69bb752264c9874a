//! The codes of the moves of a number, read from a table file.
ghost use Rattle.std.specs.Prelude.{◌≡◌, ◌≤◌, ◌+◌, ◌*◌, All, length, map, IfSome, IfOk, OnOk};
ghost use Rattle.frz_store.specs.Outside.{StoreCauses};
ghost use Rattle.frz_store.specs.Told.{store_of, StoreQuiet};
ghost use Rattle.frz_table.specs.Tables.{Carries, table_size};
ghost use Rattle.frz_graph.specs.EntryCodes.{next_code, arm_code, IsWithin};
ghost use Rattle.frz_ways.specs.Costs.{arms_reads, next_reads};
ghost use Rattle.frz_ways.specs.Kept.{told_codes};
ghost use Rattle.frz_ways.specs.Reads.{IsCodeFor, AreCodesFor};

use frz_board::Colour;
use frz_graph::{CodeList, Next, NextList, exit_code};
use frz_store::{Store, StoreFault};
use frz_table::TableFile;

/// The code for the side of where a move leads: an entry of the file, or the code of an exit's
/// value, which needs no call.
fn read_code<S: Store>(
    table: &TableFile,
    store: &mut S,
    side: Colour,
    next: Next,
) -> Result<u32, StoreFault>
    requires within { IsWithin (table_size table.now) next }
    requires carried { Carries (S.files store.old) table.now }
    ensures code { IfOk result (λ code. IfSome (told_codes table.now side (S.files store.old))
        (λ codes. code ≡ next_code side codes next)) }
    ensures read { IfOk result (IsCodeFor side next) }
    ensures quiet { StoreQuiet (store_of S.Store store.old) (store_of S.Store store.new) }
    ensures asked { S.asked store.new ≤ S.asked store.old + 4 * next_reads next }
    ensures calls { S.calls store.new ≤ S.calls store.old + next_reads next }
    ensures causes { StoreCauses (S.faults store.old) (S.faults store.new)
        (S.wants store.old) (S.wants store.new) result }
{
    match next {
        Next::Inside(number) => table.entry(store, side, number),
        Next::Outside(value) => Ok(exit_code(value, side)),
    }
}

/// Puts the code of each move of the list into `codes`, and drops what was there. A move that stays
/// inside the set costs one call of the store, which reads four bytes, and an exit none.
pub fn read_codes<S: Store>(
    table: &TableFile,
    store: &mut S,
    side: Colour,
    list: &NextList,
    codes: &mut CodeList,
) -> Result<(), StoreFault>
    requires within { All (λ a. IsWithin (table_size table.now) a.next) list.now.items }
    requires carried { Carries (S.files store.old) table.now }
    ensures many { OnOk result (length codes.new.items ≡ length list.now.items) }
    ensures codes { OnOk result (IfSome (told_codes table.now side (S.files store.old))
        (λ kept. codes.new.items ≡ map (arm_code side kept) list.now.items)) }
    ensures read { OnOk result (AreCodesFor side list.now.items codes.new.items) }
    ensures quiet { StoreQuiet (store_of S.Store store.old) (store_of S.Store store.new) }
    ensures asked { S.asked store.new ≤ S.asked store.old + 4 * arms_reads list.now.items }
    ensures calls { S.calls store.new ≤ S.calls store.old + arms_reads list.now.items }
    ensures causes { StoreCauses (S.faults store.old) (S.faults store.new)
        (S.wants store.old) (S.wants store.new) result }
{
    codes.clear();
    for arm in list.as_slice() {
        let code = read_code(table, store, side, arm.next)?;
        codes.push(code);
    }
    Ok(())
}
