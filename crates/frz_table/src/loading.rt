//! Reading the codes of an open table: one code, or all of them.
ghost use Rattle.std.specs.Prelude.{◌≡◌, ◌+◌, ◌*◌, ◌≤◌, ◌<◌, length, slice_get, Some, IfOk, IfErr, IfSome};
ghost use Rattle.frz_asks.specs.Runs.{Run, end_by, end_of};
ghost use Rattle.frz_board.specs.declared.man.Colour.TheVariants.{White, Black};
ghost use Rattle.frz_store.specs.Outside.{IsNext, StoreCauses};
ghost use Rattle.frz_store.specs.Told.{store_of, StoreQuiet};
ghost use Rattle.frz_table.specs.Asking.{coding, loading};
ghost use Rattle.frz_table.specs.Faults.{IsOutside, TableCauses, stop_of};
ghost use Rattle.frz_table.specs.Layout.{codes_at, pieces_of};
ghost use Rattle.frz_table.specs.Possible.{MayKeep};
ghost use Rattle.frz_table.specs.Tables.{Carries, table_size};

use crate::codes::{codes_place, load_codes};
use crate::numbers::read_number;
use crate::{TableFault, TableFile};
use frz_board::Colour;
use frz_store::{Store, StoreFault};
use std::alloc::Global;

impl TableFile {
    /// Reads the code of the side at number `i`, which must be below the size of the set.
    pub fn entry<S: Store>(&self, store: &mut S, side: Colour, i: u32) -> Result<u32, StoreFault>
        requires number { i < table_size self.now }
        requires carried { Carries (S.files store.old) self.now }
        ensures run { Run (coding self.now.name self.now.text (table_size self.now) side i)
            (end_by (λ code. code) result)
            (store_of S.Store store.old) (store_of S.Store store.new) }
        ensures code { IfOk result
            (λ code. IfSome (S.files store.old) (λ m. IfSome (m self.now.name)
            (λ bytes. slice_get (codes_at side self.now.text (table_size self.now) bytes) i
            ≡ Some code))) }
        ensures quiet { StoreQuiet (store_of S.Store store.old) (store_of S.Store store.new) }
        ensures asked { S.asked store.new ≤ S.asked store.old + 4 }
        ensures calls { IsNext (S.calls store.old) (S.calls store.new) }
        ensures causes { StoreCauses (S.faults store.old) (S.faults store.new)
            (S.wants store.old) (S.wants store.new) result }
    {
        let place = codes_place(side, &self.text, self.set.size());
        read_number(store, &self.name, place + 4 * u64::from(i))
    }

    /// Reads all codes: White's and Black's, each in order of number.
    pub fn load<S: Store>(
        &self,
        alloc: Global,
        store: &mut S,
    ) -> Result<(Vec<u32>, Vec<u32>), TableFault>
        requires { Carries (S.files store.old) self.now }
        ensures run { Run (loading self.now.name self.now.text (table_size self.now))
            (end_of stop_of (λ lists. (lists.0.items, lists.1.items)) result)
            (store_of S.Store store.old) (store_of S.Store store.new) }
        ensures white { IfOk result
            (λ lists. IfSome (S.files store.old) (λ m. IfSome (m self.now.name)
            (λ bytes. lists.0.items ≡ codes_at White self.now.text (table_size self.now) bytes))) }
        ensures black { IfOk result
            (λ lists. IfSome (S.files store.old) (λ m. IfSome (m self.now.name)
            (λ bytes. lists.1.items ≡ codes_at Black self.now.text (table_size self.now) bytes))) }
        ensures may_keep { IfOk result
            (λ lists. MayKeep (S.files store.old) self.now lists.0.items lists.1.items) }
        ensures white_size { IfOk result (λ lists. length lists.0.items ≡ table_size self.now) }
        ensures black_size { IfOk result (λ lists. length lists.1.items ≡ table_size self.now) }
        ensures quiet { StoreQuiet (store_of S.Store store.old) (store_of S.Store store.new) }
        ensures asked { S.asked store.new ≤ S.asked store.old + 8 * table_size self.now }
        ensures calls { S.calls store.new ≤ S.calls store.old + 2 * pieces_of
            (table_size self.now) }
        ensures outside { IfErr result IsOutside }
        ensures causes { TableCauses (S.faults store.old) (S.faults store.new)
            (S.wants store.old) (S.wants store.new) result }
    {
        load_codes(alloc, store, &self.name, &self.text, self.set.size())
    }
}
