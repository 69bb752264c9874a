//! The codes that a way goes by: kept in a table file, or in memory.
ghost use Rattle.std.specs.Prelude.{◌≡◌, ◌≤◌, ◌+◌, ◌*◌, ℕ, List, All, length, map, Option, Some, None, OnOk, ⊤};
ghost use Rattle.frz_board.specs.declared.man.Colour.{Colour};
ghost use Rattle.frz_board.specs.declared.man.Colour.TheVariants.{White};
ghost use Rattle.frz_store.specs.Files.{Files};
ghost use Rattle.frz_store.specs.Outside.{StoreCauses};
ghost use Rattle.frz_store.specs.Told.{StoreTold, store_of, StoreQuiet};
ghost use Rattle.frz_table.specs.Tables.{Carries, table_size};
ghost use Rattle.frz_graph.specs.EntryCodes.{arm_code, IsWithin};
ghost use Rattle.frz_ways.specs.Costs.{arms_reads};
ghost use Rattle.frz_ways.specs.Kept.{told_codes, MayRead, uncalled};
ghost use Rattle.frz_ways.specs.Reads.{AreApart};

use crate::reading::read_codes;
use frz_board::Colour;
use frz_graph::{CodeList, Entries, NextList, fill};
use frz_store::{Store, StoreFault};
use frz_table::TableFile;

/// One code for each number and side. They are read through an object of the type `S`: a store that
/// holds a table file, or `Nowhere` where the codes are in memory.
pub trait KeptCodes<S> {
    /// What the object tells.
    ghost told: { S → StoreTold };

    /// How many codes each side has.
    ghost size: { Self → ℕ };

    /// Whether the codes can be read, by the files that the object tells.
    ghost is_ready: { Self → Option Files → Type 0 };

    /// The codes of a side in order of number, where they are known.
    ghost known: { Self → Option Files → Colour → Option (List ℕ) };

    /// Puts the code of each move of the list into `codes`, and drops what was there. A move that
    /// stays inside the set costs at most one call of a store, which reads four bytes.
    fn read(
        &self,
        store: &mut S,
        side: Colour,
        list: &NextList,
        codes: &mut CodeList,
    ) -> Result<(), StoreFault>
        requires within { All (λ a. IsWithin (size self.now) a.next) list.now.items }
        requires apart { AreApart list.now.items }
        requires ready { is_ready self.now (told store.old).files }
        ensures many { OnOk result (length codes.new.items ≡ length list.now.items) }
        ensures codes { OnOk result ((kept : List ℕ)
            × MayRead (known self.now (told store.old).files side) (size self.now) kept
            × (codes.new.items ≡ map (arm_code side kept) list.now.items)) }
        ensures quiet { StoreQuiet (told store.old) (told store.new) }
        ensures asked { (told store.new).asked ≤
            (told store.old).asked + 4 * arms_reads list.now.items }
        ensures calls { (told store.new).calls ≤ (told store.old).calls + arms_reads list.now.items }
        ensures causes { StoreCauses (told store.old).faults (told store.new).faults
            (told store.old).wants (told store.new).wants result };
}

impl<S: Store> KeptCodes<S> for TableFile {
    ghost told = { store_of S.Store };

    ghost size = { λ table. table_size table };

    ghost is_ready = { λ table files. Carries files table };

    ghost known = { λ table files side. told_codes table side files };

    fn read(
        &self,
        store: &mut S,
        side: Colour,
        list: &NextList,
        codes: &mut CodeList,
    ) -> Result<(), StoreFault> {
        read_codes(self, store, side, list, codes)
    }
}

/// Where codes in memory are read: no store is called.
#[derive(Drop)]
pub struct Nowhere;

/// Codes in memory.
#[derive(Clone, Copy)]
pub struct Loaded<'a, E> {
    pub entries: &'a E,
}

impl<E: Entries> KeptCodes<Nowhere> for Loaded<'_, E> {
    ghost told = { λ _. uncalled };

    ghost size = { λ loaded. length (E.codes loaded.entries.now White) };

    ghost is_ready = { λ _ _. ⊤ };

    ghost known = { λ loaded _ side. Some (E.codes loaded.entries.now side) };

    fn read(
        &self,
        _nowhere: &mut Nowhere,
        side: Colour,
        list: &NextList,
        codes: &mut CodeList,
    ) -> Result<(), StoreFault> {
        fill(side, list, self.entries, codes);
        Ok(())
    }
}
