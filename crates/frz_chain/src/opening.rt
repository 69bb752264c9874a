//! The back table of a chain: opened, loaded and checked.
ghost use Rattle.std.specs.Prelude.{◌≡◌, ◌≤◌, length, IfOk, IfErr};
ghost use Rattle.frz_store.specs.Told.{store_of, StoreQuiet};
ghost use Rattle.frz_table.specs.Tables.{table_size};
ghost use Rattle.frz_chain.specs.Backs.{GivesBack, KeepsTable, OpensBack, RefusesBack};
ghost use Rattle.frz_chain.specs.Books.{back_with};
ghost use Rattle.frz_chain.specs.Causes.{HasChainCause};
ghost use Rattle.frz_chain.specs.FileOn.{loaded_back};

use crate::{BackTable, ChainFault};
use frz_build::{CheckedCodes, Verdict, load_checked};
use frz_exits::RuleBook;
use frz_steps::Steps;
use frz_store::Store;
use frz_table::{TableFile, open_table};
use std::alloc::Global;
use std::sync::ledger::Ledger;

/// Opens the plain table of this name, loads its codes and checks them; a wrong code is a fault.
/// The calls of the store are those of opening and of loading, and the steps are at most the size.
pub fn open_back<S: Store, L: Ledger>(
    alloc: Global,
    store: &mut S,
    name: &str,
    steps: &mut Steps<L>,
) -> Result<BackTable, ChainFault>
    ensures opened { IfOk result (λ back. OpensBack name.now (loaded_back back)
        (store_of S.Store store.old) (store_of S.Store store.new) steps.old steps.new) }
    ensures table { IfOk result (KeepsTable (S.files store.old) name.now) }
    ensures refused { IfErr result (RefusesBack name.now
        (store_of S.Store store.old) (store_of S.Store store.new) steps.old steps.new) }
    ensures quiet { StoreQuiet (store_of S.Store store.old) (store_of S.Store store.new) }
    ensures later { steps.old ≤ steps.new }
    ensures cause { HasChainCause result (store_of S.Store store.old) (store_of S.Store store.new) }
{
    let table = match open_table(alloc, store, name) {
        Ok(table) => table,
        Err(fault) => return Err(ChainFault::of_back(fault)),
    };
    let book = RuleBook::new(table.rules());
    match load_checked(alloc, &table, store, &book, steps) {
        Ok(loaded) => exact_back(table, loaded),
        Err(fault) => Err(ChainFault::of_back(fault)),
    }
}

/// The back table if its codes are exact, else the fault with the first wrong entry.
fn exact_back(table: TableFile, loaded: CheckedCodes) -> Result<BackTable, ChainFault>
    requires white { length loaded.white.items ≡ table_size table }
    requires black { length loaded.black.items ≡ table_size table }
    ensures gives { GivesBack (back_with table.rules.groups loaded.white.items loaded.black.items)
        loaded.verdict result }
    ensures same { IfOk result (λ given. given.table ≡ table) }
{
    match loaded.verdict {
        Verdict::Exact => Ok(BackTable {
            table,
            white: loaded.white,
            black: loaded.black,
        }),
        Verdict::Wrong(wrong) => Err(ChainFault::BackWrong(wrong)),
    }
}
