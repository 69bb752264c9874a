//! The check of table files by the game of their rules.
ghost use Rattle.std.specs.Prelude.{◌≡◌, ◌≤◌, ◌+◌, ◌*◌, IfOk, IfErr, OnErr};
ghost use Rattle.frz_store.specs.Told.{store_of, StoreQuiet};
ghost use Rattle.frz_table.specs.Faults.{IsOutside, TableCauses};
ghost use Rattle.frz_table.specs.Layout.{pieces_of};
ghost use Rattle.frz_table.specs.Tables.{Carries, table_size};
ghost use Rattle.frz_check.specs.Kept.{ChecksFile, ChecksTable, RefusesFile};

use crate::{Verdict, load_checked};
use frz_game::{ExitBook, RuleBook};
use frz_steps::Steps;
use frz_store::Store;
use frz_table::{TableFault, TableFile, open_table};
use std::alloc::Global;
use std::sync::ledger::Ledger;

/// Loads the codes of an open table and checks them, with exits valued by the book. The calls of
/// the store are those of `load`, and the steps are at most the size.
pub fn check_kept<B: ExitBook, S: Store, L: Ledger>(
    alloc: Global,
    table: &TableFile,
    store: &mut S,
    book: &B,
    steps: &mut Steps<L>,
) -> Result<Verdict, TableFault>
    requires { Carries (S.files store.old) table.now }
    ensures verdict { IfOk result
        (ChecksTable (S.files store.old) table.now (B.value_at book.now)) }
    ensures outside { IfErr result IsOutside }
    ensures quiet { StoreQuiet (store_of S.Store store.old) (store_of S.Store store.new) }
    ensures asked { S.asked store.new ≤ S.asked store.old + 8 * table_size table.now }
    ensures calls { S.calls store.new ≤ S.calls store.old + 2 * pieces_of (table_size table.now) }
    ensures steps { steps.new ≤ steps.old + table_size table.now }
    ensures later { steps.old ≤ steps.new }
    ensures no_step { OnErr result (steps.new ≡ steps.old) }
    ensures causes { TableCauses (S.faults store.old) (S.faults store.new)
        (S.wants store.old) (S.wants store.new) result }
{
    let loaded = load_checked(alloc, table, store, book, steps)?;
    Ok(loaded.verdict)
}

/// Opens a plain table and checks its codes, with exits valued by its own exit lines. The calls of
/// the store are those of opening and of `load`, and the steps are at most the size.
pub fn check_table<S: Store, L: Ledger>(
    alloc: Global,
    store: &mut S,
    name: &str,
    steps: &mut Steps<L>,
) -> Result<Verdict, TableFault>
    ensures verdict { IfOk result
        (ChecksFile name.now (store_of S.Store store.old) (store_of S.Store store.new)
        steps.old steps.new) }
    ensures refused { IfErr result
        (RefusesFile name.now (store_of S.Store store.old) (store_of S.Store store.new)
        steps.old steps.new) }
    ensures quiet { StoreQuiet (store_of S.Store store.old) (store_of S.Store store.new) }
    ensures later { steps.old ≤ steps.new }
    ensures no_step { OnErr result (steps.new ≡ steps.old) }
    ensures causes { TableCauses (S.faults store.old) (S.faults store.new)
        (S.wants store.old) (S.wants store.new) result }
{
    let table = open_table(alloc, store, name)?;
    let book = RuleBook::new(table.rules());
    check_kept(alloc, &table, store, &book, steps)
}
