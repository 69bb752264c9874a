//! Checking a table over a back table.
ghost use Rattle.std.specs.Prelude.{◌≡◌, ◌≤◌, ◌+◌, ◌*◌, IfOk, IfErr};
ghost use Rattle.frz_sets.specs.Sets.{size_of};
ghost use Rattle.frz_store.specs.Told.{store_of, StoreQuiet};
ghost use Rattle.frz_table.specs.Layout.{pieces_of};
ghost use Rattle.frz_table.specs.Tables.{Carries, table_size};
ghost use Rattle.frz_build.specs.Kept.{ChecksTable};
ghost use Rattle.frz_chain.specs.Books.{chain_value};
ghost use Rattle.frz_chain.specs.Causes.{HasChainCause, IsOutsideFault};
ghost use Rattle.frz_chain.specs.FileOn.{loaded_back};

use crate::{BackTable, ChainFault, open_back};
use frz_build::{Verdict, check_kept};
use frz_game::Wrong;
use frz_steps::Steps;
use frz_store::Store;
use frz_table::{FileKind, TableFile, open_kind};
use std::alloc::Global;
use std::sync::ledger::Ledger;

/// What a check says of a table over a back table.
#[derive(Clone, Copy, Debug, PartialEq, Eq)]
pub enum ChainVerdict {
    /// The table is the one right file of its text over the back table. Given are the sizes of the
    /// table and of the back table.
    Exact(u32, u32),
    /// An entry is not its local code, the code that the codes one ply on give. Given is the first
    /// such entry, by number, and White's before Black's at one number.
    Wrong(Wrong),
}

ghost use Rattle.frz_chain.specs.Chains.{CarriesSizes, ChecksChain, RefusesChain, judgement};

/// Loads the codes of an open table and checks them, with exits valued by the back table too.
fn check_over<S: Store, L: Ledger>(
    alloc: Global,
    table: &TableFile,
    back: &BackTable,
    store: &mut S,
    steps: &mut Steps<L>,
) -> Result<ChainVerdict, ChainFault>
    requires { Carries (S.files store.old) table.now }
    ensures verdict { IfOk result (λ v. ChecksTable (S.files store.old) table.now
        (chain_value table.now.rules (loaded_back back.now)) (judgement v)) }
    ensures sizes { IfOk result
        (λ v. CarriesSizes v (table_size table.now) (size_of back.now.table.rules.groups)) }
    ensures outside { IfErr result IsOutsideFault }
    ensures quiet { StoreQuiet (store_of S.Store store.old) (store_of S.Store store.new) }
    ensures asked { S.asked store.new ≤ S.asked store.old + 8 * table_size table.now }
    ensures calls { S.calls store.new ≤ S.calls store.old + 2 * pieces_of (table_size table.now) }
    ensures steps { steps.new ≤ steps.old + table_size table.now }
    ensures later { steps.old ≤ steps.new }
    ensures cause { HasChainCause result (store_of S.Store store.old) (store_of S.Store store.new) }
{
    let book = back.behind(table.rules());
    match check_kept(alloc, table, store, &book, steps) {
        Ok(Verdict::Exact) => Ok(ChainVerdict::Exact(table.set().size(), back.size())),
        Ok(Verdict::Wrong(wrong)) => Ok(ChainVerdict::Wrong(wrong)),
        Err(fault) => Err(ChainFault::of_table(fault)),
    }
}

/// Opens the table named `table`, then the plain table named `back`, which is checked by its own
/// exit lines, and checks the first table over the second. Both names may be the same.
pub fn check_chain<S: Store, L: Ledger>(
    alloc: Global,
    store: &mut S,
    table: &str,
    back: &str,
    steps: &mut Steps<L>,
) -> Result<ChainVerdict, ChainFault>
    ensures verdict { IfOk result (ChecksChain table.now back.now
        (store_of S.Store store.old) (store_of S.Store store.new) steps.old steps.new) }
    ensures refused { IfErr result (RefusesChain table.now back.now
        (store_of S.Store store.old) (store_of S.Store store.new) steps.old steps.new) }
    ensures quiet { StoreQuiet (store_of S.Store store.old) (store_of S.Store store.new) }
    ensures later { steps.old ≤ steps.new }
    ensures cause { HasChainCause result (store_of S.Store store.old) (store_of S.Store store.new) }
{
    let opened = match open_kind(alloc, store, table, FileKind::Chained) {
        Ok(opened) => opened,
        Err(fault) => return Err(ChainFault::of_table(fault)),
    };
    let behind = open_back(alloc, store, back, steps)?;
    check_over(alloc, &opened, &behind, store, steps)
}
