//! The verdict on the table file of a name, with its size.
ghost use Rattle.std.specs.Prelude.{◌≤◌, IfOk, IfErr};
ghost use Rattle.frz_store.specs.Told.{store_of, StoreQuiet};
ghost use Rattle.frz_table.specs.Faults.{TableCauses};
ghost use Rattle.frz_check.specs.Kept.{RefusesFile};
ghost use Rattle.frz_commands_table.specs.Judging.{JudgesFile};

use frz_check::{Verdict, check_kept};
use frz_exits::RuleBook;
use frz_steps::Steps;
use frz_store::Store;
use frz_table::{TableFault, open_table};
use std::alloc::Global;
use std::sync::ledger::Ledger;

/// The verdict on a table, and its size: how many numbers it has.
#[derive(Clone, Copy)]
pub struct Judged {
    pub size: u32,
    pub verdict: Verdict,
}

/// Opens the table of this name, loads its codes and checks each. The calls of the store are those
/// of opening and of loading; the steps are at most the size.
pub fn judge_file<S: Store, L: Ledger>(
    alloc: Global,
    name: &str,
    store: &mut S,
    steps: &mut Steps<L>,
) -> Result<Judged, TableFault>
    ensures judged { IfOk result (JudgesFile name.now (store_of S.Store store.old)
        (store_of S.Store store.new) steps.old steps.new) }
    ensures refused { IfErr result (RefusesFile name.now (store_of S.Store store.old)
        (store_of S.Store store.new) steps.old steps.new) }
    ensures quiet { StoreQuiet (store_of S.Store store.old) (store_of S.Store store.new) }
    ensures later { steps.old ≤ steps.new }
    ensures causes { TableCauses (S.faults store.old) (S.faults store.new)
        (S.wants store.old) (S.wants store.new) result }
{
    let table = open_table(alloc, store, name)?;
    let book = RuleBook::new(table.rules());
    let size = table.set().size();
    match check_kept(alloc, &table, store, &book, steps) {
        Ok(verdict) => Ok(Judged { size, verdict }),
        Err(fault) => Err(fault),
    }
}
