//! The files that `chain` reads: a rules text, and the back table behind its exit lines.
ghost use Rattle.std.specs.Prelude.{◌≡◌, ◌≤◌, length, IfOk, IfErr, Some, Ok, Err};
ghost use Rattle.frz_sets.specs.Sound.{IsSound};
ghost use Rattle.frz_sets.specs.Views.{RuleLines};
ghost use Rattle.frz_rules.specs.Text.{rules_of};
ghost use Rattle.frz_rules.specs.declared.fault.TheConstants.{LONGEST_TEXT};
ghost use Rattle.frz_store.specs.Told.{store_of, StoreQuiet};
ghost use Rattle.frz_table.specs.declared.kind.FileKind.TheVariants.{Plain};
ghost use Rattle.frz_table.specs.Opening.{opened, table_format};
ghost use Rattle.frz_prelude.specs.Stops.{HasItsCause};

use crate::stopping::stop_of;
use frz_chain::{BackTable, open_back};
use frz_prelude::{Refused, RulesText, Stop, read_rules_text};
use frz_steps::Steps;
use frz_store::Store;
use frz_table::TableFault;
use std::alloc::Global;
use std::sync::ledger::Ledger;

/// A rules text with its rules, and the back table, checked and in memory.
#[derive(Drop)]
pub struct BothRead {
    pub read: RulesText,
    pub back: BackTable,
}

ghost use Rattle.frz_commands_chain.specs.Reading.{AreBothRead, StopsReading};

/// Why a file that holds an accepted rules text is not a table: it is too short, or does not begin
/// as one.
fn why_no_table(text: &[u8]) -> TableFault
    ensures { (rules : RuleLines) → rules_of text.now ≡ Ok rules
        → opened (table_format Plain) (Some text.now) ≡ Err result }
{
    if text.len() < 16 {
        TableFault::Truncated(text.len() as u64, 16)
    } else {
        TableFault::Magic
    }
}

/// Reads the rules file, then opens and checks the back table. Where both names are the same, the
/// file is not read again: a rules text is not a table, so BACK is refused.
pub fn read_both<S: Store, L: Ledger>(
    alloc: Global,
    rules: &str,
    back: &str,
    store: &mut S,
    steps: &mut Steps<L>,
) -> Result<BothRead, Stop>
    ensures read { AreBothRead rules.now back.now result
        (store_of S.Store store.old) (store_of S.Store store.new) steps.old steps.new }
    ensures quiet { StoreQuiet (store_of S.Store store.old) (store_of S.Store store.new) }
    ensures cause { HasItsCause result (store_of S.Store store.old) (store_of S.Store store.new) }
    ensures later { steps.old ≤ steps.new }
    ensures stops { IfErr result StopsReading }
    ensures sound { IfOk result (λ both. IsSound both.read.rules) }
    ensures short { IfOk result (λ both. length both.read.text.items ≤ LONGEST_TEXT) }
{
    let read = read_rules_text(alloc, rules, store)?;
    if rules == back {
        return Err(Stop::Refused(Refused::Back(why_no_table(&read.text))));
    }
    match open_back(alloc, store, back, steps) {
        Ok(back) => Ok(BothRead { read, back }),
        Err(fault) => Err(stop_of(fault)),
    }
}
