//! The command `report TABLE`: the mutual zugzwangs of a table, and the exits that no exit line of
//! its rules values.
ghost use Rattle.std.specs.Prelude.{◌≡◌, map, false};
ghost use Rattle.std.specs.String.{string_bytes};
ghost use Rattle.frz_store.specs.Told.{SourceTold, store_of, sink_of};
ghost use Rattle.frz_answer.specs.World.{world};
ghost use Rattle.frz_answer.specs.Ends.{Ran};
ghost use Rattle.frz_commands_ask.specs.Reporting.{reporting_at, report_words};

use frz_answer::{End, Refusal, one_word, refuse};
use frz_prelude::Stop;
use frz_report::{end_of, report};
use frz_steps::Steps;
use frz_store::{Sink, Store};
use frz_table::open_table;
use std::alloc::Global;
use std::sync::ledger::Ledger;

/// Reports on the table file of this name, or refuses it.
fn report_named<S: Store, O: Sink, L: Ledger>(
    alloc: Global,
    name: &str,
    store: &mut S,
    out: &mut O,
    steps: &mut Steps<L>,
) -> End
    ensures { (input : SourceTold) → Ran (reporting_at name.now) result
        (world (store_of S.Store store.old) input (sink_of O.Sink out.old) steps.old)
        (world (store_of S.Store store.new) input (sink_of O.Sink out.new) steps.new) }
{
    match open_table(alloc, store, name) {
        Ok(table) => end_of(report(alloc, &table, store, out, steps)),
        Err(fault) => Stop::from(fault).end(out),
    }
}

/// Runs the command `report TABLE`; `words` is TABLE.
pub fn run_report<S: Store, O: Sink, L: Ledger>(
    alloc: Global,
    words: &[String],
    store: &mut S,
    out: &mut O,
    steps: &mut Steps<L>,
) -> End
    ensures ran { (input : SourceTold) → Ran (report_words (map string_bytes words.now)) result
        (world (store_of S.Store store.old) input (sink_of O.Sink out.old) steps.old)
        (world (store_of S.Store store.new) input (sink_of O.Sink out.new) steps.new) }
    ensures store_unused { (report_words (map string_bytes words.now)).needs.store ≡ false
        → store.new ≡ store.old }
{
    match one_word(words) {
        Some(name) => report_named(alloc, name, store, out, steps),
        None => refuse(Refusal::Count, out),
    }
}
