//! The command `report TABLE BACK ..`: the mutual zugzwangs of a table, and the exits to which neither
//! its exit lines nor the tables of the names BACK give a value.
ghost use Rattle.std.specs.Prelude.{◌≡◌, ◌≤◌, ◌+◌, ◌∷◌, length, map, false, Err};
ghost use Rattle.std.specs.String.{string_bytes};
ghost use Rattle.frz_graph.specs.EntryCodes.{of_side};
ghost use Rattle.frz_store.specs.Told.{SourceTold, store_of, sink_of};
ghost use Rattle.frz_table.specs.Tables.{table_size};
ghost use Rattle.frz_atlas.specs.FileOn.{loaded_back};
ghost use Rattle.frz_atlas.specs.Links.{value_over};
ghost use Rattle.frz_atlas.specs.Loaded.{leans_as};
ghost use Rattle.frz_answer.specs.World.{world};
ghost use Rattle.frz_answer.specs.Ends.{Ran};
ghost use Rattle.frz_atlas_prelude.specs.Names.{has_twice as is_twice};
ghost use Rattle.frz_atlas_prelude.specs.declared.names.TheConstants.{MOST_BACKS};
ghost use Rattle.frz_commands_atlas.specs.FirstExits.{WritesFirsts};
ghost use Rattle.frz_commands_atlas.specs.Reporting.{reporting_at, report_words};

use crate::first_exits::write_first_report;
use frz_answer::{End, refuse};
use frz_atlas::{AtlasBook, BackTable, LoadedAtlas, load_atlas};
use frz_atlas_prelude::{end_at, names_with_backs};
use frz_exits::{ExitBook, RuleBook};
use frz_game::{Game, Pair};
use frz_report::{ReportFault, Totals, end_of};
use frz_steps::Steps;
use frz_store::{Sink, Store};
use frz_table::FileKind;
use std::alloc::Global;
use std::sync::ledger::Ledger;

/// Writes the report of a loaded table by its codes, with exits valued by the book.
fn report_by<B: ExitBook, O: Sink, L: Ledger>(
    alloc: Global,
    table: &BackTable,
    book: &B,
    out: &mut O,
    steps: &mut Steps<L>,
) -> Result<Totals, ReportFault>
    ensures wrote { WritesFirsts table.now.table.rules (B.value_at book.now)
        (λ side. of_side side table.now.white.items table.now.black.items) result
        (sink_of O.Sink out.old) (sink_of O.Sink out.new) }
    ensures stored { result ≡ Err ReportFault.Store → ⊥ }
    ensures steps { steps.new ≤ steps.old + table_size table.now.table }
    ensures later { steps.old ≤ steps.new }
{
    let game = Game {
        set: table.table.set(),
        rules: table.table.rules(),
        book,
    };
    let entries = Pair {
        white: &table.white,
        black: &table.black,
    };
    write_first_report(alloc, &game, &entries, out, steps)
}

/// Writes the report of a loaded table, over those behind it where it leans on them, by its codes as
/// they were loaded.
fn report_loaded<O: Sink, L: Ledger>(
    alloc: Global,
    loaded: &LoadedAtlas,
    out: &mut O,
    steps: &mut Steps<L>,
) -> Result<Totals, ReportFault>
    ensures wrote { WritesFirsts loaded.now.table.table.rules
        (value_over (leans_as loaded.now.table.table.kind) loaded.now.table.table.rules
        (map loaded_back loaded.now.backs.items))
        (λ side. of_side side loaded.now.table.white.items loaded.now.table.black.items) result
        (sink_of O.Sink out.old) (sink_of O.Sink out.new) }
    ensures stored { result ≡ Err ReportFault.Store → ⊥ }
    ensures steps { steps.new ≤ steps.old + table_size loaded.now.table.table }
    ensures later { steps.old ≤ steps.new }
{
    let table = &loaded.table;
    let rules = table.table.rules();
    match table.table.kind() {
        FileKind::Atlas => {
            report_by(
                alloc,
                table,
                &AtlasBook::new(rules, &loaded.backs),
                out,
                steps,
            )
        }
        _ => report_by(alloc, table, &RuleBook::new(rules), out, steps),
    }
}

/// Reports on the table of this name and those behind it, by names no two of which are the same.
fn report_named<S: Store, O: Sink, L: Ledger>(
    alloc: Global,
    table: &str,
    behind: &[String],
    store: &mut S,
    out: &mut O,
    steps: &mut Steps<L>,
) -> End
    requires apart { is_twice (table.now ∷ map string_bytes behind.now) ≡ false }
    requires few { length (map string_bytes behind.now) ≤ MOST_BACKS }
    ensures { (input : SourceTold)
        → Ran (reporting_at table.now (map string_bytes behind.now)) result
        (world (store_of S.Store store.old) input (sink_of O.Sink out.old) steps.old)
        (world (store_of S.Store store.new) input (sink_of O.Sink out.new) steps.new) }
{
    match load_atlas(alloc, store, table, behind) {
        Ok(loaded) => end_of(report_loaded(alloc, &loaded, out, steps)),
        Err(fault) => end_at(fault, out),
    }
}

/// Runs the command `report TABLE BACK..`; `words` are TABLE and 0 to 16 BACKs. Refuses a name that
/// stands twice, before it reads a file. No code is checked.
pub fn run_report<S: Store, O: Sink, L: Ledger>(
    alloc: Global,
    words: &[String],
    store: &mut S,
    out: &mut O,
    steps: &mut Steps<L>,
) -> End
    ensures ran { (input : SourceTold) → Ran (report_words (map string_bytes words.now)) result
        (world (store_of S.Store store.old) input (sink_of O.Sink out.old) steps.old)
        (world (store_of S.Store store.new) input (sink_of O.Sink out.new) steps.new) }
    ensures store_unused { (report_words (map string_bytes words.now)).needs.store ≡ false
        → store.new ≡ store.old }
{
    match names_with_backs(words) {
        Ok((table, behind)) => report_named(alloc, table, behind, store, out, steps),
        Err(why) => refuse(why, out),
    }
}
