//! The report of a table file.
ghost use Rattle.std.specs.Prelude.{◌≡◌, ◌≤◌, ◌+◌, ◌*◌, length, flat_map, Err};
ghost use Rattle.frz_board.specs.declared.man.Colour.TheVariants.{White};
ghost use Rattle.frz_sets.specs.Sets.{size_of};
ghost use Rattle.frz_sets.specs.Sound.{IsSound};
ghost use Rattle.frz_store.specs.Told.{store_of, sink_of, StoreQuiet};
ghost use Rattle.frz_answer.specs.Texts.{WroteText};
ghost use Rattle.frz_table.specs.Faults.{IsOutside};
ghost use Rattle.frz_table.specs.Layout.{pieces_of};
ghost use Rattle.frz_table.specs.Tables.{Carries, table_size};
ghost use Rattle.frz_exits.specs.Books.{value_by};
ghost use Rattle.frz_graph.specs.EntryCodes.{of_side};
ghost use Rattle.frz_report.specs.Lines.{class_line};
ghost use Rattle.frz_report.specs.Reports.{StoreCause, WritesOfTable, WritesReport, unloaded};
ghost use Rattle.frz_report.specs.Walks.{lettered};

use crate::census::Census;
use crate::class::Class;
use crate::fault::{ReportFault, Totals};
use crate::texts::{write_class, write_totals};
use crate::walk::walk;
use frz_exits::{ExitBook, RuleBook};
use frz_game::{Entries, Game, Pair};
use frz_steps::Steps;
use frz_store::{Failed, Sink, Store};
use frz_table::{TableFault, TableFile};
use indexmap::IndexMap;
use std::alloc::Global;
use std::sync::ledger::Ledger;

/// Writes the lines of the classes in the order in which they were met.
fn write_classes<O: Sink>(classes: &IndexMap<Class, u64>, out: &mut O) -> Result<(), Failed>
    ensures { WroteText (flat_map class_line (lettered classes.now.entries)) result
        (sink_of O.Sink out.old) (sink_of O.Sink out.new) }
{
    for (class, count) in classes.iter() {
        write_class(class, *count, out)?;
    }
    Ok(())
}

/// Writes the report of a set by the codes of both sides, with its exits valued by the book of the
/// game: a line for each mutual zugzwang as it is met, a line for each class of open exits, and a
/// line with the totals, which are also the answer. With a fault, whole lines were written, or the
/// sink failed within one. The moves of each number are listed once.
pub fn write_report<B: ExitBook, E: Entries, O: Sink, L: Ledger>(
    alloc: Global,
    game: &Game<'_, B>,
    entries: &E,
    out: &mut O,
    steps: &mut Steps<L>,
) -> Result<Totals, ReportFault>
    requires sound { IsSound game.now.rules.now }
    requires many { length (E.codes entries.now White) ≡ size_of game.now.rules.now.groups }
    ensures wrote { WritesReport game.now.rules.now (B.value_at game.now.book.now)
        (E.codes entries.now) result (sink_of O.Sink out.old) (sink_of O.Sink out.new) }
    ensures stored { result ≡ Err ReportFault.Store → ⊥ }
    ensures steps { steps.new ≤ steps.old + size_of game.now.rules.now.groups }
    ensures later { steps.old ≤ steps.new }
{
    let mut census = Census::new(alloc);
    let squeezes = walk(game, entries, &mut census, out, steps)?;
    write_classes(&census.classes, out)?;
    write_totals(squeezes, census.total, out)?;
    Ok(Totals {
        squeezes,
        unassigned: census.total,
    })
}

/// The fault of a report whose codes could not be loaded.
fn fault_of(fault: TableFault) -> ReportFault
    requires { IsOutside fault }
    ensures { result ≡ unloaded fault }
{
    match fault {
        TableFault::Failed => ReportFault::Store,
        TableFault::NoMemory => ReportFault::NoMemory,
        _ => unreachable!(),
    }
}

/// Writes the report of a table by these codes, White's and Black's.
fn report_codes<O: Sink, L: Ledger>(
    alloc: Global,
    table: &TableFile,
    white: &[u32],
    black: &[u32],
    out: &mut O,
    steps: &mut Steps<L>,
) -> Result<Totals, ReportFault>
    requires white_size { length white.now ≡ table_size table.now }
    requires black_size { length black.now ≡ table_size table.now }
    ensures wrote { WritesReport table.now.rules (value_by table.now.rules)
        (λ side. of_side side white.now black.now) result
        (sink_of O.Sink out.old) (sink_of O.Sink out.new) }
    ensures stored { result ≡ Err ReportFault.Store → ⊥ }
    ensures steps { steps.new ≤ steps.old + table_size table.now }
    ensures later { steps.old ≤ steps.new }
{
    let rules = table.rules();
    let book = RuleBook::new(rules);
    let game = Game {
        set: table.set(),
        rules,
        book: &book,
    };
    let entries = Pair { white, black };
    write_report(alloc, &game, &entries, out, steps)
}

/// Writes the report of a table by the codes in its file and the values of its own exit lines, as
/// `write_report` does.
pub fn report<S: Store, O: Sink, L: Ledger>(
    alloc: Global,
    table: &TableFile,
    store: &mut S,
    out: &mut O,
    steps: &mut Steps<L>,
) -> Result<Totals, ReportFault>
    requires { Carries (S.files store.old) table.now }
    ensures wrote { WritesOfTable (S.files store.old) table.now result
        (sink_of O.Sink out.old) (sink_of O.Sink out.new) }
    ensures cause { StoreCause result (store_of S.Store store.old) (store_of S.Store store.new) }
    ensures quiet { StoreQuiet (store_of S.Store store.old) (store_of S.Store store.new) }
    ensures asked { S.asked store.new ≤ S.asked store.old + 8 * table_size table.now }
    ensures calls { S.calls store.new ≤ S.calls store.old + 2 * pieces_of (table_size table.now) }
    ensures steps { steps.new ≤ steps.old + table_size table.now }
    ensures later { steps.old ≤ steps.new }
{
    match table.load(alloc, store) {
        Ok((white, black)) => report_codes(alloc, table, &white, &black, out, steps),
        Err(fault) => Err(fault_of(fault)),
    }
}
