//! The command `each TABLE FEN BACK ..`: the bounds after each legal move, by the codes in a table
//! file and in those behind it.
ghost use Rattle.std.specs.Prelude.{◌≡◌, ◌≤◌, ◌+◌, ◌*◌, ◌∷◌, All, length, map, false, true, IfOk, IfErr};
ghost use Rattle.std.specs.String.{string_bytes};
ghost use Rattle.frz_fide.specs.Legal.{is_legal};
ghost use Rattle.frz_fide.specs.Valid.{IsValid};
ghost use Rattle.frz_fen.specs.Reading.{fen_of};
ghost use Rattle.frz_store.specs.Told.{SourceTold, store_of, sink_of, StoreQuiet};
ghost use Rattle.frz_table.specs.Opening.{contents_of};
ghost use Rattle.frz_table.specs.Tables.{Carries};
ghost use Rattle.frz_atlas.specs.FileOn.{loaded_back};
ghost use Rattle.frz_atlas.specs.Loaded.{leans_as};
ghost use Rattle.frz_atlas.specs.Causes.{HasAtlasCause};
ghost use Rattle.frz_answer.specs.Texts.{WroteText};
ghost use Rattle.frz_answer.specs.World.{world};
ghost use Rattle.frz_answer.specs.Ends.{Ran};
ghost use Rattle.frz_prelude.specs.Positions.{on_position};
ghost use Rattle.frz_prelude.specs.Stops.{HasItsCause};
ghost use Rattle.frz_atlas_prelude.specs.Names.{has_twice as is_twice};
ghost use Rattle.frz_atlas_prelude.specs.declared.names.TheConstants.{MOST_BACKS};
ghost use Rattle.frz_commands_atlas.specs.Each.{OpensTables, ReadsIn, RefusesTables, rows_given, staying_in};
ghost use Rattle.frz_commands_atlas.specs.FirstBack.{found_behind};
ghost use Rattle.frz_commands_atlas.specs.RowLines.{each_text};
ghost use Rattle.frz_commands_atlas.specs.EachMeans.{each_at as listing_at, each_words};

use crate::first_back::Behind;
use crate::ranking::rank_rows;
use crate::row_lines::write_each;
use crate::rows::{Row, read_rows};
use frz_answer::{End, Status, refuse, said};
use frz_atlas::{AtlasFault, BackTable, load_behind, open_own};
use frz_atlas_prelude::{Given, end_at, names_given};
use frz_board::Position;
use frz_fen::read_fen;
use frz_prelude::{Refused, Stop, number_in, refuse_named};
use frz_steps::Steps;
use frz_store::{Failed, Sink, Store};
use frz_table::{FileKind, TableFile};
use std::alloc::Global;
use std::sync::ledger::Ledger;

/// The rows of the legal moves at the position, from the best, by the codes of an open table, with
/// these behind its exit lines where it leans on others. A position outside the set is refused
/// without a read.
fn rows_in<S: Store, L: Ledger>(
    alloc: Global,
    table: &TableFile,
    backs: &[BackTable],
    p: &Position,
    store: &mut S,
    steps: &mut Steps<L>,
) -> Result<Vec<Row>, Stop>
    requires valid { IsValid p.now }
    requires carried { Carries (S.files store.old) table.now }
    ensures rows { ReadsIn table.now (map loaded_back backs.now) p.now (S.files store.old)
        (rows_given result) }
    ensures quiet { StoreQuiet (store_of S.Store store.old) (store_of S.Store store.new) }
    ensures cause { HasItsCause result (store_of S.Store store.old) (store_of S.Store store.new) }
    ensures asked { S.asked store.new ≤
        S.asked store.old + 8 * staying_in (contents_of table.now) p.now }
    ensures calls { S.calls store.new ≤
        S.calls store.old + 2 * staying_in (contents_of table.now) p.now }
    ensures step { steps.new ≤ steps.old + 1 }
    ensures later { steps.old ≤ steps.new }
{
    let number = number_in(table.set(), p)?;
    let mut rows = read_rows(alloc, table, backs, number, store, steps)?;
    rank_rows(p.turn(), &mut rows)?;
    Ok(rows)
}

/// Opens the table of this name as the kind that its first bytes tell, and loads those behind it
/// from the left. No code is checked.
fn open_over<S: Store>(
    alloc: Global,
    table: &str,
    behind: &[String],
    store: &mut S,
) -> Result<(TableFile, Vec<BackTable>), AtlasFault>
    ensures opened { IfOk result (λ tables. OpensTables table.now (map string_bytes behind.now)
        (store_of S.Store store.old) (store_of S.Store store.new) tables.0 tables.1.items) }
    ensures refused { IfErr result (RefusesTables table.now (map string_bytes behind.now)
        (store_of S.Store store.old) (store_of S.Store store.new)) }
    ensures carries { IfOk result (λ tables. Carries (S.files store.new) tables.0) }
    ensures quiet { StoreQuiet (store_of S.Store store.old) (store_of S.Store store.new) }
    ensures cause { HasAtlasCause result (store_of S.Store store.old) (store_of S.Store store.new) }
{
    let own = match open_own(alloc, store, table) {
        Ok(own) => own,
        Err(fault) => return Err(AtlasFault::of_table(fault)),
    };
    match load_behind(alloc, store, behind) {
        Ok(backs) => Ok((own, backs)),
        Err(fault) => Err(fault),
    }
}

/// Does the table lean on others?
fn is_over(table: &TableFile) -> bool
    ensures { result ≡ leans_as table.now.kind }
{
    match table.kind() {
        FileKind::Atlas => true,
        _ => false,
    }
}

/// Writes a line for each legal move of the position, whose rows these are, by an open table and
/// those behind it.
fn write_over<O: Sink, L: Ledger>(
    own: &TableFile,
    backs: &[BackTable],
    p: &Position,
    rows: &[Row],
    out: &mut O,
    steps: &mut Steps<L>,
) -> Result<(), Failed>
    requires valid { IsValid p.now }
    requires legal { All (λ row. is_legal p.now row.arm.mv ≡ true) rows.now }
    requires few { length backs.now ≤ MOST_BACKS }
    ensures wrote { WroteText (each_text (found_behind (leans_as own.now.kind) own.now.rules
        (map loaded_back backs.now)) p.now rows.now) result
        (sink_of O.Sink out.old) (sink_of O.Sink out.new) }
    ensures later { steps.old ≤ steps.new }
    ensures spent { steps.new ≤ steps.old + (1 + length rows.now) }
{
    let behind = Behind {
        leans: is_over(own),
        rules: own.rules(),
        backs,
    };
    write_each(&behind, p, rows, out, steps)
}

/// Tells what is behind each legal move of the position by the table of this name and those behind
/// it, or refuses one of them or the position.
fn each_at<S: Store, O: Sink, L: Ledger>(
    alloc: Global,
    table: &str,
    behind: &[String],
    p: &Position,
    store: &mut S,
    out: &mut O,
    steps: &mut Steps<L>,
) -> End
    requires valid { IsValid p.now }
    requires apart { is_twice (table.now ∷ map string_bytes behind.now) ≡ false }
    requires few { length (map string_bytes behind.now) ≤ MOST_BACKS }
    ensures { (input : SourceTold)
        → Ran (listing_at table.now (map string_bytes behind.now) p.now) result
        (world (store_of S.Store store.old) input (sink_of O.Sink out.old) steps.old)
        (world (store_of S.Store store.new) input (sink_of O.Sink out.new) steps.new) }
{
    match open_over(alloc, table, behind, store) {
        Ok((own, backs)) => match rows_in(alloc, &own, &backs, p, store, steps) {
            Ok(rows) => said(
                Status::Success,
                write_over(&own, &backs, p, &rows, out, steps),
            ),
            Err(stop) => stop.end(out),
        },
        Err(fault) => end_at(fault, out),
    }
}

/// Tells what is behind each legal move of the position of the FEN, or refuses the FEN.
fn each_from<S: Store, O: Sink, L: Ledger>(
    alloc: Global,
    given: &Given<'_>,
    store: &mut S,
    out: &mut O,
    steps: &mut Steps<L>,
) -> End
    requires apart { is_twice (given.now.table.now ∷ map string_bytes given.now.behind.now)
        ≡ false }
    requires few { length (map string_bytes given.now.behind.now) ≤ MOST_BACKS }
    ensures ran { (input : SourceTold) → Ran (on_position
        (listing_at given.now.table.now (map string_bytes given.now.behind.now))
        (fen_of given.now.fen.now)) result
        (world (store_of S.Store store.old) input (sink_of O.Sink out.old) steps.old)
        (world (store_of S.Store store.new) input (sink_of O.Sink out.new) steps.new) }
    ensures store_unused { (on_position
        (listing_at given.now.table.now (map string_bytes given.now.behind.now))
        (fen_of given.now.fen.now)).needs.store ≡ false → store.new ≡ store.old }
{
    match read_fen(given.fen.as_bytes()) {
        Ok(p) => each_at(alloc, given.table, given.behind, &p, store, out, steps),
        Err(fault) => refuse_named(Refused::Fen(fault), out),
    }
}

/// Runs the command `each TABLE FEN BACK ..`; `words` are TABLE, FEN and 0 to 16 BACKs. The FEN is
/// read before the tables, and no code is checked.
pub fn run_each<S: Store, O: Sink, L: Ledger>(
    alloc: Global,
    words: &[String],
    store: &mut S,
    out: &mut O,
    steps: &mut Steps<L>,
) -> End
    ensures ran { (input : SourceTold) → Ran (each_words (map string_bytes words.now)) result
        (world (store_of S.Store store.old) input (sink_of O.Sink out.old) steps.old)
        (world (store_of S.Store store.new) input (sink_of O.Sink out.new) steps.new) }
    ensures store_unused { (each_words (map string_bytes words.now)).needs.store ≡ false
        → store.new ≡ store.old }
{
    match names_given(words) {
        Ok(given) => each_from(alloc, &given, store, out, steps),
        Err(why) => refuse(why, out),
    }
}
