//! The command `verdict TABLE FEN BACK ..`: what is shown of a position in chess by a table over
//! the tables of the names BACK, and which exit lines are believed for it.
ghost use Rattle.std.specs.Prelude.{◌≡◌, ◌≤◌, ◌∷◌, length, map, false};
ghost use Rattle.std.specs.String.{string_bytes};
ghost use Rattle.frz_fide.specs.Valid.{IsValid};
ghost use Rattle.frz_fen.specs.Reading.{fen_of};
ghost use Rattle.frz_store.specs.Told.{SourceTold, store_of, sink_of};
ghost use Rattle.frz_answer.specs.World.{world};
ghost use Rattle.frz_answer.specs.Ends.{Ran, Said};
ghost use Rattle.frz_prelude.specs.Positions.{on_position};
ghost use Rattle.frz_atlas_prelude.specs.Names.{has_twice as is_twice};
ghost use Rattle.frz_atlas_prelude.specs.declared.names.TheConstants.{MOST_BACKS};
ghost use Rattle.frz_atlas_prelude.specs.BackLines.{back_status};
ghost use Rattle.frz_commands_verdict.specs.Answers.{fault_line, own_line};
ghost use Rattle.frz_commands_verdict.specs.Ending.{EndsVerdict, IsPlaceUpTo};
ghost use Rattle.frz_commands_verdict.specs.Verdicting.{verdict_named, verdict_on, verdict_words};

use crate::finding::find;
use crate::texts::write_told;
use frz_answer::{End, Status, refuse, said};
use frz_atlas::{AtlasFault, BackFault};
use frz_atlas_prelude::{Given, end_at, names_given};
use frz_board::Position;
use frz_fen::read_fen;
use frz_prelude::{Refused, Stop, refuse_named, write_wrong};
use frz_steps::Steps;
use frz_store::{Sink, Store};
use std::alloc::Global;
use std::sync::ledger::Ledger;

/// Ends the command where TABLE is refused.
fn end_own<O: Sink>(fault: BackFault, out: &mut O) -> End
    ensures { Said (back_status fault) (own_line fault) result
        (sink_of O.Sink out.old) (sink_of O.Sink out.new) }
{
    match fault {
        BackFault::Refused(fault) => Stop::Refused(Refused::Table(fault)).end(out),
        BackFault::Wrong(wrong) => said(Status::Wrong, write_wrong(wrong, out)),
    }
}

/// Ends the command where the table at this place is refused; `own` is the place of TABLE, behind the
/// BACKs.
fn end_table<O: Sink>(own: usize, place: usize, fault: BackFault, out: &mut O) -> End
    requires few { own ≤ MOST_BACKS }
    requires place { place ≤ own }
    ensures { Said (back_status fault) (fault_line own place fault) result
        (sink_of O.Sink out.old) (sink_of O.Sink out.new) }
{
    if place == own {
        end_own(fault, out)
    } else {
        end_at(AtlasFault::Back(place, fault), out)
    }
}

/// Ends the command at this fault.
fn end_verdict<O: Sink>(own: usize, fault: AtlasFault, out: &mut O) -> End
    requires few { own ≤ MOST_BACKS }
    requires place { IsPlaceUpTo own fault }
    ensures { EndsVerdict own fault result (sink_of O.Sink out.old) (sink_of O.Sink out.new) }
{
    match fault {
        AtlasFault::Back(place, fault) => end_table(own, place, fault, out),
        _ => end_at(fault, out),
    }
}

/// Checks the tables of these names, no two of which are the same, and tells of the position.
fn verdict_at<S: Store, O: Sink, L: Ledger>(
    alloc: Global,
    given: &Given<'_>,
    p: &Position,
    store: &mut S,
    out: &mut O,
    steps: &mut Steps<L>,
) -> End
    requires valid { IsValid p.now }
    requires apart { is_twice (given.now.table.now ∷ map string_bytes given.now.behind.now)
        ≡ false }
    requires few { length (map string_bytes given.now.behind.now) ≤ MOST_BACKS }
    ensures { (input : SourceTold)
        → Ran (verdict_on given.now.table.now (map string_bytes given.now.behind.now) p.now) result
        (world (store_of S.Store store.old) input (sink_of O.Sink out.old) steps.old)
        (world (store_of S.Store store.new) input (sink_of O.Sink out.new) steps.new) }
{
    let own = given.behind.len();
    match find(alloc, given.table, given.behind, p, store, steps) {
        Ok(Some(told)) => said(
            Status::Success,
            write_told(p, told.verdict, own, &told.lines, out),
        ),
        Ok(None) => Stop::Refused(Refused::Outside).end(out),
        Err(fault) => end_verdict(own, fault, out),
    }
}

/// Tells of the position of the FEN, or refuses the FEN.
fn verdict_from<S: Store, O: Sink, L: Ledger>(
    alloc: Global,
    given: &Given<'_>,
    store: &mut S,
    out: &mut O,
    steps: &mut Steps<L>,
) -> End
    requires apart { is_twice (given.now.table.now ∷ map string_bytes given.now.behind.now)
        ≡ false }
    requires few { length (map string_bytes given.now.behind.now) ≤ MOST_BACKS }
    ensures ran { (input : SourceTold) → Ran (verdict_named (record {
      table = given.now.table.now;
      fen = given.now.fen.now;
      behind = map string_bytes given.now.behind.now;
    })) result
        (world (store_of S.Store store.old) input (sink_of O.Sink out.old) steps.old)
        (world (store_of S.Store store.new) input (sink_of O.Sink out.new) steps.new) }
    ensures store_unused { (verdict_named (record {
      table = given.now.table.now;
      fen = given.now.fen.now;
      behind = map string_bytes given.now.behind.now;
    })).needs.store ≡ false → store.new ≡ store.old }
{
    match read_fen(given.fen.as_bytes()) {
        Ok(p) => verdict_at(alloc, given, &p, store, out, steps),
        Err(fault) => refuse_named(Refused::Fen(fault), out),
    }
}

/// Runs the command `verdict TABLE FEN [BACK]..`; `words` are TABLE, FEN and 0 to 16 BACKs. Refuses
/// a name that stands twice, and then a bad FEN, before it reads a file.
pub fn run_verdict<S: Store, O: Sink, L: Ledger>(
    alloc: Global,
    words: &[String],
    store: &mut S,
    out: &mut O,
    steps: &mut Steps<L>,
) -> End
    ensures ran { (input : SourceTold) → Ran (verdict_words (map string_bytes words.now)) result
        (world (store_of S.Store store.old) input (sink_of O.Sink out.old) steps.old)
        (world (store_of S.Store store.new) input (sink_of O.Sink out.new) steps.new) }
    ensures store_unused { (verdict_words (map string_bytes words.now)).needs.store ≡ false
        → store.new ≡ store.old }
{
    match names_given(words) {
        Ok(given) => verdict_from(alloc, &given, store, out, steps),
        Err(why) => refuse(why, out),
    }
}
