//! A report of a pawn's table over tables of what it leaves behind, all made by hand, where a call of
//! the store fails.
ghost use Rattle.std.specs.Prelude.{◌≡◌, ◌<◌};

use crate::stores::check_unwritten;
use frz_answer::End;
use frz_commands_atlas::run_report;
use frz_steps::Steps;
use frz_store::{Fail as Failing, MemSink, MemStore};
use std::alloc::Global;
use std::marker::Brand;
use std::process::Abort;
use std::sync::ledger::{Blank, Ledger};
use std::test::Fail;
use test_tables::{call_fails, empty_sink, plain_file, store_with, table_file, words_of};

/// A pawn that may promote on h8, or be captured by the black king. 4 numbers; with the king on g8
/// and White to move there is no position.
const PAWN: &str = "freezer 1
group white 1 K:a1
group white 1 P:h7
group black 1 K:g7,g8
";

/// With the king on g7, White holds if it is to move and wins if Black is.
const PAWN_CODES: &[u32] = &[1, 0, 4, 1, 1, 0, 5, 1];

/// A queen on h8, beside the black king. 2 numbers, the first with no position.
const QUEEN: &str = "freezer 1
group white 1 K:a1
group white 1 Q:h8
group black 1 K:g7
";

const WON: &[u32] = &[0, 4, 0, 5];

/// The bare kings, after the pawn was captured: 2 numbers.
const KINGS: &str = "freezer 1
group white 1 K:a1
group black 1 K:h7
";

const DRAWN: &[u32] = &[1, 1, 1, 1];

/// A store whose calls fail so, with the pawn's table and those behind it.
fn filled(alloc: Global, fails: Vec<Failing>) -> Result<MemStore, Fail> {
    let pawn = table_file(alloc, b"FREEZERB", PAWN.as_bytes(), 4, PAWN_CODES)?;
    let won = plain_file(alloc, QUEEN.as_bytes(), WON)?;
    let kings = table_file(alloc, b"FREEZERB", KINGS.as_bytes(), 2, DRAWN)?;
    let files = [("pawn", pawn.as_slice()), ("won", &won), ("kings", &kings)];
    store_with(alloc, fails, &files)
}

/// How a report of these words ends.
fn reported<L: Ledger>(
    alloc: Global,
    blank: Blank,
    line: &[&str],
    store: &mut MemStore,
    out: &mut MemSink,
) -> Result<End, Fail>
    requires name { blank.name ≡ L.name }
    requires parts { blank.parts ≡ L.parts }
    requires some { 0 < blank.parts }
{
    let words = words_of(alloc, line)?;
    let mut steps = Steps::<L>::new(blank);
    Ok(run_report(alloc, &words, store, out, &mut steps))
}

/// The same with a count of steps that nobody reads.
fn report(
    alloc: Global,
    line: &[&str],
    store: &mut MemStore,
    out: &mut MemSink,
) -> Result<End, Fail> {
    let blank = Blank::new(1);
    reported::<Brand>(alloc, blank, line, store, out)
}

/// A report over a store whose nth call fails stops before anything is written.
fn check_report(rt: &impl Abort, alloc: Global, nth: u64) -> Result<(), Fail> {
    let mut store = filled(alloc, call_fails(alloc, nth)?)?;
    let mut out = empty_sink(alloc, 400)?;
    let end = report(alloc, &["pawn", "won", "kings"], &mut store, &mut out)?;
    check_unwritten(rt, &end, &out);
    Ok(())
}

/// Opening the table takes five calls, opening the two behind it as their own kinds as many each, and
/// loading the codes of the three, two each. Where one fails, nothing is written.
const CALLS: u64 = 21;

#[test]
fn each_call_may_fail_before_anything_is_written(rt: HostRuntime) -> Result<(), Fail> {
    for nth in 1..CALLS + 1 {
        check_report(&rt, rt.alloc(), nth)?;
    }
    Ok(())
}
