//! A report of a table that the program builds, where a read or the sink fails.
use super::{call, expect_ended, fails};
use frz_store::{Fail, FailOn, MemSink};
use std::alloc::Global;
use std::process::Abort;
use std::test::Fail as TestFail;
use test_tables::{empty_sink, no_fails, store_with};

/// Two kings, far apart: whoever is to move has lost, by the exits that are assigned.
const LOST: &[u8] = b"freezer 1
group white 1 K:a1
group black 1 K:h8
exit black wins if turn:black
exit white wins if turn:white
";

/// Builds the table of the text and reports on it.
fn report(alloc: Global, fails: Vec<Fail>, out: &mut MemSink) -> Result<u8, TestFail> {
    let mut store = store_with(alloc, fails, &[("A", LOST)])?;
    let mut built = empty_sink(alloc, 200)?;
    let _ = call(alloc, &["build", "A", "T"], &mut store, &mut built)?;
    call(alloc, &["report", "T"], &mut store, out)
}

/// A report over a sink of so much room, which is to end so with this text.
fn expect_report(
    rt: &impl Abort,
    alloc: Global,
    fails: Vec<Fail>,
    room: usize,
    status: u8,
    text: &str,
) -> Result<(), TestFail> {
    let mut out = empty_sink(alloc, room)?;
    let answer = report(alloc, fails, &mut out)?;
    expect_ended(rt, (answer, out.taken()), status, text);
    Ok(())
}

const LOST_REPORT: &str = "squeeze 0 1 7k/8/8/8/8/8/8/K7 w - - 0 1\nsqueezes 1 unassigned 0\n";

/// `build` of the rules makes one read, and `report` four that open the table and two that load it.
#[test]
fn names_the_fault_of_each_read(rt: HostRuntime) -> Result<(), TestFail> {
    let alloc = rt.alloc();
    for nth in 2..8 {
        let fails = fails(alloc, FailOn::Read, nth, 0)?;
        expect_report(&rt, alloc, fails, 200, 8, "store fault\n")?;
    }
    Ok(())
}

#[test]
fn stops_where_the_sink_is_full(rt: HostRuntime) -> Result<(), TestFail> {
    let alloc = rt.alloc();
    for room in 0..LOST_REPORT.len() {
        let front = LOST_REPORT.get(..room).ok_or("front")?;
        expect_report(&rt, alloc, no_fails(alloc), room, 9, front)?;
    }
    Ok(())
}
