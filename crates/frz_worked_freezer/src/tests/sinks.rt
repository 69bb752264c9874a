//! Calls over sinks that fail or are full.
use super::{CORNER, expect_front, expect_taken, fails, rook_store};
use frz_store::{FailOn, MemSink};
use std::alloc::Global;
use std::test::Fail as TestFail;
use test_tables::no_fails;

const MOVES: &[&str] = &["moves", "8/8/8/3pP3/8/8/8/K1k5 w - d6 0 1"];

/// A call, and the front of its text that a sink takes before it fails.
struct Front<'a>(&'a [&'a str], &'a str);

const FRONTS: &[Front] = &[
    Front(MOVES, ""),
    Front(&["line", "A.t", CORNER, "white"], ""),
    Front(&["check", "A.t"], "exa"),
];

/// A sink whose first call fails and takes so many bytes.
fn failing_sink(alloc: Global, keep: usize) -> Result<MemSink, TestFail> {
    let fails = fails(alloc, FailOn::Call, 1, keep as u64)?;
    Ok(MemSink::new(alloc, 200, fails).or(Err("sink"))?)
}

#[test]
fn a_call_stops_where_the_sink_fails(rt: HostRuntime) -> Result<(), TestFail> {
    let alloc = rt.alloc();
    for Front(line, front) in FRONTS {
        let mut store = rook_store(alloc, no_fails(alloc))?;
        let mut out = failing_sink(alloc, front.len())?;
        expect_taken(&rt, alloc, line, &mut store, &mut out, 9, front)?;
    }
    Ok(())
}

#[test]
fn a_full_sink_cuts_the_line(rt: HostRuntime) -> Result<(), TestFail> {
    let alloc = rt.alloc();
    let mut store = rook_store(alloc, no_fails(alloc))?;
    expect_front(&rt, alloc, &mut store, MOVES, "a1a2 e5")
}
