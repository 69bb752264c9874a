//! The program over objects in memory that fail or are counted. Whole calls over files that do
//! neither stand in tests/rows.
mod asking;
mod building;
mod chaining;
mod faults;
mod fickle;
mod lines;
mod migrating;
mod playing;
mod reporting;
mod sinks;
mod steps;

use frz_freezer_top::run_once;
use frz_store::{Fail, FailOn, MemSink, MemSource, MemStore, Store};
use std::alloc::Global;
use std::fmt::Debug;
use std::process::Abort;
use std::test::Fail as TestFail;
use test_tables::{call_fails, empty_sink, no_fails, plain_file, rook, store_with, words_of};

const RULES: &[u8] =
    b"freezer 1\ngroup white 1 K:b6\ngroup white 1 R:h1,h8\ngroup black 1 K:a8,b8\n";

/// A mate in one move: the rook goes to h8.
const MATE_IN_ONE: &str = "k7/8/1K6/8/8/8/8/7R w - - 0 1";

/// Black to move in the corner.
const CORNER: &str = "k7/8/1K6/8/8/8/8/7R b - - 0 1";

/// The nth call of this kind fails, and keeps so many bytes of its piece.
fn fails(alloc: Global, on: FailOn, nth: u64, keep: u64) -> Result<Vec<Fail>, TestFail> {
    Ok(vec![in alloc; Fail { on, nth, keep }]?)
}

/// The table of the rook, made by hand.
fn rook_file(alloc: Global) -> Result<Vec<u8>, TestFail> {
    plain_file(alloc, RULES, &rook::CODES)
}

/// A store whose calls fail so and that holds the table of the rook.
fn rook_store(alloc: Global, fails: Vec<Fail>) -> Result<MemStore, TestFail> {
    store_with(alloc, fails, &[("A.t", &rook_file(alloc)?)])
}

/// Calls the program over a store, an input and a sink.
fn call_with_input(
    alloc: Global,
    line: &[&str],
    store: &mut impl Store,
    input: &mut MemSource,
    out: &mut MemSink,
) -> Result<u8, TestFail> {
    let words = words_of(alloc, line)?;
    Ok(run_once(alloc, &words, store, input, out))
}

/// Calls the program over a store, a sink and an empty input.
fn call(
    alloc: Global,
    line: &[&str],
    store: &mut impl Store,
    out: &mut MemSink,
) -> Result<u8, TestFail> {
    let mut input = MemSource::new(Vec::new(alloc), no_fails(alloc));
    call_with_input(alloc, line, store, &mut input, out)
}

/// The value of the case is the one that is wanted.
fn expect_equal<T: PartialEq + Debug>(rt: &impl Abort, given: &T, wanted: &T, case: &str) {
    assert_eq!(rt; given, wanted, "{case}");
}

/// A call ended with this status and this text.
fn expect_ended(rt: &impl Abort, ended: (u8, &[u8]), status: u8, text: &str) {
    expect_equal(rt, &ended, &(status, text.as_bytes()), "end");
}

/// Calls the program over the store and the sink, which is to end so with this text in the sink.
fn expect_taken(
    rt: &impl Abort,
    alloc: Global,
    line: &[&str],
    store: &mut impl Store,
    out: &mut MemSink,
    status: u8,
    text: &str,
) -> Result<(), TestFail> {
    let answer = call(alloc, line, store, out)?;
    expect_ended(rt, (answer, out.taken()), status, text);
    Ok(())
}

/// Calls the program over the store, which is to end so with this text.
fn expect_call(
    rt: &impl Abort,
    alloc: Global,
    store: &mut MemStore,
    line: &[&str],
    status: u8,
    text: &str,
) -> Result<(), TestFail> {
    let mut out = empty_sink(alloc, 200)?;
    expect_taken(rt, alloc, line, store, &mut out, status, text)
}

/// The store holds a file of this length under the name, or none.
fn expect_length(rt: &impl Abort, store: &MemStore, name: &str, length: Option<usize>) {
    let given = store.file(name).map(|file| file.len());
    expect_equal(rt, &given, &length, name);
}

/// The store holds these bytes under the name, or none.
fn expect_file(rt: &impl Abort, store: &MemStore, name: &str, bytes: Option<&[u8]>) {
    expect_equal(rt, &store.file(name), &bytes, name);
}

/// Calls the program over the store, which is to end so, and then holds a file of this length
/// under the name `T`, or none.
fn expect_left(
    rt: &impl Abort,
    alloc: Global,
    store: &mut MemStore,
    line: &[&str],
    status: u8,
    text: &str,
    left: Option<usize>,
) -> Result<(), TestFail> {
    expect_call(rt, alloc, store, line, status, text)?;
    expect_length(rt, store, "T", left);
    Ok(())
}

/// Calls the program over the store and a sink that has room for this front of the text alone.
fn expect_front(
    rt: &impl Abort,
    alloc: Global,
    store: &mut MemStore,
    line: &[&str],
    front: &str,
) -> Result<(), TestFail> {
    let mut out = empty_sink(alloc, front.len())?;
    expect_taken(rt, alloc, line, store, &mut out, 9, front)
}

/// Calls that name a fault of the store at once.
const UNANSWERED: &[&[&str]] = &[&["solve", "A", MATE_IN_ONE], &["query", "A.t", MATE_IN_ONE]];

#[test]
fn a_fault_of_the_store_is_named(rt: HostRuntime) -> Result<(), TestFail> {
    let alloc = rt.alloc();
    for line in UNANSWERED {
        let mut store = MemStore::new(alloc, call_fails(alloc, 1)?);
        expect_call(&rt, alloc, &mut store, line, 8, "store fault\n")?;
    }
    Ok(())
}
