//! The program over a store or a sink in memory that fails. Other whole calls stand in tests/rows.
use frz_atlas_top::run_once;
use frz_store::{Fail, MemSink, MemSource, MemStore};
use std::alloc::Global;
use std::fmt::Debug;
use std::process::Abort;
use std::test::Fail as TestFail;
use test_tables::{
    call_fails, empty_sink, no_fails, plain_file, rook, store_with, table_file, words_of,
};

/// The black king has gone to c8, and White wins everywhere outside.
const NEXT: &str = "freezer 1
group white 1 K:b6
group white 1 R:h1
group black 1 K:c8
exit white wins if always
";

/// The codes of both sides over the table of NEXT, White's first.
const CODES: [u32; 16] = [4, 4, 0, 0, 6, 6, 2, 2, 5, 5, 0, 0, 7, 7, 3, 3];

/// A store with these failing calls, the rook's text, the table of NEXT, and the rook's over it.
fn filled(alloc: Global, fails: Vec<Fail>) -> Result<MemStore, TestFail> {
    let next = plain_file(alloc, NEXT.as_bytes(), &[4, 4, 5, 5])?;
    let over = table_file(alloc, b"FREEZERB", rook::TEXT.as_bytes(), 8, &CODES)?;
    let files = [
        ("A", rook::TEXT.as_bytes()),
        ("N.t", next.as_slice()),
        ("over.t", over.as_slice()),
    ];
    store_with(alloc, fails, &files)
}

/// Calls the program over a store, a sink and an empty input.
fn call(
    alloc: Global,
    line: &[&str],
    store: &mut MemStore,
    out: &mut MemSink,
) -> Result<u8, TestFail> {
    let words = words_of(alloc, line)?;
    let mut input = MemSource::new(Vec::new(alloc), no_fails(alloc));
    Ok(run_once(alloc, &words, store, &mut input, out))
}

/// The value of the case is the one that is wanted.
fn expect_equal<T: PartialEq + Debug>(rt: &impl Abort, given: &T, wanted: &T, case: &str) {
    assert_eq!(rt; given, wanted, "{case}");
}

/// Calls the program over a store whose nth call fails: that is named, and no table is written.
fn expect_fault(rt: &impl Abort, alloc: Global, line: &[&str], nth: u64) -> Result<(), TestFail> {
    let mut store = filled(alloc, call_fails(alloc, nth)?)?;
    let mut out = empty_sink(alloc, 200)?;
    let status = call(alloc, line, &mut store, &mut out)?;
    let due = (8, b"store fault\n".as_slice());
    expect_equal(rt, &(status, out.taken()), &due, "end");
    expect_equal(rt, &store.file("T"), &None, "T");
    Ok(())
}

#[test]
fn each_call_of_the_store_may_fail(rt: HostRuntime) -> Result<(), TestFail> {
    let alloc = rt.alloc();
    for nth in 1..=8 {
        expect_fault(&rt, alloc, &["check", "over.t", "N.t"], nth)?;
        expect_fault(&rt, alloc, &["build", "A", "T", "N.t"], nth)?;
    }
    Ok(())
}

#[test]
fn a_full_sink_cuts_the_line(rt: HostRuntime) -> Result<(), TestFail> {
    let alloc = rt.alloc();
    let mut store = filled(alloc, no_fails(alloc))?;
    let mut out = empty_sink(alloc, 3)?;
    let status = call(alloc, &["check", "over.t", "N.t"], &mut store, &mut out)?;
    expect_equal(&rt, &(status, out.taken()), &(9, b"exa".as_slice()), "end");
    Ok(())
}
