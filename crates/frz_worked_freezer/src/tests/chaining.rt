//! A table that leans on a second one, where calls of the store fail.
use super::{RULES, expect_left, fails};
use frz_store::{Fail, FailOn, MemStore};
use std::alloc::Global;
use std::process::Abort;
use std::test::Fail as TestFail;
use test_tables::{call_fails, plain_file, store_with, table_file};

/// The black king has gone to c8, and White wins everywhere outside: 93 bytes, 2 numbers.
const NEXT: &[u8] = b"freezer 1
group white 1 K:b6
group white 1 R:h1
group black 1 K:c8
exit white wins if always
";

/// The codes of both sides over the table of NEXT, White's first.
const CHAINED_CODES: [u32; 16] = [4, 4, 0, 0, 6, 6, 2, 2, 5, 5, 0, 0, 7, 7, 3, 3];

/// A store with these failing calls, the rook's text, the table of NEXT, and the rook's over it.
fn filled(alloc: Global, fails: Vec<Fail>) -> Result<MemStore, TestFail> {
    let next = plain_file(alloc, NEXT, &[4, 4, 5, 5])?;
    let both = table_file(alloc, b"FREEZERC", RULES, 8, &CHAINED_CODES)?;
    let files = [
        ("A", RULES),
        ("N.t", next.as_slice()),
        ("AN.t", both.as_slice()),
    ];
    store_with(alloc, fails, &files)
}

const CHAIN: &[&str] = &["chain", "A", "N.t", "T"];

/// Calls the program over a store whose call fails, and shows what is left under the name T.
fn expect_failed(
    rt: &impl Abort,
    alloc: Global,
    fails: Vec<Fail>,
    line: &[&str],
    left: Option<usize>,
) -> Result<(), TestFail> {
    let mut store = filled(alloc, fails)?;
    expect_left(rt, alloc, &mut store, line, 8, "store fault\n", left)
}

#[test]
fn each_call_of_the_store_may_fail(rt: HostRuntime) -> Result<(), TestFail> {
    let alloc = rt.alloc();
    for nth in 1..=12 {
        let fails = call_fails(alloc, nth)?;
        expect_failed(&rt, alloc, fails, &["chaincheck", "AN.t", "N.t"], None)?;
    }
    for nth in 1..=8 {
        expect_failed(&rt, alloc, call_fails(alloc, nth)?, CHAIN, None)?;
    }
    Ok(())
}

/// Which append fails, what it keeps of its piece, and the length of the file that is left.
struct Cut(u64, u64, usize);

const CUT: &[Cut] = &[
    Cut(1, 11, 11),
    Cut(2, 4, 16),
    Cut(3, 2, 87),
    Cut(4, 0, 89),
    Cut(5, 31, 152),
];

#[test]
fn leaves_a_part_where_the_store_fails(rt: HostRuntime) -> Result<(), TestFail> {
    let alloc = rt.alloc();
    for cut in CUT {
        let Cut(nth, keep, left) = cut;
        let fails = fails(alloc, FailOn::Append, *nth, *keep)?;
        expect_failed(&rt, alloc, fails, CHAIN, Some(*left))?;
    }
    Ok(())
}
