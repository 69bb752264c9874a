//! A table of the former format, made by hand from its definition, where calls of `migrate` fail.
use super::{expect_call, expect_equal, expect_file, expect_front, expect_length, fails};
use frz_store::{Fail, FailOn, MemStore};
use std::alloc::Global;
use std::process::Abort;
use std::test::Fail as TestFail;
use test_tables::{no_fails, plain_file, store_with, table_file};

/// Up to two rooks on h1 and h8. A former number has a digit for each: 0 and 1 are its square, and
/// 2 means that it is absent. So there are 2 * 3 * 3 * 2 former numbers, and today 2 * 4 * 2.
const ROOKS: &[u8] =
    b"freezer 1\ngroup white 1 K:b6\ngroup white 0-2 R:h1,h8\ngroup black 1 K:a8,b8\n";

/// The codes of both sides, White's first, in order of the numbers of today.
const TODAY: &[u32] = &[
    5, 5, 4, 4, 0, 0, 0, 0, 7, 5, 6, 5, 2, 2, 2, 2, //
    5, 5, 5, 5, 0, 0, 0, 0, 7, 7, 7, 7, 3, 3, 3, 3,
];

/// The same in order of the former numbers. The side to move is White in the first 18 of each side.
/// A pair for the black king stands at each two digits: at 0 1 with both rooks, at 0 2 with that on
/// h1, at 1 2 with that on h8, at 2 2 with none.
const FORMER: &[u32] = &[
    0, 0, 0, 0, 4, 4, 0, 0, 0, 0, 0, 0, 0, 0, 0, 0, 5, 5, //
    0, 0, 2, 2, 6, 5, 0, 0, 0, 0, 2, 2, 0, 0, 0, 0, 7, 5, //
    0, 0, 0, 0, 5, 5, 0, 0, 0, 0, 0, 0, 0, 0, 0, 0, 5, 5, //
    0, 0, 3, 3, 7, 7, 0, 0, 0, 0, 3, 3, 0, 0, 0, 0, 7, 7,
];

/// The former file of up to two rooks, which has 36 numbers.
pub(super) fn former_rooks(alloc: Global) -> Result<Vec<u8>, TestFail> {
    table_file(alloc, b"FREEZER1", ROOKS, 36, FORMER)
}

/// How many bytes the file of up to two rooks has today.
const TODAY_LENGTH: usize = 219;

/// The front of a file that is left, if any is.
fn front(file: &[u8], left: Option<usize>) -> Option<&[u8]> {
    file.get(..left?)
}

/// The store holds so many bytes of today's file under `N.t`, or none.
fn expect_today(
    rt: &impl Abort,
    alloc: Global,
    store: &MemStore,
    left: Option<usize>,
) -> Result<(), TestFail> {
    let today = plain_file(alloc, ROOKS, TODAY)?;
    expect_equal(rt, &today.len(), &TODAY_LENGTH, "length");
    expect_file(rt, store, "N.t", front(&today, left));
    Ok(())
}

const LINE: &[&str] = &["migrate", "O.t", "N.t"];

/// Which call fails, how often it was called, what it keeps of its piece, and the length of the
/// file that is left.
struct Cut(FailOn, u64, u64, Option<usize>);

const CUT: &[Cut] = &[
    Cut(FailOn::Size, 1, 0, None),
    Cut(FailOn::Read, 1, 0, None),
    Cut(FailOn::Read, 2, 0, None),
    Cut(FailOn::Read, 3, 0, None),
    Cut(FailOn::Read, 4, 0, None),
    Cut(FailOn::Read, 5, 0, None),
    Cut(FailOn::Create, 1, 0, None),
    Cut(FailOn::Append, 1, 11, Some(11)),
    Cut(FailOn::Append, 2, 4, Some(16)),
    Cut(FailOn::Append, 3, 2, Some(89)),
    Cut(FailOn::Append, 4, 63, Some(154)),
    Cut(FailOn::Append, 5, 64, Some(TODAY_LENGTH)),
];

/// A store whose calls fail so and that holds the former file of up to two rooks.
fn former_store(alloc: Global, fails: Vec<Fail>) -> Result<MemStore, TestFail> {
    let former = former_rooks(alloc)?;
    store_with(alloc, fails, &[("O.t", &former)])
}

fn expect_cut(rt: &impl Abort, alloc: Global, cut: &Cut) -> Result<(), TestFail> {
    let Cut(on, nth, keep, left) = cut;
    let mut store = former_store(alloc, fails(alloc, *on, *nth, *keep)?)?;
    expect_call(rt, alloc, &mut store, LINE, 8, "store fault\n")?;
    expect_today(rt, alloc, &store, *left)
}

#[test]
fn leaves_a_part_where_the_store_fails(rt: HostRuntime) -> Result<(), TestFail> {
    for cut in CUT {
        expect_cut(&rt, rt.alloc(), cut)?;
    }
    Ok(())
}

#[test]
fn rewrites_the_file_where_only_the_line_is_not_taken(rt: HostRuntime) -> Result<(), TestFail> {
    let alloc = rt.alloc();
    let mut store = former_store(alloc, no_fails(alloc))?;
    expect_front(&rt, alloc, &mut store, LINE, "mig")?;
    expect_length(&rt, &store, "N.t", Some(TODAY_LENGTH));
    Ok(())
}
