//! What is left of a table where its build fails.
use super::{RULES, expect_call, expect_front, expect_left, expect_length, fails};
use frz_store::FailOn;
use std::alloc::Global;
use std::process::Abort;
use std::test::Fail as TestFail;
use test_tables::{no_fails, store_with};

const BUILD: &[&str] = &["build", "A", "T"];

const CHECK: &[&str] = &["check", "T"];

/// Which call fails, how often it was called, what it keeps of its piece, the length of the file
/// that is left, and the status and the text of a check of it.
struct Cut<'a>(FailOn, u64, u64, Option<usize>, u8, &'a str);

const CUT: &[Cut] = &[
    Cut(FailOn::Size, 1, 0, None, 12, "missing table\n"),
    Cut(FailOn::Read, 1, 0, None, 12, "missing table\n"),
    Cut(FailOn::Create, 1, 0, None, 12, "missing table\n"),
    Cut(
        FailOn::Append,
        1,
        0,
        Some(0),
        5,
        "table: truncated 0 due 16\n",
    ),
    Cut(
        FailOn::Append,
        1,
        11,
        Some(11),
        5,
        "table: truncated 11 due 16\n",
    ),
    Cut(
        FailOn::Append,
        2,
        4,
        Some(16),
        5,
        "table: truncated 16 due 89\n",
    ),
    Cut(
        FailOn::Append,
        3,
        2,
        Some(87),
        5,
        "table: truncated 87 due 89\n",
    ),
    Cut(
        FailOn::Append,
        4,
        0,
        Some(89),
        5,
        "table: truncated 89 due 153\n",
    ),
    Cut(
        FailOn::Append,
        5,
        31,
        Some(152),
        5,
        "table: truncated 152 due 153\n",
    ),
    Cut(FailOn::Append, 5, 32, Some(153), 0, "exact 8\n"),
];

/// Builds over a store that fails so, and checks what it left.
fn expect_cut(rt: &impl Abort, alloc: Global, cut: &Cut<'_>) -> Result<(), TestFail> {
    let Cut(on, nth, keep, left, status, text) = cut;
    let fails = fails(alloc, *on, *nth, *keep)?;
    let mut store = store_with(alloc, fails, &[("A", RULES)])?;
    expect_left(rt, alloc, &mut store, BUILD, 8, "store fault\n", *left)?;
    expect_call(rt, alloc, &mut store, CHECK, *status, text)
}

#[test]
fn leaves_a_part_where_the_store_fails(rt: HostRuntime) -> Result<(), TestFail> {
    for cut in CUT {
        expect_cut(&rt, rt.alloc(), cut)?;
    }
    Ok(())
}

#[test]
fn builds_the_file_where_only_the_line_is_not_taken(rt: HostRuntime) -> Result<(), TestFail> {
    let alloc = rt.alloc();
    let mut store = store_with(alloc, no_fails(alloc), &[("A", RULES)])?;
    expect_front(&rt, alloc, &mut store, BUILD, "bui")?;
    expect_length(&rt, &store, "T", Some(153));
    Ok(())
}
