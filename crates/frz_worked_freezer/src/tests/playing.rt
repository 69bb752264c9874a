//! What a session leaves of its input.
use super::{CORNER, call_with_input, expect_ended, expect_equal, rook_store};
use frz_store::{Fail, MemSource};
use std::alloc::Global;
use std::process::Abort;
use std::test::Fail as TestFail;
use test_tables::{call_fails, empty_sink, no_fails};

/// A side and an input; the status, the text, and what is left of the input.
struct Row<'a>(&'a str, &'a [u8], u8, &'a str, &'a [u8]);

const ROWS: &[Row] = &[
    Row(
        "white",
        b"a8b8\nand more\n",
        0,
        "white wins within 2\nreply a8b8\nmove h1h8\nmate\n",
        b"and more\n",
    ),
    Row("black", b"b8a8\n", 7, "no bound\n", b"b8a8\n"),
    Row("red", b"a8b8\n", 2, "words: side\n", b"a8b8\n"),
];

const FAILING: Row = Row(
    "white",
    b"a8b8\n",
    10,
    "white wins within 2\ninput fault\n",
    b"a8b8\n",
);

/// Plays a session of a row from the corner over a source that fails so.
fn expect(rt: &impl Abort, alloc: Global, row: &Row<'_>, fails: Vec<Fail>) -> Result<(), TestFail> {
    let Row(side, bytes, status, text, left) = row;
    let mut store = rook_store(alloc, no_fails(alloc))?;
    let mut input = MemSource::new(bytes.to_vec(alloc)?, fails);
    let mut out = empty_sink(alloc, 300)?;
    let line = ["play", "A.t", CORNER, side];
    let answer = call_with_input(alloc, &line, &mut store, &mut input, &mut out)?;
    expect_ended(rt, (answer, out.taken()), *status, text);
    expect_equal(rt, &input.left(), left, "left");
    Ok(())
}

#[test]
fn a_session_leaves_what_it_does_not_read(rt: HostRuntime) -> Result<(), TestFail> {
    let alloc = rt.alloc();
    for row in ROWS {
        expect(&rt, alloc, row, no_fails(alloc))?;
    }
    expect(&rt, alloc, &FAILING, call_fails(alloc, 1)?)
}
