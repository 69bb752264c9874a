//! How many bytes calls ask for.
use super::{CORNER, MATE_IN_ONE, RULES, expect_call, expect_equal, rook_file};
use frz_store::MemStore;
use std::alloc::Global;
use std::process::Abort;
use std::test::Fail as TestFail;
use test_tables::{blocked, no_fails, store_with};

/// White to move. Both sides hold, by a search of the kings' moves that was made apart from these
/// crates.
const AMONG_PAWNS: &str = "8/8/6k1/p1p1p3/PpP1P1K1/1P6/8/8 w - - 0 1";

/// The words of a call, its status and its text, and how many bytes it asks for.
struct Asking<'a>(&'a [&'a str], u8, &'a str, u64);

/// Calls over one store, one behind the other.
const ROWS: &[Asking] = &[
    // A file that is too long is not read.
    Asking(&["solve", "long", MATE_IN_ONE], 3, "rules 0: too long\n", 0),
    // 16 bytes and the text, the code of the start, and those of the two moves within the set.
    Asking(
        &["line", "A.t", CORNER, "white"],
        0,
        "white wins within 2\na8b8\nh1h8\nmate\n",
        16 + 73 + 4 + 8,
    ),
    // A query reads two codes in place.
    Asking(
        &["query", "A.t", CORNER],
        0,
        "white wins within 2\nblack none\n",
        24 + 73,
    ),
    // A build asks for its text, and a check for the whole file.
    Asking(&["build", "A", "T"], 0, "built 8\n", 73),
    Asking(&["check", "T"], 0, "exact 8\n", 153),
    Asking(&["build", "B", "U"], 0, "built 6400\n", 278),
    Asking(&["check", "U"], 0, "exact 6400\n", 51_494),
    Asking(
        &["query", "U", AMONG_PAWNS],
        0,
        "white holds\nblack holds\n",
        302,
    ),
];

/// A store with two rules texts, one of more bytes than are read, and a table.
fn filled(alloc: Global) -> Result<MemStore, TestFail> {
    let long = vec![in alloc; 32; 65_537]?;
    let rook = rook_file(alloc)?;
    let files = [
        ("A", RULES),
        ("B", blocked::TEXT.as_bytes()),
        ("long", long.as_slice()),
        ("A.t", rook.as_slice()),
    ];
    store_with(alloc, no_fails(alloc), &files)
}

/// Calls the program over the store, which is to end so and to ask for so many bytes.
fn expect_asking(
    rt: &impl Abort,
    alloc: Global,
    store: &mut MemStore,
    row: &Asking<'_>,
) -> Result<(), TestFail> {
    let Asking(line, status, text, asked) = row;
    let before = store.asked();
    expect_call(rt, alloc, store, line, *status, text)?;
    let due = before.saturating_add(*asked);
    expect_equal(rt, &store.asked(), &due, "asked");
    Ok(())
}

#[test]
fn calls_ask_for_few_bytes(rt: HostRuntime) -> Result<(), TestFail> {
    let alloc = rt.alloc();
    let mut store = filled(alloc)?;
    for row in ROWS {
        expect_asking(&rt, alloc, &mut store, row)?;
    }
    Ok(())
}
