//! A line over a table made by hand, where a call of the store fails.
use super::{CORNER, expect_call, rook_store};
use std::test::Fail as TestFail;
use test_tables::call_fails;

/// The number of a call that fails, and the status and the text of the line to the mate then.
const FAULTS: &[(u64, u8, &str)] = &[
    (1, 8, "store fault\n"),
    (4, 8, "store fault\n"),
    (6, 8, "store fault\n"),
    (7, 8, "store fault\n"),
    (8, 8, "white wins within 2\na8b8\nstore fault\n"),
    (9, 0, "white wins within 2\na8b8\nh1h8\nmate\n"),
];

#[test]
fn a_fault_is_named_behind_the_lines_before_it(rt: HostRuntime) -> Result<(), TestFail> {
    let alloc = rt.alloc();
    for (nth, status, text) in FAULTS {
        let mut store = rook_store(alloc, call_fails(alloc, *nth)?)?;
        let line = ["line", "A.t", CORNER, "white"];
        expect_call(&rt, alloc, &mut store, &line, *status, text)?;
    }
    Ok(())
}
