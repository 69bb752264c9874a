//! What tests share: a store in memory that holds the table file of a row, made by hand, and looks at
//! what it holds and at how a call stopped.
use crate::expect::expect_equal;
use frz_answer::{End, Fault};
use frz_store::{Fail as Failing, MemSink, MemStore};
use std::alloc::Global;
use std::process::Abort;
use std::test::Fail;
use test_tables::{plain_file, store_with};

/// A store whose calls fail so, with the table of these codes under the name `A.t`.
pub(crate) fn table_store(
    alloc: Global,
    rules: &str,
    codes: &[u32],
    fails: &[Failing],
) -> Result<MemStore, Fail> {
    let file = plain_file(alloc, rules.as_bytes(), codes)?;
    store_with(alloc, fails.to_vec(alloc)?, &[("A.t", &file)])
}

/// The bytes of this case are those that are wanted.
pub(crate) fn check_bytes(rt: &impl Abort, given: &[u8], want: &[u8], case: &str) {
    expect_equal(rt, &given, &want, case);
}

/// The store holds this file.
pub(crate) fn check_file(rt: &impl Abort, store: &MemStore, name: &str, want: &[u8]) {
    expect_equal(rt, &store.file(name), &Some(want), name);
}

/// The call stopped at a fault of the store before it wrote anything.
pub(crate) fn check_unwritten(rt: &impl Abort, end: &End, out: &MemSink) {
    check_bytes(rt, out.taken(), b"", "text");
    expect_equal(rt, end, &End::Stopped(Fault::Store), "end");
}
