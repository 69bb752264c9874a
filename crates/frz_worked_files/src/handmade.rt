//! Two files, written out.
use crate::stores::{check_bytes, check_file};
use std::test::Fail;
use test_tables::{no_fails, plain_file, store_with, table_file};

#[test]
fn writes_numbers_with_the_lowest_byte_first(rt: HostRuntime) -> Result<(), Fail> {
    let alloc = rt.alloc();
    let file = table_file(alloc, b"FREEZERC", b"text", 515, &[1, 16_909_060])?;
    let want = b"FREEZERC\x04\0\0\0text\x03\x02\0\0\x01\0\0\0\x04\x03\x02\x01";
    check_bytes(&rt, &file, want, "file");
    Ok(())
}

#[test]
fn keeps_a_plain_file(rt: HostRuntime) -> Result<(), Fail> {
    let alloc = rt.alloc();
    let file = plain_file(alloc, b"", &[5, 6])?;
    let store = store_with(alloc, no_fails(alloc), &[("A", b"text"), ("A.t", &file)])?;
    check_file(&rt, &store, "A", b"text");
    check_file(
        &rt,
        &store,
        "A.t",
        b"FREEZER2\0\0\0\0\x01\0\0\0\x05\0\0\0\x06\0\0\0",
    );
    Ok(())
}
