//! Files and headers that are written, whole and up to a fault.
use super::{BLACK, ROOK, WHITE, joined, rook_file};
use crate::expect::{expect_equal, expect_holds};
use crate::stores::check_file;
use frz_store::{Fail as Failing, FailOn, MemStore, Store, StoreFault};
use frz_table::{FileKind, write_entries, write_header, write_header_kind};
use std::alloc::Global;
use std::process::Abort;
use std::test::Fail;
use test_tables::{blocked, no_fails};

/// A king and a rook beside it against a king in the corner: 73 bytes, 8 numbers.
const NEAR_ROOK: &str = "freezer 1
group white 1 K:b6
group white 1 R:c1,c2
group black 1 K:a8,b8
";

/// Writes the rook's file: five pieces.
fn write_all(store: &mut MemStore) -> Result<(), StoreFault> {
    store.create("A.t", 153)?;
    if write_header(store, ROOK, 8).is_err()
        || write_entries(store, &WHITE).is_err()
        || write_entries(store, &BLACK).is_err()
    {
        return Err(StoreFault::Failed);
    }
    Ok(())
}

#[test]
fn what_is_written_is_the_file(rt: HostRuntime) -> Result<(), Fail> {
    let alloc = rt.alloc();
    let file = rook_file(alloc)?;
    let mut store = MemStore::new(alloc, no_fails(alloc));
    expect_equal(&rt, &write_all(&mut store), &Ok(()), "written");
    check_file(&rt, &store, "A.t", &file);
    Ok(())
}

/// What is left where this append fails and keeps so many bytes is this front of the file.
fn check_front(
    rt: &impl Abort,
    alloc: Global,
    nth: u64,
    keep: u64,
    front: &[u8],
) -> Result<(), Fail> {
    let on = FailOn::Append;
    let mut store = MemStore::new(alloc, vec![in alloc; Failing { on, nth, keep }]?);
    expect_holds(rt, write_all(&mut store) == Err(StoreFault::Failed), &nth);
    check_file(rt, &store, "A.t", front);
    Ok(())
}

/// An append that fails, how many bytes it keeps, and how many are left of the file.
const FRONTS: &[(u64, u64, usize)] = &[
    (1, 0, 0),
    (1, 11, 11),
    (2, 4, 16),
    (4, 0, 89),
    (5, 31, 152),
    (5, 32, 153),
];

#[test]
fn what_is_written_before_a_fault_is_a_front_of_the_file(rt: HostRuntime) -> Result<(), Fail> {
    let file = rook_file(rt.alloc())?;
    for (nth, keep, left) in FRONTS {
        let front = file.get(..*left).ok_or("front")?;
        check_front(&rt, rt.alloc(), *nth, *keep, front)?;
    }
    Ok(())
}

/// Writes a header into the file `H`.
fn write_head(store: &mut MemStore, kind: FileKind, text: &[u8], size: u32) -> Result<(), Fail> {
    if text.len() > 65_536 {
        return Err(Fail::from("text"));
    }
    store.create("H", 16 + text.len() as u64).or(Err("create"))?;
    write_header_kind(store, kind, text, size).or(Err("write"))?;
    Ok(())
}

/// The header of a table: kind, text and size, and the bytes in front of the text and behind it.
struct Header<'a>(FileKind, &'a str, u32, &'a [u8], &'a [u8]);

const HEADERS: &[Header] = &[
    Header(
        FileKind::Plain,
        NEAR_ROOK,
        8,
        b"FREEZER2\x49\0\0\0",
        b"\x08\0\0\0",
    ),
    Header(
        FileKind::Plain,
        blocked::TEXT,
        6400,
        b"FREEZER2\x16\x01\0\0",
        b"\0\x19\0\0",
    ),
    Header(
        FileKind::Chained,
        blocked::TEXT,
        6400,
        b"FREEZERC\x16\x01\0\0",
        b"\0\x19\0\0",
    ),
];

#[test]
fn headers_have_their_bytes(rt: HostRuntime) -> Result<(), Fail> {
    let alloc = rt.alloc();
    for Header(kind, text, size, front, back) in HEADERS {
        let want = joined(alloc, &[front, text.as_bytes(), back])?;
        let mut store = MemStore::new(alloc, no_fails(alloc));
        write_head(&mut store, *kind, text.as_bytes(), *size)?;
        check_file(&rt, &store, "H", &want);
    }
    Ok(())
}
