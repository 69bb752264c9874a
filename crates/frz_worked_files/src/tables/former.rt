//! Files of the former format that are made by hand, opened and read.
use super::refusal;
use crate::expect::expect_equal;
use frz_former::{OldFile, open_old};
use frz_rules::{RulesCause, RulesFault};
use frz_store::MemStore;
use frz_table::{FileKind, TableFault};
use std::alloc::Global;
use std::process::Abort;
use std::test::Fail;
use test_tables::{no_fails, store_with, table_file};

/// None, one or both rooks: 75 bytes, and 36 numbers in the former format.
const ROOKS: &str = "freezer 1
group white 1 K:b6
group white 0-2 R:h1,h8
group black 1 K:a8,b8
";

/// The codes of its file, White's first.
const CODES: [u32; 72] = [
    0, 1, 2, 3, 4, 5, 6, 7, 8, 9, 10, 11, 12, 13, 14, 15, 16, 17, 18, 19, 20, 21, 22, 23, 24, 25,
    26, 27, 28, 29, 30, 31, 32, 33, 34, 35, 36, 37, 38, 39, 40, 41, 42, 43, 44, 45, 46, 47, 48, 49,
    50, 51, 52, 53, 54, 55, 56, 57, 58, 59, 60, 61, 62, 63, 64, 65, 66, 67, 68, 69, 70, 71,
];

/// A file of the former format with this magic, and with so many numbers kept.
fn old_file(alloc: Global, magic: &[u8], kept: u32) -> Result<Vec<u8>, Fail> {
    table_file(alloc, magic, ROOKS.as_bytes(), kept, &CODES)
}

/// Why a file is refused as one of the former format.
fn old_refusal(alloc: Global, file: &[u8]) -> Result<Option<TableFault>, Fail> {
    let mut store = store_with(alloc, no_fails(alloc), &[("A.t", file)])?;
    Ok(open_old(alloc, &mut store, "A.t").err())
}

/// A store with the file of the former format alone.
fn old_store(alloc: Global) -> Result<MemStore, Fail> {
    let file = old_file(alloc, b"FREEZER1", 36)?;
    store_with(alloc, no_fails(alloc), &[("A.t", &file)])
}

fn check_old(rt: &impl Abort, old: &OldFile) {
    expect_equal(rt, &old.name(), &"A.t", "name");
    expect_equal(rt, &old.text(), &ROOKS.as_bytes(), "text");
}

/// Opens the file, checks it, and gives White's codes and Black's.
fn read_old(
    rt: &impl Abort,
    alloc: Global,
    store: &mut MemStore,
) -> Result<(Vec<u32>, Vec<u32>), TableFault> {
    let old = open_old(alloc, store, "A.t")?;
    check_old(rt, &old);
    old.load(alloc, store)
}

fn check_read(rt: &impl Abort, alloc: Global, store: &mut MemStore) -> Result<(), TableFault> {
    let (white, black) = read_old(rt, alloc, store)?;
    expect_equal(rt, &white.as_slice(), &&CODES[..36], "white");
    expect_equal(rt, &black.as_slice(), &&CODES[36..], "black");
    Ok(())
}

#[test]
fn a_file_of_the_former_format_is_read(rt: HostRuntime) -> Result<(), Fail> {
    let mut store = old_store(rt.alloc())?;
    check_read(&rt, rt.alloc(), &mut store)?;
    Ok(())
}

/// A file of the former format with this magic and size, and why it is refused as one.
struct OldAltered<'a>(&'a [u8], u32, TableFault);

const OLD_ALTERED: &[OldAltered] = &[
    OldAltered(b"FREEZER2", 36, TableFault::Magic),
    OldAltered(b"FREEZER1", 16, TableFault::Size(16, 36)),
];

#[test]
fn altered_files_of_the_former_format_are_refused(rt: HostRuntime) -> Result<(), Fail> {
    let alloc = rt.alloc();
    for OldAltered(magic, kept, fault) in OLD_ALTERED {
        let file = old_file(alloc, magic, *kept)?;
        let given = old_refusal(alloc, &file)?;
        expect_equal(&rt, &given, &Some(*fault), "refusal");
    }
    Ok(())
}

/// 2 * 64 * 64 * 64 * 32 former numbers: 2 ^ 24, the most that there may be.
const MOST: &[u8] = b"freezer 1
group white 1 K:all
group black 1 K:all
group white 1 R:all
group white 1 N:a1-h4
";

/// 2 * 32 * 37 * 65 * 109 former numbers: 2 ^ 24 + 64. Each number between is a multiple of no
/// number of turn states, or has a prime factor above 305, the greatest radix.
const NEXT: &[u8] = b"freezer 1
group white 1 K:a1-h4
group black 1 K:a1-h4,a5-e5
group white 0-1 R:all
group white 1 N:all B:a1-h5,a6-e6
";

const NEXT_IS_TOO_BIG: RulesFault = RulesFault {
    line: 0,
    cause: RulesCause::SetTooBig(16_777_280),
};

/// A text, and why a file of it that keeps the size 8 is refused.
const AT_THE_LIMIT: &[(&[u8], TableFault)] = &[
    (MOST, TableFault::Size(8, 16_777_216)),
    (NEXT, TableFault::Rules(NEXT_IS_TOO_BIG)),
];

#[test]
fn former_sizes_at_the_limit(rt: HostRuntime) -> Result<(), Fail> {
    let alloc = rt.alloc();
    for (text, fault) in AT_THE_LIMIT {
        let file = table_file(alloc, b"FREEZER1", text, 8, &[])?;
        let given = old_refusal(alloc, &file)?;
        expect_equal(&rt, &given, &Some(*fault), "refusal");
    }
    Ok(())
}

#[test]
fn the_former_format_is_no_plain_table(rt: HostRuntime) -> Result<(), Fail> {
    let alloc = rt.alloc();
    let file = old_file(alloc, b"FREEZER1", 36)?;
    let given = refusal(alloc, &file, FileKind::Plain)?;
    expect_equal(&rt, &given, &Some(TableFault::Magic), "refusal");
    Ok(())
}

#[test]
fn files_of_the_former_format_that_go_on_are_refused(rt: HostRuntime) -> Result<(), Fail> {
    let alloc = rt.alloc();
    let mut file = old_file(alloc, b"FREEZER1", 36)?;
    expect_equal(&rt, &file.len(), &379, "length");
    file.push(0)?;
    let given = old_refusal(alloc, &file)?;
    expect_equal(&rt, &given, &Some(TableFault::Extra(380, 379)), "refusal");
    Ok(())
}
