//! Files that are made by hand, opened and read.
mod former;
mod writing;

use crate::expect::expect_equal;
use crate::stores::table_store;
use byteorder::{ByteOrder, LittleEndian};
use frz_board::Colour;
use frz_rules::{RulesCause, RulesFault};
use frz_store::{Fail as Failing, FailOn, MemStore};
use frz_table::{FileKind, TableFault, TableFile, open_kind, open_table};
use std::alloc::Global;
use std::process::Abort;
use std::test::Fail;
use test_tables::{no_fails, rook, store_with};

/// A king and a rook against a king in the corner: 73 bytes, 8 numbers.
const ROOK: &[u8] = b"freezer 1
group white 1 K:b6
group white 1 R:h1,h8
group black 1 K:a8,b8
";

/// The same with a first line that is none.
const NO_ROOK: &[u8] = b"greezer 1
group white 1 K:b6
group white 1 R:h1,h8
group black 1 K:a8,b8
";

const WHITE: [u32; 8] = [4, 4, 0, 0, 6, 5, 2, 2];

const BLACK: [u32; 8] = [5, 5, 0, 0, 7, 7, 3, 3];

/// The bytes of the codes, White's first.
const CODES: &[u8] = b"\x04\0\0\0\x04\0\0\0\0\0\0\0\0\0\0\0\x06\0\0\0\x05\0\0\0\x02\0\0\0\x02\0\0\0\
    \x05\0\0\0\x05\0\0\0\0\0\0\0\0\0\0\0\x07\0\0\0\x07\0\0\0\x03\0\0\0\x03\0\0\0";

fn joined(alloc: Global, parts: &[&[u8]]) -> Result<Vec<u8>, Fail> {
    let mut bytes = Vec::new(alloc);
    for part in parts {
        bytes.extend_from_slice(part)?;
    }
    Ok(bytes)
}

/// A file with this magic, length of the text, text and size, and with the codes of the rook.
fn file_of(
    alloc: Global,
    magic: &[u8],
    length: u32,
    text: &[u8],
    size: u32,
) -> Result<Vec<u8>, Fail> {
    let mut front = [0; 4];
    let mut back = [0; 4];
    LittleEndian::write_u32(&mut front, length);
    LittleEndian::write_u32(&mut back, size);
    joined(alloc, &[magic, &front, text, &back, CODES])
}

/// The file of the rook.
fn rook_file(alloc: Global) -> Result<Vec<u8>, Fail> {
    file_of(alloc, b"FREEZER2", 73, ROOK, 8)
}

/// Why a file is refused as a table of the kind.
fn refusal(alloc: Global, file: &[u8], kind: FileKind) -> Result<Option<TableFault>, Fail> {
    let mut store = store_with(alloc, no_fails(alloc), &[("A.t", file)])?;
    Ok(open_kind(alloc, &mut store, "A.t", kind).err())
}

/// A file of the rook with this magic, length of the text, text and size; the kind that it is
/// opened as, and why it is refused.
struct Opened<'a>(&'a [u8], u32, &'a [u8], u32, FileKind, Option<TableFault>);

const TOO_LONG: RulesFault = RulesFault {
    line: 0,
    cause: RulesCause::TooLong,
};

const NO_HEADER: RulesFault = RulesFault {
    line: 1,
    cause: RulesCause::Header,
};

const UNKNOWN_LINE: RulesFault = RulesFault {
    line: 5,
    cause: RulesCause::UnknownLine,
};

const OPENED: &[Opened] = &[
    Opened(b"FREEZER2", 73, ROOK, 8, FileKind::Plain, None),
    Opened(b"FREEZERC", 73, ROOK, 8, FileKind::Chained, None),
    Opened(
        b"FREEZER2",
        73,
        ROOK,
        8,
        FileKind::Chained,
        Some(TableFault::Magic),
    ),
    Opened(
        b"GREEZER2",
        73,
        ROOK,
        8,
        FileKind::Plain,
        Some(TableFault::Magic),
    ),
    Opened(
        b"FREEZER1",
        73,
        ROOK,
        8,
        FileKind::Plain,
        Some(TableFault::Magic),
    ),
    Opened(
        b"FREEZERC",
        73,
        ROOK,
        8,
        FileKind::Plain,
        Some(TableFault::Magic),
    ),
    Opened(
        b"FREEZER2",
        65_537,
        ROOK,
        8,
        FileKind::Plain,
        Some(TableFault::Rules(TOO_LONG)),
    ),
    Opened(
        b"FREEZER2",
        72,
        ROOK,
        8,
        FileKind::Plain,
        Some(TableFault::Size(2058, 8)),
    ),
    Opened(
        b"FREEZER2",
        74,
        ROOK,
        8,
        FileKind::Plain,
        Some(TableFault::Rules(UNKNOWN_LINE)),
    ),
    Opened(
        b"FREEZER2",
        73,
        NO_ROOK,
        8,
        FileKind::Plain,
        Some(TableFault::Rules(NO_HEADER)),
    ),
    Opened(
        b"FREEZER2",
        73,
        ROOK,
        9,
        FileKind::Plain,
        Some(TableFault::Size(9, 8)),
    ),
];

#[test]
fn files_are_opened_as_their_own_kind_alone(rt: HostRuntime) -> Result<(), Fail> {
    for Opened(magic, length, text, size, kind, refused) in OPENED {
        let file = file_of(rt.alloc(), magic, *length, text, *size)?;
        let given = refusal(rt.alloc(), &file, *kind)?;
        expect_equal(&rt, &given, refused, "refusal");
    }
    Ok(())
}

#[test]
fn a_name_that_is_not_there_is_missing(rt: HostRuntime) -> Result<(), Fail> {
    let alloc = rt.alloc();
    let mut store = store_with(alloc, no_fails(alloc), &[("A.t", b"")])?;
    let given = open_table(alloc, &mut store, "B.t").err();
    expect_equal(&rt, &given, &Some(TableFault::Missing), "refusal");
    Ok(())
}

/// Why so many bytes of a rook's file, and of what goes on behind it, are refused.
fn refused_of(left: u64) -> Option<TableFault> {
    match left {
        0..=15 => Some(TableFault::Truncated(left, 16)),
        16..=88 => Some(TableFault::Truncated(left, 89)),
        89..=152 => Some(TableFault::Truncated(left, 153)),
        153 => None,
        _ => Some(TableFault::Extra(left, 153)),
    }
}

#[test]
fn files_that_are_cut_or_go_on_are_refused(rt: HostRuntime) -> Result<(), Fail> {
    let mut file = rook_file(rt.alloc())?;
    expect_equal(&rt, &file.len(), &153, "length");
    file.push(0)?;
    for left in 0..=154 {
        let front = file.get(..left).ok_or("front")?;
        let given = refusal(rt.alloc(), front, FileKind::Plain)?;
        let due = refused_of(left as u64);
        expect_equal(&rt, &(left, given), &(left, due), "refusal");
    }
    Ok(())
}

/// A store with the file of the rook alone, in which these calls fail.
fn rook_store(alloc: Global, fails: &[Failing]) -> Result<MemStore, Fail> {
    table_store(alloc, rook::TEXT, &rook::CODES, fails)
}

/// The table is that of the rook's file.
fn check_rook(rt: &impl Abort, table: &TableFile) {
    expect_equal(rt, &table.name(), &"A.t", "name");
    expect_equal(rt, &table.text(), &ROOK, "text");
    let sizes = (table.rules().groups.len(), table.set().size());
    expect_equal(
        rt,
        &(table.kind(), sizes),
        &(FileKind::Plain, (3, 8)),
        "sizes",
    );
}

fn check_opened(rt: &impl Abort, alloc: Global, store: &mut MemStore) -> Result<(), TableFault> {
    let table = open_table(alloc, store, "A.t")?;
    check_rook(rt, &table);
    Ok(())
}

#[test]
fn a_file_made_by_hand_is_opened(rt: HostRuntime) -> Result<(), Fail> {
    let mut store = rook_store(rt.alloc(), &[])?;
    check_opened(&rt, rt.alloc(), &mut store)?;
    expect_equal(&rt, &store.asked(), &(16 + 73), "asked");
    Ok(())
}

/// The code of the side at this number, or at the last one of the table.
fn read_entry(
    alloc: Global,
    store: &mut MemStore,
    side: Colour,
    i: u32,
) -> Result<u32, TableFault> {
    let table = open_table(alloc, store, "A.t")?;
    let last = table.set().size() - 1;
    let code = table.entry(store, side, i.min(last))?;
    Ok(code)
}

/// A side, a number and its code.
const ENTRIES: &[(Colour, u32, u32)] = &[
    (Colour::White, 0, 4),
    (Colour::White, 7, 2),
    (Colour::Black, 0, 5),
    (Colour::Black, 7, 3),
];

#[test]
fn entries_are_read_in_their_places(rt: HostRuntime) -> Result<(), Fail> {
    for (side, i, code) in ENTRIES {
        let mut store = rook_store(rt.alloc(), &[])?;
        let given = read_entry(rt.alloc(), &mut store, *side, *i);
        let asked = store.asked();
        expect_equal(&rt, &(given, asked), &(Ok(*code), 16 + 73 + 4), "entry");
    }
    Ok(())
}

/// White's codes and Black's.
fn load_both(alloc: Global, store: &mut MemStore) -> Result<(Vec<u32>, Vec<u32>), TableFault> {
    let table = open_table(alloc, store, "A.t")?;
    table.load(alloc, store)
}

fn check_loaded(rt: &impl Abort, alloc: Global, store: &mut MemStore) -> Result<(), TableFault> {
    let (white, black) = load_both(alloc, store)?;
    expect_equal(rt, &white.as_slice(), &WHITE.as_slice(), "white");
    expect_equal(rt, &black.as_slice(), &BLACK.as_slice(), "black");
    Ok(())
}

#[test]
fn a_file_made_by_hand_is_loaded(rt: HostRuntime) -> Result<(), Fail> {
    let mut store = rook_store(rt.alloc(), &[])?;
    check_loaded(&rt, rt.alloc(), &mut store)?;
    expect_equal(&rt, &store.asked(), &(16 + 73 + 64), "asked");
    Ok(())
}

/// A store with the file of the rook alone, in which this call fails.
fn failing_store(alloc: Global, nth: u64) -> Result<MemStore, Fail> {
    let call = Failing {
        on: FailOn::Call,
        nth,
        keep: 0,
    };
    rook_store(alloc, &[call])
}

/// Opens the file once, reads an entry and loads both lists: eight calls of the store.
fn read_all(alloc: Global, store: &mut MemStore) -> Result<(), TableFault> {
    let table = open_table(alloc, store, "A.t")?;
    let last = table.set().size() - 1;
    let _ = table.entry(store, Colour::Black, last)?;
    let _ = table.load(alloc, store)?;
    Ok(())
}

#[test]
fn each_failing_call_is_told(rt: HostRuntime) -> Result<(), Fail> {
    for nth in 1..=9 {
        let due = if nth < 9 {
            Err(TableFault::Failed)
        } else {
            Ok(())
        };
        let mut store = failing_store(rt.alloc(), nth)?;
        let read = read_all(rt.alloc(), &mut store);
        expect_equal(&rt, &(nth, read), &(nth, due), "read");
    }
    Ok(())
}
