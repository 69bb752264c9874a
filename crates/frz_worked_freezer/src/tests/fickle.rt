//! The program over a store that tells nothing of what it holds and contradicts itself.
ghost use Rattle.std.specs.Prelude.{None};

use super::{MATE_IN_ONE, RULES, call, expect_equal, expect_taken, rook_file};
use frz_store::{Failed, Store, StoreFault};
use std::alloc::Global;
use std::process::Abort;
use std::test::Fail as TestFail;
use test_tables::{empty_sink, table_file};

/// A store in which a name is there at the first call alone, and which keeps no more than these
/// bytes of it, whatever its length: the others are read as 0.
#[derive(Drop)]
struct Fickle<'a> {
    bytes: &'a [u8],
    length: u64,
    calls: u64,
    asked: u64,
}

/// Copies the bytes from the place on, as far as there are any.
fn copy_from(bytes: &[u8], at: u64, into: &mut [u8]) {
    let rest = bytes.get(at as usize..).unwrap_or(&[]);
    for (cell, byte) in into.iter_mut().zip(rest) {
        *cell = *byte;
    }
}

impl Store for Fickle<'_> {
    ghost files = { λ _. None };

    ghost last = { λ _. None };

    ghost faults = { λ _. 0 };

    ghost wants = { λ _. 0 };

    ghost asked = { λ store. store.asked };

    ghost calls = { λ store. store.calls };

    ghost room = { λ _. 0 };

    ghost holds_bytes = { λ _. tt };

    fn size(&mut self, _name: &str) -> Result<Option<u64>, StoreFault> {
        let there = self.calls == 0;
        self.calls = self.calls.saturating_add(1);
        Ok(if there { Some(self.length) } else { None })
    }

    fn read(&mut self, _name: &str, at: u64, into: &mut [u8]) -> Result<(), StoreFault> {
        self.calls = self.calls.saturating_add(1);
        self.asked = self.asked.saturating_add(into.len() as u64);
        copy_from(self.bytes, at, into);
        Ok(())
    }

    fn create(&mut self, _name: &str, _due: u64) -> Result<(), StoreFault> {
        self.calls = self.calls.saturating_add(1);
        Err(StoreFault::NoMemory)
    }

    fn append(&mut self, _piece: &[u8]) -> Result<(), Failed> {
        self.calls = self.calls.saturating_add(1);
        Ok(())
    }
}

/// A command, its status at the first call, the text of two calls, and how many calls of the store
/// they make and how many bytes they ask for.
struct Twice<'a> {
    line: &'a [&'a str],
    status: u8,
    text: &'a str,
    calls: u64,
    asked: u64,
}

/// Calls twice over the store: at the second call the name is not there.
fn call_twice(
    rt: &impl Abort,
    alloc: Global,
    store: &mut Fickle<'_>,
    twice: &Twice<'_>,
) -> Result<u8, TestFail> {
    let mut out = empty_sink(alloc, 200)?;
    let first = call(alloc, twice.line, store, &mut out)?;
    expect_taken(rt, alloc, twice.line, store, &mut out, 12, twice.text)?;
    Ok(first)
}

/// Calls twice over a store with these bytes.
fn expect_twice(
    rt: &impl Abort,
    alloc: Global,
    bytes: &[u8],
    length: u64,
    twice: &Twice<'_>,
) -> Result<(), TestFail> {
    let mut store = Fickle {
        bytes,
        length,
        calls: 0,
        asked: 0,
    };
    let first = call_twice(rt, alloc, &mut store, twice)?;
    let given = (first, store.calls, store.asked);
    expect_equal(
        rt,
        &given,
        &(twice.status, twice.calls, twice.asked),
        "calls",
    );
    Ok(())
}

const SOLVE: Twice = Twice {
    line: &["solve", "A", MATE_IN_ONE],
    status: 3,
    text: "rules 0: king group\nmissing rules\n",
    calls: 3,
    asked: 10,
};

#[test]
fn rules_are_read_once(rt: HostRuntime) -> Result<(), TestFail> {
    expect_twice(&rt, rt.alloc(), b"freezer 1\n", 10, &SOLVE)
}

const QUERY: Twice = Twice {
    line: &["query", "A.t", MATE_IN_ONE],
    status: 0,
    text: "white wins within 1\nblack none\nmissing table\n",
    calls: 8,
    asked: 97,
};

const CHECK: Twice = Twice {
    line: &["check", "A.t"],
    status: 0,
    text: "exact 8\nmissing table\n",
    calls: 8,
    asked: 153,
};

/// No code is kept: that of number 0 is then a hold by its moves.
const CHECK_OF_HEADER: Twice = Twice {
    line: &["check", "A.t"],
    status: 6,
    text: "wrong white 0 kept 0 given 1\nmissing table\n",
    calls: 8,
    asked: 153,
};

/// The size is that of the whole table, but the bytes have no magic.
const QUERY_OF_NOTHING: Twice = Twice {
    line: &["query", "A.t", MATE_IN_ONE],
    status: 5,
    text: "table: magic\nmissing table\n",
    calls: 3,
    asked: 8,
};

#[test]
fn tables_are_read_once(rt: HostRuntime) -> Result<(), TestFail> {
    let alloc = rt.alloc();
    expect_twice(&rt, alloc, b"", 153, &QUERY_OF_NOTHING)?;
    let file = rook_file(alloc)?;
    expect_twice(&rt, alloc, &file, 153, &QUERY)?;
    expect_twice(&rt, alloc, &file, 153, &CHECK)?;
    let header = table_file(alloc, b"FREEZER2", RULES, 8, &[])?;
    expect_twice(&rt, alloc, &header, 153, &CHECK_OF_HEADER)
}
