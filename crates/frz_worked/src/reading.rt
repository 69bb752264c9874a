//! What the reader answers, with values worked out by hand from the format of rules texts.
ghost use Rattle.std.specs.Prelude.{IfOk};
ghost use Rattle.frz_sets.specs.Sound.{IsSound};

use crate::expect::expect_equal;
use frz_rules::{RulesCause, RulesError, RulesFault, read_rules};
use frz_sets::{Rules, set_size};
use std::alloc::Global;
use std::process::Abort;

mod causes;
mod contents;
mod limits;
mod places;
mod sizes;
mod texts;

/// Four lines: White's king on b6 and a rook on h1 or h8, Black's king on a8 or b8.
const A: &[u8] = b"freezer 1\ngroup white 1 K:b6\ngroup white 1 R:h1,h8\ngroup black 1 K:a8,b8\n";

/// The two kings anywhere.
const KINGS: &[u8] = b"freezer 1\ngroup white 1 K:all\ngroup black 1 K:all\n";

fn push_all(rt: &impl Abort, text: &mut Vec<u8>, part: &[u8]) {
    for b in part {
        text.push(*b).expect(rt, "room for the text");
    }
}

fn joined(rt: &impl Abort, alloc: Global, parts: &[&[u8]]) -> Vec<u8> {
    let mut text = Vec::new(alloc);
    for part in parts {
        push_all(rt, &mut text, part);
    }
    text
}

fn repeated(rt: &impl Abort, alloc: Global, part: &[u8], count: usize) -> Vec<u8> {
    let mut text = Vec::new(alloc);
    for _ in 0..count {
        push_all(rt, &mut text, part);
    }
    text
}

fn read(rt: &impl Abort, alloc: Global, parts: &[&[u8]]) -> Result<Rules, RulesFault>
    ensures { IfOk result IsSound }
{
    match read_rules(alloc, &joined(rt, alloc, parts)) {
        Ok(rules) => Ok(rules),
        Err(RulesError::Bad(fault)) => Err(fault),
        Err(RulesError::NoMemory) => panic!(rt; "out of memory"),
    }
}

fn refused(rt: &impl Abort, alloc: Global, parts: &[&[u8]], line: u32, cause: RulesCause) {
    match read(rt, alloc, parts) {
        Err(fault) => expect_equal(rt, &fault, &RulesFault { line, cause }, "fault"),
        Ok(_) => panic!(rt; "accepted, where {line} {cause:?} is due"),
    }
}

/// The line is refused behind the four of A, with another bad line behind it, and as the last line
/// with no line feed.
fn line_refused(rt: &impl Abort, alloc: Global, line: &[u8], cause: RulesCause) {
    refused(rt, alloc, &[A, line, b"\n", b"gruop\n"], 5, cause);
    refused(rt, alloc, &[A, b"\r\n#\n", line], 7, cause);
}

/// Parts of a text, and the size of its set.
struct SetSize<'a>(&'a [&'a [u8]], u64);

fn all_sized(rt: &impl Abort, alloc: Global, rows: &[SetSize]) {
    for SetSize(parts, size) in rows {
        sized(rt, alloc, parts, *size);
    }
}

fn sized(rt: &impl Abort, alloc: Global, parts: &[&[u8]], size: u64) {
    match read(rt, alloc, parts) {
        Ok(rules) => expect_equal(rt, &set_size(&rules), &size, "size"),
        Err(fault) => panic!(rt; "refused with {fault:?}, where {size} is due"),
    }
}
