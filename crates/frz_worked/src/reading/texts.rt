//! Bytes, lines and lengths of texts.
use super::{A, KINGS, joined, push_all, refused, sized};
use frz_rules::RulesCause;
use std::alloc::Global;
use std::process::Abort;

/// The lines of A in other bytes.
const OTHER_BYTES: &[&[u8]] = &[
    b"freezer 1\r\ngroup white 1 K:b6\r\ngroup white 1 R:h1,h8\r\ngroup black 1 K:a8,b8\r\n",
    b" freezer\t1 \n\tgroup\rwhite  1\t\tK:b6\ngroup white 1 R:h1,h8 \ngroup black 1\tK:a8,b8\t",
    b"#\n\r\n \t \r\nfreezer 1\n\ngroup white 1 K:b6\ngroup white 1 R:h1,h8\n#\n\
        group black 1 K:a8,b8\n\n",
];

const COMMENTS: &[&[u8]] = &[
    b"#",
    b" \t\r#group white 1 Q:a1",
    b"#\x00\x80\xff\x0b",
    b"##",
];

#[test]
fn bytes_that_count_for_nothing(rt: HostRuntime) {
    let alloc = rt.alloc();
    sized(&rt, alloc, &[A], 8);
    sized(&rt, alloc, &[&A[..72]], 8);
    for text in OTHER_BYTES {
        sized(&rt, alloc, &[text], 8);
    }
    for comment in COMMENTS {
        sized(&rt, alloc, &[comment, b"\n", A, comment, b"\n", comment], 8);
    }
}

/// A text: its front, a part that comes so often behind it, and its end.
#[derive(Clone, Copy)]
struct Long<'a>(&'a [&'a [u8]], &'a [u8], usize, &'a [u8]);

fn long_text(rt: &impl Abort, alloc: Global, long: &Long) -> Vec<u8> {
    let Long(front, part, count, end) = long;
    let mut text = joined(rt, alloc, front);
    for _ in 0..*count {
        push_all(rt, &mut text, part);
    }
    push_all(rt, &mut text, end);
    text
}

fn long_sized(rt: &impl Abort, alloc: Global, long: &Long, size: u64) {
    sized(rt, alloc, &[&long_text(rt, alloc, long)], size);
}

/// A long text, and the line and the cause for which it is refused.
struct LongRefused<'a>(Long<'a>, u32, RulesCause);

fn all_refused(rt: &impl Abort, alloc: Global, rows: &[LongRefused]) {
    for LongRefused(long, line, cause) in rows {
        refused(rt, alloc, &[&long_text(rt, alloc, long)], *line, *cause);
    }
}

/// The half of the bytes that are left for a comment behind A, which has 73 bytes.
const HALF: usize = (65_536 - 73) / 2;

const LONGEST: &[LongRefused] = &[
    LongRefused(Long(&[A], b" #", HALF, b"\n\n"), 0, RulesCause::TooLong),
    LongRefused(Long(&[], b"\x00", 65_536, b""), 1, RulesCause::Header),
    LongRefused(Long(&[], b"\x00", 65_536, b"\x00"), 0, RulesCause::TooLong),
    LongRefused(Long(&[], b"\n", 65_536, b""), 0, RulesCause::Header),
    LongRefused(Long(&[], b"\n", 65_536, b"\n"), 0, RulesCause::TooLong),
    LongRefused(Long(&[], b"\xff", 65_536, b""), 1, RulesCause::Header),
    LongRefused(Long(&[], b"\xff", 65_536, b"\xff"), 0, RulesCause::TooLong),
    LongRefused(
        Long(&[A], b"\n", 65_536 - 73 - 5, b"gruop"),
        65_463,
        RulesCause::UnknownLine,
    ),
];

#[test]
fn longest_texts(rt: HostRuntime) {
    let alloc = rt.alloc();
    long_sized(&rt, alloc, &Long(&[A], b" #", HALF, b"\n"), 8);
    all_refused(&rt, alloc, LONGEST);
}

const EXIT: &[u8] = b"exit draw if";

const GROUP: &[u8] = b"group white 1";

const MANY_WORDS: &[LongRefused] = &[
    // as many words as a line can have
    LongRefused(Long(&[], b"x ", 32_768, b""), 1, RulesCause::Header),
    LongRefused(Long(&[A], b"x ", 30_000, b""), 5, RulesCause::UnknownLine),
    // 60,000 words of one byte are 119,999 bytes
    LongRefused(Long(&[], b"x ", 59_999, b"x"), 0, RulesCause::TooLong),
    LongRefused(
        Long(&[A, EXIT], b" check", 10_000, b" x"),
        5,
        RulesCause::Word(10_004),
    ),
    LongRefused(
        Long(&[A, EXIT], b" check", 10_000, b""),
        5,
        RulesCause::TooManyLines,
    ),
    LongRefused(
        Long(&[KINGS, GROUP], b" R:a1", 13_000, b" R"),
        4,
        RulesCause::Word(13_004),
    ),
];

#[test]
fn lines_of_many_words(rt: HostRuntime) {
    let alloc = rt.alloc();
    let places = Long(&[KINGS, GROUP], b" R:a1", 13_000, b"");
    long_sized(&rt, alloc, &places, 8192);
    all_refused(&rt, alloc, MANY_WORDS);
}
