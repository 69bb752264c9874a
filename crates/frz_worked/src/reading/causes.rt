//! The causes of a text and of its lines, and which of two comes first.
use super::{A, KINGS, joined, line_refused, push_all, refused, repeated, sized};
use frz_rules::RulesCause;
use std::alloc::Global;
use std::process::Abort;

/// Texts in which no line counts.
const NO_LINES: &[&[u8]] = &[b"", b"\n\n \t\r\n", b"# freezer 1\n#\n"];

const OTHER_HEADERS: &[&[u8]] = &[
    b"freezer 2\n",
    b"freezer 01\n",
    b"freezer 1 1\n",
    b"freezer\n",
    b"Freezer 1\n",
    b"freezer 1\rgroup white 1 K:a1\n",
    b"\xff\x00",
    b"group\n",
];

#[test]
fn headers(rt: HostRuntime) {
    let alloc = rt.alloc();
    for text in NO_LINES {
        refused(&rt, alloc, &[text], 0, RulesCause::Header);
    }
    for text in OTHER_HEADERS {
        refused(&rt, alloc, &[b"\n", text], 2, RulesCause::Header);
    }
}

const UNKNOWN_LINES: &[&[u8]] = &[
    b"gruop white 1 R:h1,h8",
    b"Group white 1 Q:a1",
    b"groups white 1 Q:a1",
    b"group: white 1 Q:a1",
    b"group\x0bwhite 1 Q:a1",
    b"freezer 1",
    b"white",
    b"!#",
    b"\x00",
    b"\xef\xbb\xbfgroup white 1 Q:a1",
    b"gro\xffup white 1 Q:a1",
];

#[test]
fn unknown_lines(rt: HostRuntime) {
    let alloc = rt.alloc();
    let third: &[u8] =
        b"freezer 1\ngroup white 1 K:b6\ngruop white 1 R:h1,h8\ngroup black 1 K:a8,b8\n";
    refused(&rt, alloc, &[third], 3, RulesCause::UnknownLine);
    for line in UNKNOWN_LINES {
        line_refused(&rt, alloc, line, RulesCause::UnknownLine);
    }
}

/// A group line behind those of A, and why it is refused.
struct BadGroup<'a>(&'a [u8], RulesCause);

const BAD_GROUPS: &[BadGroup] = &[
    BadGroup(b"group white 1 P:all", RulesCause::PawnSquare),
    BadGroup(b"group black 1 P:d1", RulesCause::PawnSquare),
    BadGroup(b"group white 1 N:a3 P:h8", RulesCause::PawnSquare),
    BadGroup(b"group white 3-2 P:a1", RulesCause::PawnSquare),
    BadGroup(b"group white 2 N:b1", RulesCause::Count),
    BadGroup(b"group white 0 N:b1", RulesCause::Count),
    BadGroup(b"group white 0-0 N:b1", RulesCause::Count),
    BadGroup(b"group white 2-1 N:b1-b3", RulesCause::Count),
    BadGroup(b"group white 1-3 N:b1,b1,b2-b2,b1-b2", RulesCause::Count),
    BadGroup(b"group black 2 K:c1", RulesCause::Count),
    BadGroup(b"group white 1 K:c1", RulesCause::KingGroup),
    BadGroup(b"group black 1 Q:c1 K:c1", RulesCause::KingGroup),
    BadGroup(b"group white 0-1 K:c1", RulesCause::KingGroup),
    BadGroup(b"group white 1-2 K:b6,c6", RulesCause::KingGroup),
    BadGroup(b"group white 1 R:h8", RulesCause::Overlap),
    BadGroup(b"group white 1 Q:a1 R:g7-h8", RulesCause::Overlap),
    BadGroup(b"group white 16 R:all", RulesCause::Overlap),
    BadGroup(b"group white 15 N:all", RulesCause::TooManyMen),
    BadGroup(b"group black 16 N:all", RulesCause::TooManyMen),
];

#[test]
fn groups(rt: HostRuntime) {
    let alloc = rt.alloc();
    for BadGroup(line, cause) in BAD_GROUPS {
        line_refused(&rt, alloc, line, *cause);
    }
    // the other side's states and men do not count: 120 = C(16, 14)
    sized(&rt, alloc, &[A, b"group black 1 R:h8\n"], 8);
    sized(&rt, alloc, &[A, b"group white 14 N:a1-d4\n"], 960);
}

/// Lines behind the header in which the second line of the text is no group of a king.
const BAD_KINGS: &[&[u8]] = &[
    b"group white 1 K:a1 Q:b1",
    b"group white 1-2 K:a1,b1",
    b"group white 0-1 K:a1,b1",
    b"group black 2 K:a1,b1",
];

/// Lines behind the header in which a side has no king.
const NO_KING: &[&[u8]] = &[
    b"",
    b"group white 1 K:a1\ngroup black 1 Q:a2\n",
    b"group black 1 K:a1\ngroup white 1 Q:a2\n",
];

#[test]
fn king_groups(rt: HostRuntime) {
    let alloc = rt.alloc();
    let header: &[u8] = b"freezer 1\n";
    for line in BAD_KINGS {
        refused(&rt, alloc, &[header, line], 2, RulesCause::KingGroup);
    }
    for lines in NO_KING {
        refused(&rt, alloc, &[header, lines], 0, RulesCause::KingGroup);
    }
}

fn push_group(rt: &impl Abort, text: &mut Vec<u8>, side: &[u8], file: u8, rank: u8) {
    push_all(rt, text, b"group ");
    push_all(rt, text, side);
    push_all(rt, text, b" 1 N:");
    push_all(rt, text, &[file, rank, b'\n']);
}

/// A group of one knight of each side on each of the squares of two files.
fn knights(rt: &impl Abort, alloc: Global, ranks: &[u8]) -> Vec<u8> {
    let mut text = Vec::new(alloc);
    for rank in ranks {
        for file in b"ab" {
            push_group(rt, &mut text, b"white", *file, *rank);
            push_group(rt, &mut text, b"black", *file, *rank);
        }
    }
    text
}

/// Two kings, and behind them 30 groups.
fn full_groups(rt: &impl Abort, alloc: Global) -> Vec<u8> {
    let kings: &[u8] = b"freezer 1\ngroup white 1 K:h1\ngroup black 1 K:h8\n";
    let last: &[u8] = b"group white 1 N:a8\ngroup black 1 N:a8\n";
    let knights = knights(rt, alloc, b"1234567");
    joined(rt, alloc, &[kings, &knights, last])
}

#[test]
fn thirty_third_group(rt: HostRuntime) {
    let alloc = rt.alloc();
    let full = full_groups(&rt, alloc);
    sized(&rt, alloc, &[&full], 2);
    // one side would have 17 men
    let too_many = RulesCause::TooManyMen;
    refused(&rt, alloc, &[&full, b"group white 1 N:b8"], 34, too_many);
    refused(&rt, alloc, &[&full, b"group black 1 N:b8"], 34, too_many);
}

/// Behind the four lines of A so many lines are read, and no more.
fn most_lines(rt: &impl Abort, alloc: Global, line: &[u8], count: u8) {
    let lines = repeated(rt, alloc, line, usize::from(count));
    let next = 5 + u32::from(count);
    sized(rt, alloc, &[A, &lines], 8);
    refused(
        rt,
        alloc,
        &[A, &lines, line],
        next,
        RulesCause::TooManyLines,
    );
    refused(
        rt,
        alloc,
        &[A, &lines, b"gruop"],
        next,
        RulesCause::UnknownLine,
    );
}

#[test]
fn too_many_lines(rt: HostRuntime) {
    let alloc = rt.alloc();
    let forbid: &[u8] = b"forbid white K from a1 to a2 capture\n";
    let exit: &[u8] = b"exit white wins 007 if check check check check check check check !check\n";
    most_lines(&rt, alloc, forbid, 64);
    most_lines(&rt, alloc, exit, 128);
    let nine: &[u8] = b"exit draw if check check check check check check check check always";
    line_refused(&rt, alloc, nine, RulesCause::TooManyLines);
    let tenth = joined(&rt, alloc, &[nine, b" never"]);
    line_refused(&rt, alloc, &tenth, RulesCause::Word(13));
}

#[test]
fn sets_above_the_limit(rt: HostRuntime) {
    let alloc = rt.alloc();
    // 2 * 64 ^ 4 numbers without the bishop
    let pieces: &[u8] = b"group white 1 R:all\ngroup white 1 N:all\n";
    let four: &[u8] = b"group white 1 B:a1-d1\n";
    sized(&rt, alloc, &[KINGS, pieces, four], 134_217_728);
    let five: &[u8] = b"group white 1 B:a1-e1\n";
    let too_big = RulesCause::SetTooBig(167_772_160);
    refused(&rt, alloc, &[KINGS, pieces, five], 0, too_big);
}

/// 2 ^ 27 + 5 numbers: 13 * 293 * 167 * 211, with targets on rank 6 and on a3, b3 and c3. Each of
/// the four numbers below has a prime factor that no radix has.
const NEXT_SIZE: &[u8] = b"freezer 1
group white 1 K:a1
group black 1 K:h8
group white 0-1 Q:all R:all B:all N:all P:a2-h5,a6-d6
group black 0-1 Q:all R:all B:a1-h4,a5-f5
group black 0-2 N:a1-b5 P:a5-h5,a4-b4
";

#[test]
fn least_set_above_the_limit(rt: HostRuntime) {
    let too_big = RulesCause::SetTooBig(134_217_733);
    refused(&rt, rt.alloc(), &[NEXT_SIZE], 0, too_big);
}

/// Each piece of White's and of Black's anywhere, behind the kings: 2 * 64 ^ 10 = 2 ^ 61 numbers.
const PIECES: &[u8] = b"group white 1 Q:all
group white 1 R:all
group white 1 B:all
group white 1 N:all
group black 1 Q:all
group black 1 R:all
group black 1 B:all
group black 1 N:all
";

/// Lines behind the kings, and the size with which their set is too big.
struct Big<'a>(&'a [&'a [u8]], u64);

const BIG_SETS: &[Big] = &[
    // 7 and 8 times as many as the pieces
    Big(
        &[PIECES, b"group white 1 P:a2-g2\n"],
        16_140_901_064_495_857_664,
    ),
    Big(&[PIECES, b"group white 1 P:a2-h2\n"], u64::MAX),
    Big(&[b"group white 15 Q:all\ngroup black 15 Q:all\n"], u64::MAX),
    Big(&[b"group white 0-15 Q:all R:all B:all N:all\n"], u64::MAX),
];

#[test]
fn sizes_beyond_64_bits(rt: HostRuntime) {
    let alloc = rt.alloc();
    for Big(parts, size) in BIG_SETS {
        let lines = joined(&rt, alloc, parts);
        let too_big = RulesCause::SetTooBig(*size);
        refused(&rt, alloc, &[KINGS, &lines], 0, too_big);
    }
}
