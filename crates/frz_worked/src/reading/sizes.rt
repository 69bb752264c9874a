//! Sizes of sets, worked out by hand.
use super::{A, KINGS, SetSize, all_sized, sized};
use test_tables::blocked;

const CHOICES: &[SetSize] = &[
    // 2 * 64 * 64 * 64 * 32 and 2 * 64 * 64 * 64 * 33
    SetSize(
        &[KINGS, b"group white 1 R:all\ngroup white 1 N:a1-h4\n"],
        16_777_216,
    ),
    SetSize(
        &[KINGS, b"group white 1 R:all\ngroup white 1 N:a1-h4,a5\n"],
        17_301_504,
    ),
    // numbers of nine digits, and C(3, 2)
    SetSize(&[KINGS, b"group white 000000002 B:a1,b1,c1\n"], 24_576),
    SetSize(
        &[KINGS, b"group white 000000002-000000003 B:a1,b1,c1\n"],
        32_768,
    ),
    // rooks on neither, one or both of h1 and h8
    SetSize(
        &[b"freezer 1\ngroup white 1 K:b6\ngroup white 0-2 R:h1,h8\ngroup black 1 K:a8,b8"],
        16,
    ),
    // states that come twice count once
    SetSize(&[A, b"group black 1 N:b1,a1 B:c1 N:a1 N:a1-b1\n"], 24),
];

#[test]
fn choices_of_groups(rt: HostRuntime) {
    all_sized(&rt, rt.alloc(), CHOICES);
}

const CORNERS: &[u8] = b"freezer 1\ngroup white 1 K:a1\ngroup black 1 K:h8\n";

const TARGETS: &[SetSize] = &[
    // three turn states: White, Black and the target d6
    SetSize(
        &[CORNERS, b"group white 1 P:e5,d6\ngroup black 0-1 P:d5\n"],
        12,
    ),
    // and the target e3
    SetSize(
        &[CORNERS, b"group white 1 P:e4\ngroup black 1 P:d4,f4\n"],
        6,
    ),
    // no target across the edge of the board: h4 and a5
    SetSize(&[CORNERS, b"group white 1 P:h4\ngroup black 1 P:a5\n"], 2),
    // nor beside a pawn of its own side
    SetSize(&[CORNERS, b"group white 1 P:e4\ngroup white 1 P:d4\n"], 2),
];

#[test]
fn targets(rt: HostRuntime) {
    all_sized(&rt, rt.alloc(), TARGETS);
}

/// Four turn states: the black pawn on b4 stands beside a4 and c4, but no pawn beside e4, a5, c5 or
/// e5.
#[test]
fn targets_of_blocked_pawns(rt: HostRuntime) {
    sized(&rt, rt.alloc(), &[blocked::TEXT.as_bytes()], 6400);
}
