//! What the lines of an accepted text say.
use super::limits::have_values;
use super::{A, read};
use crate::expect::expect_holds;
use frz_board::{Colour, Kind, Square};
use frz_sets::{Cond, Forbid, Group, Only, Rules, Test, Value};
use frz_words::SquareSet;
use std::alloc::Global;
use std::process::Abort;

fn behind_a(rt: &impl Abort, alloc: Global, lines: &[u8]) -> Rules {
    read(rt, alloc, &[A, lines]).expect(rt, "rules")
}

/// Has the group none, one or two men of three states, of which the first is that of the bishop?
fn is_group(g: &Group) -> bool {
    if g.least != 0 || g.most != 2 || g.states.len() != 3 {
        return false;
    }
    let squares = [
        g.states[0].1.number(),
        g.states[1].1.number(),
        g.states[2].1.number(),
    ];
    squares == [2, 0, 1]
}

#[test]
fn states_of_a_group(rt: HostRuntime) {
    let rules = behind_a(&rt, rt.alloc(), b"group black 0-2\tN:b1,a1 B:c1 N:a1\r\n");
    assert_eq!(rt; rules.groups.len(), 4);
    assert!(rt; is_group(&rules.groups[3]));
}

const FORBIDS: [Forbid; 3] = [
    Forbid {
        colour: Colour::Black,
        kind: Kind::Pawn,
        from: SquareSet(0x00ff_0000_0000_0000),
        to: SquareSet(u64::MAX),
        only: Only::Promotion,
    },
    Forbid {
        colour: Colour::White,
        kind: Kind::King,
        from: SquareSet(1 << 41),
        to: SquareSet(0x8000_0000_0000_0001),
        only: Only::Capture,
    },
    Forbid {
        colour: Colour::White,
        kind: Kind::Rook,
        from: SquareSet(1 << 7),
        to: SquareSet(1 << 63),
        only: Only::Any,
    },
];

#[test]
fn moves_that_are_forbidden(rt: HostRuntime) {
    let lines: &[u8] = b"forbid black P from a7-h7 to all promotion
forbid white K from b6 to a1,h8 capture
forbid white R from h1 to h8
";
    let rules = behind_a(&rt, rt.alloc(), lines);
    expect_holds(
        &rt,
        rules.forbids.as_slice() == FORBIDS.as_slice(),
        &"forbids",
    );
}

/// An exit line, and its value.
struct Valued<'a>(&'a [u8], Value);

const VALUES: &[Valued] = &[
    Valued(b"exit white wins if always", Value::WhiteWins),
    Valued(b"exit black wins if always", Value::BlackWins),
    Valued(b"exit draw if always", Value::Draw),
    Valued(b"exit white holds if always", Value::WhiteHolds),
    Valued(b"exit black holds if always", Value::BlackHolds),
    Valued(b"exit unknown if always", Value::Unknown),
    Valued(
        b"exit white wins 000001000 if always",
        Value::WhiteWinsIn(1000),
    ),
    Valued(b"exit black wins 0 if always", Value::BlackWinsIn(0)),
];

#[test]
fn values_of_exits(rt: HostRuntime) {
    for Valued(line, value) in VALUES {
        let rules = behind_a(&rt, rt.alloc(), line);
        expect_holds(&rt, have_values(&rules.exits, &[*value]), value);
    }
}

/// Are the conditions these, and as many?
fn are_conds(conds: &[Cond], want: &[(bool, Test)]) -> bool {
    if conds.len() != want.len() {
        return false;
    }
    for (cond, (negated, test)) in conds.iter().zip(want) {
        if cond.negated != *negated || cond.test != *test {
            return false;
        }
    }
    true
}

#[test]
fn conditions_of_exits(rt: HostRuntime) {
    let line: &[u8] = b"exit draw if turn:black !count:white:R:000000000-16 on:black:P:a1,c1 \
        !distance:black:c3:7 check !always";
    let rules = behind_a(&rt, rt.alloc(), line);
    let want = [
        (false, Test::Turn(Colour::Black)),
        (true, Test::Count(Colour::White, Kind::Rook, 0, 16)),
        (false, Test::On(Colour::Black, Kind::Pawn, SquareSet(5))),
        (true, Test::Distance(Colour::Black, Square::at(18), 7, 7)),
        (false, Test::Check),
        (true, Test::Always),
    ];
    assert_eq!(rt; rules.exits.len(), 1);
    assert!(rt; are_conds(&rules.exits[0].conds, &want));
}
