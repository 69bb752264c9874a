//! The exits of two configurations, worked out by hand.

use crate::{ExitPlane, exits_of};
use frz_board::Colour::{self, Black, White};
use frz_board::{Man, Square, cell_of};
use frz_configurations::Configurations;
use frz_exits::{RuleBook, Value};
use frz_fide::Bitboards;
use frz_index::Set;
use frz_kingless::live_pairs;
use frz_plane_arms::target_of;
use frz_rules::read_rules;
use std::test::Fail;

const TEXT: &str = "freezer 1
group white 1 K:a1,b1
group black 1 K:g8,h8
group white 1 R:e1,e2,g7
forbid white R from all to c1,d1
forbid white K from b1 to b2
exit white wins 3 if check
exit draw if on:white:R:e3-e7
exit draw if count:white:R:0
exit white holds if on:white:K:a2
exit black holds if on:white:K:b2
";

const A1: u8 = 0;

const B1: u8 = 1;

const E1: u8 = 4;

const G7: u8 = 54;

const G8: u8 = 62;

const H8: u8 = 63;

/// A value, whether the steps are free, and the pairs.
type Expected = (Value, bool, &'static [(u8, u8)]);

const ALL: &[(u8, u8)] = &[(A1, G8), (A1, H8), (B1, G8), (B1, H8)];

/// White's rook on e1.
const OF_WHITE: &[Expected] = &[
    // the rook to e8, and to g1 or h1
    (Value::WhiteWinsIn(3), true, ALL),
    // to e3 .. e7
    (Value::Draw, true, ALL),
    // to f1, and to c1 or d1
    (Value::Unknown, true, ALL),
    (Value::Unknown, false, ALL),
    // the king to a2, and to b2 from either square
    (Value::WhiteHolds, true, ALL),
    (Value::BlackHolds, true, &[(A1, G8), (A1, H8)]),
    (Value::BlackHolds, false, &[(B1, G8), (B1, H8)]),
];

/// White's rook on g7, which Black's king may take.
const OF_BLACK: &[Expected] = &[
    (Value::Draw, true, ALL),
    // the king to f8
    (Value::Unknown, true, &[(A1, G8), (B1, G8)]),
];

/// The board with White's rook on the square.
fn board(turn: Colour, rook: u8) -> Bitboards {
    let mut p = Bitboards::empty(turn, None);
    if let (Some(man), Some(s)) = (Man::of_letter(b'R'), Square::new(rook)) {
        p.set(s, cell_of(man));
    }
    p
}

/// Does the plane have these pairs, and no others?
fn has_pairs(exit: &ExitPlane, pairs: &[(u8, u8)]) -> bool {
    let mut many: u32 = 0;
    for (a, b) in pairs {
        if !exit.plane.has(*a % 64, *b % 64) {
            return false;
        }
        many = many.wrapping_add(1);
    }
    exit.plane.count() == many
}

/// Is there an exit of this value and this freedom, with these pairs?
fn has_exit(exits: &[ExitPlane], expected: &Expected) -> bool {
    let (value, free, pairs) = expected;
    for exit in exits {
        if exit.value == *value && exit.free == *free {
            return has_pairs(exit, pairs);
        }
    }
    false
}

#[test]
fn exits_by_hand(rt: HostRuntime) -> Result<(), Fail> {
    let rules = read_rules(rt.alloc(), TEXT.as_bytes())?;
    let set = Set::new(rt.alloc(), &rules)?;
    let configurations = Configurations::new(rt.alloc(), &rules)?;
    let book = RuleBook::new(&rules);
    for (turn, rook, all) in [(White, E1, OF_WHITE), (Black, G7, OF_BLACK)] {
        let p = board(turn, rook);
        let Some(c) = target_of(&set, &configurations, &p) else {
            assert!(rt; false);
            continue;
        };
        let live = live_pairs(&set, &configurations, c);
        let exits = exits_of(rt.alloc(), &set, &configurations, &book, &p, &live)?;
        assert_eq!(rt; exits.len(), all.len());
        for expected in all {
            assert!(rt; has_exit(&exits, expected));
        }
    }
    Ok(())
}
