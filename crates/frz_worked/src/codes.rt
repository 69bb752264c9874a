//! Codes of exits and of moves, worked by hand.
ghost use Rattle.std.specs.Prelude.{◌≡◌};
ghost use Rattle.frz_arena.specs.declared.arm.Next.TheVariants.{Inside};

use crate::expect::expect_equal;
use frz_arena::Node;
use frz_board::Colour::{Black, White};
use frz_board::{Move, Square};
use frz_graph::{Arm, CodeList, Next, NextList, Pair, exit_code, fill, local, local_by};
use frz_sets::Value;

#[test]
fn exits_have_codes(rt: HostRuntime) {
    let codes = [
        exit_code(Value::WhiteWinsIn(7), White),
        exit_code(Value::WhiteWinsIn(7), Black),
        exit_code(Value::BlackHolds, Black),
    ];
    expect_equal(&rt, &codes, &[16, 3, 1], "codes");
}

/// A move that stays inside, to this number.
fn arm(free: bool, number: u32) -> Arm
    ensures { result.next ≡ Inside number }
{
    let mv = Move {
        from: Square::at(0),
        to: Square::at(1),
        promo: None,
    };
    Arm {
        mv,
        free,
        next: Next::Inside(number),
    }
}

#[test]
fn numbers_have_local_codes(rt: HostRuntime) {
    let mut list = NextList::new();
    list.push(arm(false, 0));
    list.push(arm(true, 1));
    let pair = Pair {
        white: &[4, 6],
        black: &[5, 7],
    };
    let codes = [
        local_by(White, Node::Going(White), &list, &pair),
        local_by(Black, Node::Going(White), &list, &pair),
        local_by(White, Node::Going(Black), &list, &pair),
        local_by(Black, Node::Going(Black), &list, &pair),
        local_by(White, Node::Mate(Black), &list, &pair),
    ];
    expect_equal(&rt, &codes, &[8, 7, 8, 9, 2], "codes");
}

#[test]
fn codes_that_were_read_give_local_codes(rt: HostRuntime) {
    let mut list = NextList::new();
    list.push(arm(false, 0));
    list.push(arm(true, 1));
    let mut codes = CodeList::new();
    codes.push(7);
    codes.push(4);
    let given = [
        local(White, Node::Going(White), &list, &codes),
        local(White, Node::Going(Black), &list, &codes),
        local(White, Node::Stalemate(White), &list, &codes),
    ];
    expect_equal(&rt, &given, &[6, 9, 1], "codes");
}

#[test]
fn moves_have_codes(rt: HostRuntime) {
    let mut list = NextList::new();
    list.push(arm(false, 0));
    list.push(arm(true, 1));
    let pair = Pair {
        white: &[4, 6],
        black: &[5, 7],
    };
    let mut codes = CodeList::new();
    fill(White, &list, &pair, &mut codes);
    assert!(rt; codes.as_slice() == [4, 6].as_slice());
    fill(Black, &list, &pair, &mut codes);
    assert!(rt; codes.as_slice() == [5, 7].as_slice());
}
