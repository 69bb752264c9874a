//! Words of attacks on boards with few men.

use crate::expect::{expect_equal, expect_holds};
use frz_bits::{
    Bitboards, attackers, between, bishop_rays, king_set, knight_set, move_set, next_square,
    pawn_set, rook_rays,
};
use frz_board::{Colour, Kind, Man, Position, Square, cell_of};
use std::process::Abort;
use std::test::Fail;

const A1: u64 = 1;

const C1: u64 = 1 << 2;

const A3: u64 = 1 << 16;

#[test]
fn rays_end_at_the_first_man(rt: HostRuntime) {
    let a1 = Square::at(0);
    let b1 = 1 << 1;
    let a2 = 1 << 8;
    expect_equal(&rt, &rook_rays(a1, A3 | C1), &(a2 | A3 | b1 | C1));
    let b2 = 1 << 9;
    let c3 = 1 << 18;
    expect_equal(&rt, &bishop_rays(a1, c3), &(b2 | c3));
}

#[test]
fn only_lines_have_squares_between(rt: HostRuntime) {
    let a1 = Square::at(0);
    let b2 = 1 << 9;
    let c3 = 1 << 18;
    expect_equal(&rt, &between(a1, Square::at(27)), &(b2 | c3));
    expect_equal(&rt, &between(a1, Square::at(17)), &0);
}

#[test]
fn short_ways(rt: HostRuntime) {
    let a1 = Square::at(0);
    let b1 = 1 << 1;
    let a2 = 1 << 8;
    let b2 = 1 << 9;
    let c2 = 1 << 10;
    let b3 = 1 << 17;
    let from_a1 = [knight_set(a1), king_set(a1), pawn_set(Colour::White, a1)];
    expect_equal(&rt, &from_a1, &[c2 | b3, b1 | a2 | b2, b2]);
    expect_equal(&rt, &pawn_set(Colour::Black, Square::at(17)), &(a2 | c2));
    let pawn = Man {
        colour: Colour::White,
        kind: Kind::Pawn,
    };
    let a4 = 1 << 24;
    expect_equal(&rt, &move_set(pawn, Square::at(8)), &(A3 | b3 | a4));
}

/// The rook on a1 attacks the king on c1, and not d1 behind him.
fn check_attackers(rt: &impl Abort, p: &Position) {
    expect_equal(rt, &attackers(p, Square::at(2), Colour::White), &A1);
    expect_equal(rt, &attackers(p, Square::at(3), Colour::White), &0);
}

/// A knight on b1 ends the check of the rook on a1 to the king on c1.
fn check_boards(rt: &impl Abort, boards: &Bitboards) {
    let b1 = Square::at(1);
    let rook = Man {
        colour: Colour::White,
        kind: Kind::Rook,
    };
    expect_equal(rt, &boards.men(rook), &A1);
    expect_holds(rt, boards.is_in_check(Colour::Black));
    expect_holds(rt, !boards.put(b1, 5).is_in_check(Colour::Black));
    expect_equal(rt, &next_square(boards.occupied(), 1), &Some(Square::at(2)));
}

#[test]
fn a_rook_attacks_past_no_man(rt: HostRuntime) -> Result<(), Fail> {
    let mut cells = [0; 64];
    cells[0] = cell_of(Man {
        colour: Colour::White,
        kind: Kind::Rook,
    });
    cells[2] = cell_of(Man {
        colour: Colour::Black,
        kind: Kind::King,
    });
    let p = Position::new(cells, Colour::White, None).ok_or("a position")?;
    check_attackers(&rt, &p);
    check_boards(&rt, &Bitboards::of(&p));
    Ok(())
}
