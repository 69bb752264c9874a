//! FEN texts that are right, and faults of each sort.

use crate::expect::{expect_equal, expect_holds};
use frz_board::{Colour, Position, Shape, Square};
use frz_fen::{FenFault, read_fen, write_fen};
use frz_fide::Invalid;
use std::process::Abort;
use std::test::Fail;

/// Do White's king and Black's queen stand where the game starts, with White to move?
fn is_start(p: &Position) -> bool {
    p.cell(Square::at(4)) == 1 && p.cell(Square::at(59)) == 8 && p.turn() == Colour::White
}

/// The game's start (FIDE 2.3), its castling rights aside.
#[test]
fn reads_and_writes_the_start_of_a_game(rt: HostRuntime) -> Result<(), Fail> {
    let start = "rnbqkbnr/pppppppp/8/8/8/8/PPPPPPPP/RNBQKBNR w - - 0 1";
    let p = read_fen(start.as_bytes())?;
    expect_holds(&rt, is_start(&p));
    expect_equal(&rt, &write_fen(&p).as_str(), &start);
    Ok(())
}

/// Digits side by side are read and written as one; the clocks may be left out.
#[test]
fn writes_the_fewest_digits(rt: HostRuntime) -> Result<(), Fail> {
    let p = read_fen(b" 8/8/11k41/8/8/8/35/4K1R1  b - - ")?;
    expect_equal(
        &rt,
        &write_fen(&p).as_str(),
        &"8/8/2k5/8/8/8/8/4K1R1 b - - 0 1",
    );
    Ok(())
}

/// A text that is no FEN, and its first fault.
struct Refused<'a>(&'a [u8], FenFault);

fn expect_fault(rt: &impl Abort, row: &Refused<'_>) {
    let Refused(text, want) = row;
    assert!(rt; read_fen(text).err() == Some(*want), "{text:?}");
}

fn expect_faults(rt: &impl Abort, rows: &[Refused<'_>]) {
    for row in rows {
        expect_fault(rt, row);
    }
}

const MISPLACED: &[Refused] = &[
    Refused(
        b"4k3/8/8/8/8/8/8/4K3 w - d6 0 1",
        FenFault::Invalid(Invalid::Shape(Shape::EpPlace)),
    ),
    Refused(b"4k3/8/8/8/8/8/8/4K3 w - d3 0 1", FenFault::EpSquare),
];

/// 1. d2d4 leaves a target that no pawn can capture; on e5 a pawn can.
#[test]
fn drops_a_target_that_no_pawn_captures(rt: HostRuntime) -> Result<(), Fail> {
    let d6 = Square::at(43);
    expect_equal(
        &rt,
        &read_fen(b"4k3/8/8/3p4/8/8/8/4K3 w - d6 0 1")?.ep(),
        &None,
    );
    expect_equal(
        &rt,
        &read_fen(b"8/8/8/3pP3/8/8/8/K1k5 w - d6 0 1")?.ep(),
        &Some(d6),
    );
    expect_faults(&rt, MISPLACED);
    Ok(())
}

const FAULTS: &[Refused] = &[
    Refused(b"", FenFault::Fields),
    Refused(b"8/8/8/8/8/8/8/8 w - - 0", FenFault::Fields),
    Refused(b"k7/8/1K6/8/8/8/8/6R x KQ", FenFault::Fields),
    Refused(b"k7/8/1K6/8/8/8/8/6R x KQ a1", FenFault::Placement(1)),
    Refused(b"k7/9/1K6/8/8/8/8/8 w - -", FenFault::Placement(7)),
    Refused(b"k7/8/1K6/8/8/8/8 w - -", FenFault::Placement(1)),
    Refused(b"k7/8/1K6/8/8/8/8/8/8 w - -", FenFault::Placement(0)),
    Refused(b"kkkkkkkkk/8/8/8/8/8/8/8 w - -", FenFault::Placement(8)),
    Refused(b"k7/8/1K6/8/8/8/8/8 x KQ a1", FenFault::Turn),
    Refused(b"k7/8/1K6/8/8/8/8/8 w KQ a1", FenFault::Castling),
    Refused(b"k7/8/1K6/8/8/8/8/8 w - a1 x x", FenFault::EpSquare),
    Refused(b"8/8/8/8/8/8/8/8 w - - 12345 1", FenFault::Clock),
    Refused(b"\xff\x00/\xfe w - -", FenFault::Placement(8)),
];

#[test]
fn names_the_first_fault(rt: HostRuntime) {
    expect_faults(&rt, FAULTS);
}

const KINGS: FenFault = FenFault::Invalid(Invalid::Shape(Shape::Kings));

const PAWN_RANK: FenFault = FenFault::Invalid(Invalid::Shape(Shape::PawnRank));

const CHECK: FenFault = FenFault::Invalid(Invalid::OpponentInCheck);

const INVALID: &[Refused] = &[
    Refused(b"8/8/8/8/8/8/8/8 w - - 0 1", KINGS),
    Refused(b"k7/8/8/8/8/8/8/K6K w - - 0 1", KINGS),
    Refused(b"k6P/8/8/8/8/8/8/K7 w - - 0 1", PAWN_RANK),
    Refused(b"k6R/8/1K6/8/8/8/8/8 w - - 0 1", CHECK),
    Refused(b"k6R/8/8/8/8/8/8/K6r w - - 0 1", CHECK),
];

#[test]
fn refuses_what_is_not_valid(rt: HostRuntime) {
    expect_faults(&rt, INVALID);
}
