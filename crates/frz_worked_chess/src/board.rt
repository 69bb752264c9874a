//! Positions and moves at the border, and the start of a game.

use crate::expect::{expect_equal, expect_holds};
use frz_bits::Bitboards;
use frz_board::{
    Colour, Kind, Man, Move, Position, Shape, Square, cell_of, man_of, move_text, read_move,
};
use std::process::Abort;
use std::test::Fail;

/// The men at the start of a game, from a1 to h8 (FIDE 2.3).
const START: [u8; 64] = [
    3, 5, 4, 2, 1, 4, 5, 3, //
    6, 6, 6, 6, 6, 6, 6, 6, //
    0, 0, 0, 0, 0, 0, 0, 0, //
    0, 0, 0, 0, 0, 0, 0, 0, //
    0, 0, 0, 0, 0, 0, 0, 0, //
    0, 0, 0, 0, 0, 0, 0, 0, //
    12, 12, 12, 12, 12, 12, 12, 12, //
    9, 11, 10, 8, 7, 10, 11, 9,
];

fn start() -> Result<Position, Fail> {
    Ok(Position::new(START, Colour::White, None).ok_or("a cell above 12")?)
}

#[test]
fn reads_the_start_of_a_game(rt: HostRuntime) -> Result<(), Fail> {
    let p = start()?;
    let e1 = Square::new(4).ok_or("no square")?;
    let king = Man {
        colour: Colour::White,
        kind: Kind::King,
    };
    expect_equal(&rt, &(p.man(e1), p.cell(e1)), &(Some(king), 1));
    expect_holds(
        &rt,
        p.holds(Colour::White, e1) && !p.holds(Colour::White.other(), e1),
    );
    expect_equal(
        &rt,
        &(p.turn(), p.ep(), p.shape()),
        &(Colour::White, None, Ok(())),
    );
    Ok(())
}

#[test]
fn cells_stand_for_men(rt: HostRuntime) {
    let pawn = Man {
        colour: Colour::Black,
        kind: Kind::Pawn,
    };
    expect_equal(
        &rt,
        &(cell_of(pawn), man_of(12), man_of(13)),
        &(12, Some(pawn), None),
    );
}

#[test]
fn names_the_first_condition_that_fails(rt: HostRuntime) -> Result<(), Fail> {
    let p = start()?;
    let (a1, d5, e4, a8) = (
        Square::at(0),
        Square::at(35),
        Square::at(28),
        Square::at(56),
    );
    for (q, fault) in [
        (p.put(e4, 1).put(a8, 6), Shape::Kings),
        (p.put(a8, 6).put(e4, 2), Shape::PawnRank),
        (p.put(a1, 12), Shape::PawnRank),
        (p.put(d5, 12), Shape::TooMany),
        (p.hand_over(Some(e4)), Shape::EpPlace),
    ] {
        expect_equal(&rt, &q.shape(), &Err(fault));
        expect_equal(&rt, &Bitboards::of(&q).shape(), &Err(fault));
    }
    Ok(())
}

/// After 1. e4 a6 2. e5 d5 a white pawn stands beside the black one, and could capture on d6.
#[test]
fn keeps_a_target_that_a_pawn_can_capture(rt: HostRuntime) -> Result<(), Fail> {
    let (a2, e2, e5) = (Square::at(8), Square::at(12), Square::at(36));
    let (d5, d6, d7) = (Square::at(35), Square::at(43), Square::at(51));
    let p = start()?.put(e2, 0).put(e5, 6).put(d7, 0).put(d5, 12);
    let p = p.hand_over(None).hand_over(Some(d6));
    expect_holds(
        &rt,
        p.has_passed(Colour::Black, d6) && p.has_pawn_beside(Colour::White, d5),
    );
    expect_holds(&rt, p.shape().is_ok());
    expect_equal(&rt, &p.put(e5, 0).put(a2, 6).shape(), &Err(Shape::EpPlace));
    Ok(())
}

/// A text is read as the move that queens, one as the move that stays on e7, and two are not read.
fn check_read(rt: &impl Abort, queens: Move, stays: Move) {
    let read = [read_move(b"e7e8q"), read_move(b"e7e8k"), read_move(b"e7e9")];
    expect_equal(rt, &read, &[Some(queens), None, None]);
    expect_holds(rt, read_move(b"e7e7") == Some(stays));
}

#[test]
fn writes_and_reads_moves(rt: HostRuntime) {
    let (e7, e8) = (Square::at(52), Square::at(60));
    let queens = Move {
        from: e7,
        to: e8,
        promo: Some(Kind::Queen),
    };
    let stays = Move {
        from: e7,
        to: e7,
        promo: None,
    };
    expect_equal(&rt, &move_text(queens).as_str(), &"e7e8q");
    expect_holds(&rt, Move::new(e7, e8, Some(Kind::Queen)) == Some(queens));
    expect_holds(&rt, Move::new(e7, e8, Some(Kind::King)).is_none());
    check_read(&rt, queens, stays);
}
