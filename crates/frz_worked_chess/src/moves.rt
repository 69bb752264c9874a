//! Moves in positions known to every chess program, and ends of games.

ghost use Rattle.std.specs.Prelude.{◌≡◌, ◌<◌};
ghost use Rattle.frz_fide.specs.Valid.{IsValid};

use crate::expect::{expect_equal, expect_holds};
use crate::placement::{set_up, set_up_valid};
use frz_board::{Colour, Move, Position, move_text};
use frz_fide::{Ending, Invalid, ending, legal_moves, play, valid};
use frz_steps::Steps;
use std::alloc::Global;
use std::marker::Brand;
use std::process::Abort;
use std::sync::ledger::{Blank, Ledger};
use std::test::Fail;

/// The texts of the moves, each with a space after it.
fn texts_of(alloc: Global, moves: &[Move]) -> Result<String, Fail> {
    let mut text = String::new(alloc);
    for m in moves {
        push_move(&mut text, *m)?;
    }
    Ok(text)
}

fn push_move(text: &mut String, m: Move) -> Result<(), Fail> {
    text.push_str(move_text(m).as_str())?;
    Ok(text.push(' ')?)
}

/// A placement with White to move, the number of its target, and the moves.
struct Listed<'a>(&'a str, Option<u8>, &'a str);

const LISTED: &[Listed] = &[
    Listed("8/8/8/3pP3/8/8/8/K1k5", Some(43), "a1a2 e5d6 e5e6 "),
    Listed(
        "8/8/8/K2pP2r/8/8/8/7k",
        Some(43),
        "a5a4 a5b4 a5b5 a5a6 a5b6 e5e6 ",
    ),
    Listed("8/P7/8/8/8/8/8/K1k5", None, "a1a2 a7a8q a7a8r a7a8b a7a8n "),
    Listed(
        "rnbqkbnr/pppppppp/8/8/8/8/PPPPPPPP/RNBQKBNR",
        None,
        "b1a3 b1c3 g1f3 g1h3 a2a3 a2a4 b2b3 b2b4 c2c3 c2c4 \
         d2d3 d2d4 e2e3 e2e4 f2f3 f2f4 g2g3 g2g4 h2h3 h2h4 ",
    ),
];

fn expect_moves<L: Ledger>(
    rt: &impl Abort,
    alloc: Global,
    row: &Listed<'_>,
    steps: &mut Steps<L>,
) -> Result<(), Fail> {
    let Listed(placement, target, moves) = row;
    let p = set_up_valid(placement, Colour::White, *target)?;
    let listed = texts_of(alloc, legal_moves(&p, steps).as_slice())?;
    assert!(rt; listed.as_str() == *moves, "{placement}: {listed}");
    Ok(())
}

fn list_moves<L: Ledger, R: Abort>(rt: &R, alloc: Global, blank: Blank) -> Result<(), Fail>
    requires name { blank.name ≡ L.name }
    requires parts { blank.parts ≡ L.parts }
    requires some { 0 < blank.parts }
{
    let mut steps = Steps::<L>::new(blank);
    for row in LISTED {
        expect_moves(rt, alloc, row, &mut steps)?;
    }
    Ok(())
}

#[test]
fn lists_moves_in_order(rt: HostRuntime) -> Result<(), Fail> {
    let blank = Blank::new(1);
    list_moves::<Brand, _>(&rt, rt.alloc(), blank)
}

/// A placement with Black to move, and how the game stands.
struct Ended<'a>(&'a str, Ending);

const ENDED: &[Ended] = &[
    Ended("k6R/8/1K6/8/8/8/8/8", Ending::Mate),
    Ended("k7/8/1Q6/8/8/8/8/K7", Ending::Stalemate),
    Ended("k7/8/8/8/8/8/8/K7", Ending::Going),
];

fn expect_ending<L: Ledger>(
    rt: &impl Abort,
    row: &Ended<'_>,
    steps: &mut Steps<L>,
) -> Result<(), Fail> {
    let Ended(placement, want) = row;
    let p = set_up_valid(placement, Colour::Black, None)?;
    let list = legal_moves(&p, steps);
    assert!(rt; ending(&p, &list) == *want, "{placement}");
    Ok(())
}

fn end_games<L: Ledger, R: Abort>(rt: &R, blank: Blank) -> Result<(), Fail>
    requires name { blank.name ≡ L.name }
    requires parts { blank.parts ≡ L.parts }
    requires some { 0 < blank.parts }
{
    let mut steps = Steps::<L>::new(blank);
    for row in ENDED {
        expect_ending(rt, row, &mut steps)?;
    }
    Ok(())
}

#[test]
fn ends_in_mate_or_stalemate(rt: HostRuntime) -> Result<(), Fail> {
    let blank = Blank::new(1);
    end_games::<Brand, _>(&rt, blank)
}

#[test]
fn the_side_not_to_move_is_not_in_check(rt: HostRuntime) -> Result<(), Fail> {
    let p = set_up("k6R/8/1K6/8/8/8/8/8", Colour::White, None)?;
    expect_equal(&rt, &valid(&p), &Err(Invalid::OpponentInCheck));
    expect_holds(&rt, p.shape().is_ok());
    Ok(())
}

/// How many positions there are after so many plies.
fn leaves<L: Ledger>(p: &Position, plies: u8, steps: &mut Steps<L>) -> u64
    requires { IsValid p.now }
{
    if plies == 0 {
        return 1;
    }
    let list = legal_moves(p, steps);
    let mut count = 0u64;
    for m in list.as_slice() {
        if let Some(q) = play(p, *m) {
            count = count.saturating_add(leaves(&q, plies - 1, steps));
        }
    }
    count
}

/// A placement, the side to move, plies, and how many positions there are after them.
struct Counted<'a>(&'a str, Colour, u8, u64);

const PASSING: &str = "8/2p5/3p4/KP5r/1R3p1k/8/4P1P1/8";

const PROMOTING: &str = "n1n5/PPPk4/8/8/8/8/4Kppp/5N1N";

const COUNTED: &[Counted] = &[
    Counted(PASSING, Colour::White, 1, 14),
    Counted(PASSING, Colour::White, 2, 191),
    Counted(PASSING, Colour::White, 3, 2_812),
    Counted(PASSING, Colour::White, 4, 43_238),
    Counted(PROMOTING, Colour::Black, 1, 24),
    Counted(PROMOTING, Colour::Black, 2, 496),
    Counted(PROMOTING, Colour::Black, 3, 9_483),
];

fn expect_leaves<L: Ledger>(
    rt: &impl Abort,
    row: &Counted<'_>,
    steps: &mut Steps<L>,
) -> Result<(), Fail> {
    let Counted(placement, turn, plies, want) = row;
    let p = set_up_valid(placement, *turn, None)?;
    let count = leaves(&p, *plies, steps);
    assert!(rt; count == *want, "{placement} {plies}: {count}");
    Ok(())
}

fn count_leaves<L: Ledger, R: Abort>(rt: &R, blank: Blank) -> Result<(), Fail>
    requires name { blank.name ≡ L.name }
    requires parts { blank.parts ≡ L.parts }
    requires some { 0 < blank.parts }
{
    let mut steps = Steps::<L>::new(blank);
    for row in COUNTED {
        expect_leaves(rt, row, &mut steps)?;
    }
    Ok(())
}

#[test]
fn counts_leaf_positions(rt: HostRuntime) -> Result<(), Fail> {
    let blank = Blank::new(1);
    count_leaves::<Brand, _>(&rt, blank)
}
