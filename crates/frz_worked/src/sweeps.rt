//! Whole lists of codes, by hand.
ghost use Rattle.std.specs.Prelude.{◌≡◌, ◌<◌};
ghost use Rattle.frz_sets.specs.Sound.{IsSound};

use crate::expect::expect_equal;
use crate::texts::{DRAWN_KINGS, FORBIDDEN, LONG_WIN, ROOK, ROOKS, SHORT_ROOK, STALEMATE};
use frz_board::Colour;
use frz_exits::RuleBook;
use frz_game::Game;
use frz_index::Set;
use frz_rules::read_rules;
use frz_steps::Steps;
use frz_sweep::sweep;
use std::alloc::Global;
use std::marker::Brand;
use std::process::Abort;
use std::sync::ledger::{Blank, Ledger};
use std::test::Fail;

/// The codes of the side of the game.
fn codes_by<L: Ledger>(
    alloc: Global,
    game: &Game<'_, RuleBook<'_>>,
    side: Colour,
    steps: &mut Steps<L>,
) -> Result<Vec<u32>, Fail>
    requires { IsSound game.now.rules.now }
{
    Ok(sweep(alloc, game, side, steps)?)
}

/// The codes of the side by the rules of the text.
pub(super) fn codes_of<L: Ledger>(
    alloc: Global,
    text: &str,
    side: Colour,
    steps: &mut Steps<L>,
) -> Result<Vec<u32>, Fail> {
    let rules = read_rules(alloc, text.as_bytes())?;
    let set = Set::new(alloc, &rules)?;
    let book = RuleBook::new(&rules);
    let game = Game {
        set: &set,
        rules: &rules,
        book: &book,
    };
    codes_by(alloc, &game, side, steps)
}

/// A text, a side, and its codes.
type Row = (&'static str, Colour, &'static [u32]);

/// The codes of this side are these.
fn check_row<L: Ledger, R: Abort>(
    rt: &R,
    alloc: Global,
    row: &Row,
    steps: &mut Steps<L>,
) -> Result<(), Fail> {
    let (text, side, wanted) = *row;
    let codes = codes_of(alloc, text, side, steps)?;
    expect_equal(rt, &codes.as_slice(), &wanted, text);
    Ok(())
}

/// The codes of these sides are these.
fn check_rows<L: Ledger, R: Abort>(
    rt: &R,
    alloc: Global,
    rows: &[Row],
    blank: Blank,
) -> Result<(), Fail>
    requires name { blank.name ≡ L.name }
    requires parts { blank.parts ≡ L.parts }
    requires some { 0 < blank.parts }
{
    let mut steps = Steps::<L>::new(blank);
    for row in rows {
        check_row(rt, alloc, row, &mut steps)?;
    }
    Ok(())
}

const ROOK_ROWS: &[Row] = &[
    (ROOK, Colour::White, &[4, 4, 0, 0, 6, 5, 2, 2]),
    (ROOK, Colour::Black, &[5, 5, 0, 0, 7, 7, 3, 3]),
    (
        ROOKS,
        Colour::White,
        &[5, 5, 4, 4, 0, 0, 0, 0, 7, 5, 6, 5, 2, 2, 2, 2],
    ),
    (
        ROOKS,
        Colour::Black,
        &[5, 5, 5, 5, 0, 0, 0, 0, 7, 7, 7, 7, 3, 3, 3, 3],
    ),
];

#[test]
fn solves_rooks(rt: HostRuntime) -> Result<(), Fail> {
    let blank = Blank::new(1);
    check_rows::<Brand, _>(&rt, rt.alloc(), ROOK_ROWS, blank)
}

const EXIT_ROWS: &[Row] = &[
    (LONG_WIN, Colour::White, &[4, 4, 0, 0, 6, 18, 2, 2]),
    (LONG_WIN, Colour::Black, &[5, 5, 0, 0, 7, 7, 3, 3]),
    (DRAWN_KINGS, Colour::White, &[1, 1, 1, 1, 1, 1, 1, 1]),
    (SHORT_ROOK, Colour::Black, &[5, 5, 5, 5, 7, 7, 7, 7]),
    (SHORT_ROOK, Colour::White, &[1, 1, 1, 1, 1, 1, 1, 1]),
];

#[test]
fn solves_exits(rt: HostRuntime) -> Result<(), Fail> {
    let blank = Blank::new(1);
    check_rows::<Brand, _>(&rt, rt.alloc(), EXIT_ROWS, blank)
}

const END_ROWS: &[Row] = &[
    // White may not move and fails at once, or a ply later where Black is to move
    (FORBIDDEN, Colour::White, &[3, 3, 0, 0, 5, 5, 2, 2]),
    // each move of White leaves the set with no value, and Black is stalemated
    (STALEMATE, Colour::White, &[5, 1]),
    (STALEMATE, Colour::Black, &[5, 1]),
];

#[test]
fn solves_ends(rt: HostRuntime) -> Result<(), Fail> {
    let blank = Blank::new(1);
    check_rows::<Brand, _>(&rt, rt.alloc(), END_ROWS, blank)
}
