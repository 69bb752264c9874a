//! The solver by passes: lists by hand, and the lists of the solver forwards.
ghost use Rattle.std.specs.Prelude.{◌≡◌, ◌<◌, length};
ghost use Rattle.frz_sets.specs.Sound.{IsSound};

use crate::expect::{expect_equal, expect_holds};
use crate::sweeps::codes_of;
use crate::ten::Ten;
use crate::texts::{
    BLACK_FIRST, BLOCKED, BOTH_TARGETS, CROWD, DRAWN_KINGS, EXITS, FORBIDDEN, KINDS, KNIGHTS,
    LONG_WIN, MIXED, NUMBERING, PAWNS, PROMOTING, ROOK, ROOKS, SHORT_ROOK, STALEMATE, TARGET,
    THREE, TWO_GROUPS, WIN,
};
use frz_board::Colour;
use frz_exits::RuleBook;
use frz_game::Game;
use frz_index::Set;
use frz_retro::Workshop;
use frz_rules::read_rules;
use frz_steps::Steps;
use std::alloc::Global;
use std::marker::Brand;
use std::process::Abort;
use std::sync::ledger::{Blank, Ledger};
use std::test::Fail;

/// A side, and the entries that its run leaves.
type Run<'a> = (Colour, &'a [u32]);

/// Each of two runs in one workshop leaves its entries.
fn leave<L: Ledger>(
    alloc: Global,
    game: &Game<'_, RuleBook<'_>>,
    first: Run<'_>,
    second: Run<'_>,
    steps: &mut Steps<L>,
) -> Result<bool, Fail>
    requires { IsSound game.now.rules.now }
{
    let mut shop = Workshop::new(alloc, game.set.size())?;
    shop.run_game(game, first.0, steps);
    let is_first = shop.entries() == first.1;
    shop.run_game(game, second.0, steps);
    Ok(is_first && shop.entries() == second.1)
}

/// Each of two runs by the rules of the text, in one workshop, leaves its entries.
fn gives<L: Ledger>(
    alloc: Global,
    text: &str,
    first: Run<'_>,
    second: Run<'_>,
    steps: &mut Steps<L>,
) -> Result<bool, Fail> {
    let rules = read_rules(alloc, text.as_bytes())?;
    let set = Set::new(alloc, &rules)?;
    let book = RuleBook::new(&rules);
    let game = Game {
        set: &set,
        rules: &rules,
        book: &book,
    };
    leave(alloc, &game, first, second, steps)
}

/// The lists of the solver forwards are those of two runs in one workshop, Black's first.
fn agrees<L: Ledger>(alloc: Global, text: &str, steps: &mut Steps<L>) -> Result<bool, Fail> {
    let white = codes_of(alloc, text, Colour::White, steps)?;
    let black = codes_of(alloc, text, Colour::Black, steps)?;
    gives(
        alloc,
        text,
        (Colour::Black, black.as_slice()),
        (Colour::White, white.as_slice()),
        steps,
    )
}

/// A text, and White's and Black's entries.
const BY_HAND: &[(&str, &[u32], &[u32])] = &[
    (ROOK, &[4, 4, 0, 0, 6, 5, 2, 2], &[5, 5, 0, 0, 7, 7, 3, 3]),
    (
        LONG_WIN,
        &[4, 4, 0, 0, 6, 18, 2, 2],
        &[5, 5, 0, 0, 7, 7, 3, 3],
    ),
];

fn solve_by_hand<L: Ledger, R: Abort>(rt: &R, alloc: Global, blank: Blank) -> Result<(), Fail>
    requires name { blank.name ≡ L.name }
    requires parts { blank.parts ≡ L.parts }
    requires some { 0 < blank.parts }
{
    let mut steps = Steps::<L>::new(blank);
    for (text, white, black) in BY_HAND {
        let white = (Colour::White, *white);
        let black = (Colour::Black, *black);
        expect_holds(rt, gives(alloc, text, white, black, &mut steps)?, text);
    }
    Ok(())
}

#[test]
fn solves_by_hand(rt: HostRuntime) -> Result<(), Fail> {
    let blank = Blank::new(1);
    solve_by_hand::<Brand, _>(&rt, rt.alloc(), blank)
}

/// White's and Black's entries of the game of ten numbers. By the definition of the bound, number
/// by number, where a win within n plies is 2 + 2n and a failure within n plies 3 + 2n:
///
/// - 0, Black is mated. White wins within 0: 2. Black fails within 0: 3.
/// - 1, broken: 0 for both.
/// - 2, White is to move, to 0 or an exit that wins in 3. White wins within 1 by 0 and within 4 by
///   the exit, and the least is 1: 4. For Black: White mates within 1: 5.
/// - 3, Black is to move, to 2 or an exit that White wins in 5. For White: both lose for Black, and
///   the exit lasts, 1 + 5 plies: 14. For Black: the exit fails within 1, and 2 within 1, so both
///   within 2: 7.
/// - 4, White is to move, to 3, and to 0 by a move that is not free. To 3 White wins within 6, so
///   within 7: 16. For Black: White may play that move too, and mates within 1: 5.
/// - 5, Black is to move, to 4 or 6. For White: Black goes to 6 and round to 5 for ever: 1. For
///   Black: to 4 and 6 it fails within 1 each, so within 2: 7.
/// - 6, White is to move, to 5 or an exit with no value. To 5 White wins no more than 5 does, and 5
///   holds: 1. For Black: the exit is no value for it: 5.
/// - 7, White is to move, to 3 or an exit that wins in 6. Each wins within 6, so within 7: 16. For
///   Black: White plays the exit: 5.
/// - 8, Black is to move, to 7 or 9 or an exit that Black wins in 2. For White: Black plays the
///   exit: 5. For Black: the exit, 1 + 2 plies: 8.
/// - 9, White is stalemated: 1 for both.
const TEN_WHITE: [u32; 10] = [2, 0, 4, 14, 16, 1, 1, 16, 5, 1];

const TEN_BLACK: [u32; 10] = [3, 0, 5, 7, 5, 7, 5, 5, 8, 1];

/// A run of the game of ten numbers for the side leaves these entries.
fn check_run<L: Ledger, R: Abort>(
    rt: &R,
    shop: &mut Workshop,
    side: Colour,
    wanted: &[u32; 10],
    steps: &mut Steps<L>,
)
    requires { length shop.old ≡ 10 }
    ensures { length shop.new ≡ 10 }
{
    shop.run(&Ten::new(), side, steps);
    expect_equal(rt, &shop.entries(), &wanted.as_slice(), "entries");
}

/// Each run of the one workshop leaves its own side's list, whatever the runs before it left.
fn solve_ten<L: Ledger, R: Abort>(rt: &R, alloc: Global, blank: Blank) -> Result<(), Fail>
    requires name { blank.name ≡ L.name }
    requires parts { blank.parts ≡ L.parts }
    requires some { 0 < blank.parts }
{
    let mut steps = Steps::<L>::new(blank);
    let mut shop = Workshop::new(alloc, 10)?;
    check_run(rt, &mut shop, Colour::White, &TEN_WHITE, &mut steps);
    check_run(rt, &mut shop, Colour::Black, &TEN_BLACK, &mut steps);
    check_run(rt, &mut shop, Colour::Black, &TEN_BLACK, &mut steps);
    check_run(rt, &mut shop, Colour::White, &TEN_WHITE, &mut steps);
    Ok(())
}

#[test]
fn solves_ten_numbers(rt: HostRuntime) -> Result<(), Fail> {
    let blank = Blank::new(1);
    solve_ten::<Brand, _>(&rt, rt.alloc(), blank)
}

/// Both solvers leave the same lists for each of these.
fn agree_on<L: Ledger, R: Abort>(
    rt: &R,
    alloc: Global,
    texts: &[&'static str],
    blank: Blank,
) -> Result<(), Fail>
    requires name { blank.name ≡ L.name }
    requires parts { blank.parts ≡ L.parts }
    requires some { 0 < blank.parts }
{
    let mut steps = Steps::<L>::new(blank);
    for text in texts {
        expect_holds(rt, agrees(alloc, text, &mut steps)?, text);
    }
    Ok(())
}

const FEW_MEN: &[&str] = &[
    ROOK,
    WIN,
    LONG_WIN,
    SHORT_ROOK,
    FORBIDDEN,
    ROOKS,
    DRAWN_KINGS,
    STALEMATE,
    TARGET,
    KINDS,
    NUMBERING,
    TWO_GROUPS,
    KNIGHTS,
    THREE,
];

#[test]
fn agrees_on_few_men(rt: HostRuntime) -> Result<(), Fail> {
    let blank = Blank::new(1);
    agree_on::<Brand, _>(&rt, rt.alloc(), FEW_MEN, blank)
}

#[test]
fn agrees_on_pawns(rt: HostRuntime) -> Result<(), Fail> {
    let texts = [PROMOTING, PAWNS, BOTH_TARGETS];
    let blank = Blank::new(1);
    agree_on::<Brand, _>(&rt, rt.alloc(), &texts, blank)
}

#[test]
fn agrees_on_groups(rt: HostRuntime) -> Result<(), Fail> {
    let texts = [CROWD, MIXED, BLACK_FIRST];
    let blank = Blank::new(1);
    agree_on::<Brand, _>(&rt, rt.alloc(), &texts, blank)
}

#[test]
fn agrees_on_blocked_pawns(rt: HostRuntime) -> Result<(), Fail> {
    let blank = Blank::new(1);
    agree_on::<Brand, _>(&rt, rt.alloc(), &[BLOCKED], blank)
}

#[test]
fn agrees_on_exits(rt: HostRuntime) -> Result<(), Fail> {
    let blank = Blank::new(1);
    agree_on::<Brand, _>(&rt, rt.alloc(), &[EXITS], blank)
}
