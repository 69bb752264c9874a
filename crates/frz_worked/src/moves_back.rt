//! Moves taken back: worked rows, and the converse of the moves of all numbers.
ghost use Rattle.std.specs.Prelude.{◌≡◌, ◌<◌};

use crate::expect::expect_holds;
use crate::numbers::set_of;
use crate::texts::{BOTH_TARGETS, KNIGHTS, PAWNS, PROMOTING, ROOK, TARGET, THREE};
use frz_board::{Move, move_text};
use frz_exits::RuleBook;
use frz_game::{Arm, Game, Next, NextList};
use frz_index::Set;
use frz_rules::read_rules;
use frz_steps::Steps;
use frz_unmove::{Pred, Preds, unmoves};
use std::alloc::Global;
use std::marker::Brand;
use std::process::Abort;
use std::sync::ledger::{Blank, Ledger};
use std::test::Fail;

/// A text, a number, and its one move back: the number that it is a move of, and its text.
type Row = (&'static str, u32, u32, &'static str);

const ROWS: &[Row] = &[
    (ROOK, 7, 1, "h1h8"),
    (ROOK, 0, 5, "b8a8"),
    (TARGET, 6, 9, "e5d6"),
];

/// Is this the one move back of the row, and no other?
fn is_one(items: &[Pred], row: &Row) -> bool {
    match items {
        [pred] => pred.number == row.2 && move_text(pred.mv).as_str() == row.3,
        _ => false,
    }
}

/// The moves back of the number of the row are its one.
fn check_number<L: Ledger, R: Abort>(
    rt: &R,
    set: &Set,
    row: &Row,
    out: &mut Preds,
    steps: &mut Steps<L>,
) {
    if set.at(row.1).is_some() {
        unmoves(set, row.1, out, steps);
    }
    expect_holds(rt, is_one(out.items(), row), &row.1);
}

fn check_row<L: Ledger, R: Abort>(
    rt: &R,
    alloc: Global,
    row: &Row,
    steps: &mut Steps<L>,
) -> Result<(), Fail> {
    let set = set_of(alloc, row.0)?;
    let mut out = Preds::new(alloc)?;
    check_number(rt, &set, row, &mut out, steps);
    Ok(())
}

fn is_inside(arm: &Arm) -> bool {
    matches!(arm.next, Next::Inside(_))
}

fn leads_to(arm: &Arm, mv: Move, q: u32) -> bool {
    match arm.next {
        Next::Inside(n) => n == q && arm.mv == mv,
        Next::Outside(_) => false,
    }
}

/// How many moves of the number lead to a number.
fn moves_on<L: Ledger>(
    game: &Game<'_, RuleBook<'_>>,
    i: u32,
    list: &mut NextList,
    steps: &mut Steps<L>,
) -> usize {
    game.nexts(i, list, steps);
    list.iter().filter(|arm| is_inside(arm)).count()
}

/// Is the move among those of its number, and does it lead there?
fn is_move<L: Ledger>(
    game: &Game<'_, RuleBook<'_>>,
    pred: Pred,
    q: u32,
    list: &mut NextList,
    steps: &mut Steps<L>,
) -> bool {
    game.nexts(pred.number, list, steps);
    list.iter().any(|arm| leads_to(arm, pred.mv, q))
}

/// Are these moves of their numbers, and do they lead there?
fn are_moves<L: Ledger>(
    game: &Game<'_, RuleBook<'_>>,
    items: &[Pred],
    q: u32,
    list: &mut NextList,
    steps: &mut Steps<L>,
) -> bool {
    for pred in items {
        if !is_move(game, *pred, q, list, steps) {
            return false;
        }
    }
    true
}

/// How many moves back the number has, if each is a move of its number that leads there.
fn moves_back<L: Ledger>(
    game: &Game<'_, RuleBook<'_>>,
    q: u32,
    out: &mut Preds,
    list: &mut NextList,
    steps: &mut Steps<L>,
) -> Option<usize> {
    if game.set.at(q).is_none() {
        return Some(0);
    }
    unmoves(game.set, q, out, steps);
    if are_moves(game, out.items(), q, list, steps) {
        Some(out.items().len())
    } else {
        None
    }
}

/// How many moves the numbers have that lead to numbers, and how many moves back.
fn count_moves<L: Ledger>(
    alloc: Global,
    game: &Game<'_, RuleBook<'_>>,
    steps: &mut Steps<L>,
) -> Result<(usize, usize), Fail> {
    let mut out = Preds::new(alloc)?;
    let mut list = NextList::new();
    let mut on: usize = 0;
    let mut back: usize = 0;
    for i in 0..game.set.size() {
        on = on.saturating_add(moves_on(game, i, &mut list, steps));
        let more = moves_back(game, i, &mut out, &mut list, steps).ok_or("no such move")?;
        back = back.saturating_add(more);
    }
    Ok((on, back))
}

/// The moves back of all numbers are the moves on of all numbers: each is one, and there are as
/// many.
fn check_game<L: Ledger, R: Abort>(
    rt: &R,
    alloc: Global,
    text: &str,
    game: &Game<'_, RuleBook<'_>>,
    steps: &mut Steps<L>,
) -> Result<(), Fail> {
    let (on, back) = count_moves(alloc, game, steps)?;
    expect_holds(rt, on == back && on > 0, &(on, back, text));
    Ok(())
}

/// The moves back of all numbers of the text are the moves on of all of them.
fn check_all<L: Ledger, R: Abort>(
    rt: &R,
    alloc: Global,
    text: &str,
    steps: &mut Steps<L>,
) -> Result<(), Fail> {
    let rules = read_rules(alloc, text.as_bytes())?;
    let set = Set::new(alloc, &rules)?;
    let book = RuleBook::new(&rules);
    let game = Game {
        set: &set,
        rules: &rules,
        book: &book,
    };
    check_game(rt, alloc, text, &game, steps)
}

fn find_rows<L: Ledger, R: Abort>(rt: &R, alloc: Global, blank: Blank) -> Result<(), Fail>
    requires name { blank.name ≡ L.name }
    requires parts { blank.parts ≡ L.parts }
    requires some { 0 < blank.parts }
{
    let mut steps = Steps::<L>::new(blank);
    for row in ROWS {
        check_row(rt, alloc, row, &mut steps)?;
    }
    Ok(())
}

#[test]
fn takes_moves_back(rt: HostRuntime) -> Result<(), Fail> {
    let blank = Blank::new(1);
    find_rows::<Brand, _>(&rt, rt.alloc(), blank)
}

fn find_converse<L: Ledger, R: Abort>(rt: &R, alloc: Global, blank: Blank) -> Result<(), Fail>
    requires name { blank.name ≡ L.name }
    requires parts { blank.parts ≡ L.parts }
    requires some { 0 < blank.parts }
{
    let mut steps = Steps::<L>::new(blank);
    for text in [PROMOTING, BOTH_TARGETS, THREE, KNIGHTS, TARGET, PAWNS, ROOK] {
        check_all(rt, alloc, text, &mut steps)?;
    }
    Ok(())
}

#[test]
fn takes_all_moves_back(rt: HostRuntime) -> Result<(), Fail> {
    let blank = Blank::new(1);
    find_converse::<Brand, _>(&rt, rt.alloc(), blank)
}
