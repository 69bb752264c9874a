//! The moves of numbers.
ghost use Rattle.std.specs.Prelude.{◌≡◌, ◌<◌};

use crate::expect::{expect_equal, expect_holds};
use crate::texts::ROOK;
use frz_board::Colour::Black;
use frz_exits::RuleBook;
use frz_game::{Arm, Game, Next, NextList, Node};
use frz_index::Set;
use frz_rules::read_rules;
use frz_sets::Value;
use frz_steps::Steps;
use std::alloc::Global;
use std::marker::Brand;
use std::process::Abort;
use std::sync::ledger::{Blank, Ledger};
use std::test::Fail;

/// Do the moves, all of them free, lead there?
fn are_free_to(arms: &[Arm], nexts: &[Next]) -> bool {
    if arms.len() != nexts.len() {
        return false;
    }
    for i in 0..nexts.len() {
        if !arms[i].free || arms[i].next != nexts[i] {
            return false;
        }
    }
    true
}

/// The number is this node, and its moves, all of them free, lead there.
fn check_number<L: Ledger, R: Abort>(
    rt: &R,
    game: &Game<'_, RuleBook<'_>>,
    number: u32,
    node: Node,
    nexts: &[Next],
    steps: &mut Steps<L>,
) {
    let mut list = NextList::new();
    let given = game.nexts(number, &mut list, steps);
    expect_equal(rt, &given, &node, "node");
    expect_holds(rt, are_free_to(list.as_slice(), nexts), &number);
}

/// A number, its node and where its moves lead.
const ROWS: &[(u32, Node, &[Next])] = &[
    (4, Node::Going(Black), &[Next::Inside(1)]),
    (
        5,
        Node::Going(Black),
        &[Next::Inside(0), Next::Outside(Value::Unknown)],
    ),
    (6, Node::Mate(Black), &[]),
    (2, Node::Broken, &[]),
];

/// The numbers of the rows are as they say.
fn check_rows<L: Ledger, R: Abort>(rt: &R, game: &Game<'_, RuleBook<'_>>, steps: &mut Steps<L>) {
    for (number, node, nexts) in ROWS {
        check_number(rt, game, *number, *node, nexts, steps);
    }
}

fn look_at_numbers<L: Ledger, R: Abort>(rt: &R, alloc: Global, blank: Blank) -> Result<(), Fail>
    requires name { blank.name ≡ L.name }
    requires parts { blank.parts ≡ L.parts }
    requires some { 0 < blank.parts }
{
    let rules = read_rules(alloc, ROOK.as_bytes())?;
    let set = Set::new(alloc, &rules)?;
    let book = RuleBook::new(&rules);
    let game = Game {
        set: &set,
        rules: &rules,
        book: &book,
    };
    check_rows(rt, &game, &mut Steps::<L>::new(blank));
    Ok(())
}

#[test]
fn numbers_of_rook_and_king(rt: HostRuntime) -> Result<(), Fail> {
    let blank = Blank::new(1);
    look_at_numbers::<Brand, _>(&rt, rt.alloc(), blank)
}
