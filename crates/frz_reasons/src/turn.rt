//! One turn of a failing way: its end at a number, or the move that is due there.
ghost use Rattle.std.specs.Prelude.{◌≡◌, ◌≤◌, ◌<◌, ◌+◌, ℕ, length, true, IfSome, IsNone, slice_index};
ghost use Rattle.frz_arena.specs.Codes.{is_failure};
ghost use Rattle.frz_reasons.specs.Places as words;
ghost use Rattle.frz_reasons.specs.Places.{IsOneAt};
ghost use Rattle.frz_reasons.specs.Turns.{IsTurnAt};

use crate::laws::failures_are_spoiled;
use crate::looking::look;
use crate::reason::Reason;
use frz_arena::Node;
use frz_board::Colour;
use frz_graph::{Arm, CodeList, Entries, Lists, NextList, NumberedGame};
use frz_steps::Steps;
use std::sync::ledger::Ledger;

/// What a failing way does at a number.
#[derive(Clone, Copy)]
pub enum Turn {
    Over(Reason),
    Played(Arm),
}

/// May the move be played, and has it this code? `own` says whether the side itself moves, which may
/// play free moves only.
fn is_one(own: bool, arm: Arm, code: u32, found: u32) -> bool
    ensures { result ≡ words.is_one own arm.free code found }
{
    (!own || arm.free) && found == code
}

/// The place of the first move of this code that may be played.
fn first_with(own: bool, code: u32, list: &NextList, codes: &CodeList) -> Option<usize>
    requires { length codes.now.items ≡ length list.now.items }
    ensures some { IfSome result (IsOneAt own code list.now.items codes.now.items) }
    ensures first { IfSome result (λ i. (j : ℕ) → j < i →
        IsOneAt own code list.now.items codes.now.items j → ⊥) }
    ensures none { IsNone result → (j : ℕ) →
        IsOneAt own code list.now.items codes.now.items j → ⊥ }
{
    for place in 0..list.len() {
        if is_one(own, list[place], code, codes[place]) {
            return Some(place);
        }
    }
    None
}

/// The turn at a number whose kept code is a failure. It takes one step at most. The lists are room
/// to work in.
pub fn take_turn<G: NumberedGame<L>, E: Entries, L: Ledger>(
    game: &G,
    entries: &E,
    side: Colour,
    number: u32,
    lists: &mut Lists,
    steps: &mut Steps<L>,
) -> Turn
    requires sound { G.sound game.now }
    requires inside { number < G.count game.now }
    requires many { length (E.codes entries.now side) ≡ G.count game.now }
    requires failing { is_failure (slice_index (E.codes entries.now side) number) ≡ true }
    ensures turn { IsTurnAt (G.arena game.now) side (E.codes entries.now side) number result }
    ensures step { steps.new ≤ steps.old + 1 }
    ensures later { steps.old ≤ steps.new }
{
    failures_are_spoiled();
    match look(game, entries, side, number, lists, steps) {
        Err(wrong) => Turn::Over(Reason::Wrong(wrong)),
        Ok(Node::Going(mover)) => {
            let code = entries.entry(side, number) - 2;
            match first_with(mover.is_same(side), code, &lists.nexts, &lists.codes) {
                Some(place) => Turn::Played(lists.nexts[place]),
                None => Turn::Over(Reason::Renounced),
            }
        }
        Ok(Node::Mate(_)) => Turn::Over(Reason::Mated),
        Ok(Node::Stalemate(_)) => unreachable!(),
        Ok(Node::Broken) => unreachable!(),
    }
}
