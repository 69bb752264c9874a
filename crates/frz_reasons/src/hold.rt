//! How a win is denied to a side that holds, found and written.
ghost use Rattle.std.specs.Prelude.{◌≡◌, ◌≤◌, ◌<◌, ◌+◌, All, filter, length, slice_index};
ghost use Rattle.frz_store.specs.Told.{sink_of};
ghost use Rattle.frz_answer.specs.Texts.{WroteText};
ghost use Rattle.frz_graph.specs.EntryCodes.{next_code, IsWithin};
ghost use Rattle.frz_reasons.specs.Denials.{first_denying as first_of, is_denied, other_denials, IsReplyTo};
ghost use Rattle.frz_reasons.specs.ReasonTexts.{denials_text};
ghost use Rattle.frz_reasons.specs.TellingDenials.{TellsDenials, TellsOwn};

use crate::denial::Denial;
use crate::looking::look;
use crate::texts::write_denial;
use frz_arena::{Node, is_win};
use frz_board::{Colour, Move};
use frz_game::Wrong;
use frz_graph::laws::within;
use frz_graph::{Arm, Entries, Lists, Next, NumberedGame, exit_code};
use frz_steps::Steps;
use frz_store::{Failed, Sink};
use std::sync::ledger::Ledger;

/// The code for the side where a move leads.
fn code_behind<E: Entries>(side: Colour, next: Next, entries: &E) -> u32
    requires { IsWithin (length (E.codes entries.now side)) next }
    ensures { result ≡ next_code side (E.codes entries.now side) next }
{
    match next {
        Next::Inside(number) => entries.entry(side, number),
        Next::Outside(value) => exit_code(value, side),
    }
}

/// Has the side no win behind the move?
fn denies<E: Entries>(side: Colour, arm: Arm, entries: &E) -> bool
    requires { IsWithin (length (E.codes entries.now side)) arm.next }
    ensures { result ≡ is_denied side (E.codes entries.now side) arm }
{
    !is_win(code_behind(side, arm.next, entries))
}

/// The first of these moves that denies the side a win.
fn first_denying<E: Entries>(side: Colour, entries: &E, arms: &[Arm]) -> Option<Move>
    requires { All (λ a. IsWithin (length (E.codes entries.now side)) a.next) arms.now }
    ensures { result ≡ first_of side (E.codes entries.now side) arms.now }
{
    match arms {
        [] => None,
        [arm, rest @ ..] => {
            if denies(side, *arm, entries) {
                return Some(arm.mv);
            }
            first_denying(side, entries, rest)
        }
    }
}

/// The reply to a move of the side that leads there, or the wrong entry to which it leads. It takes
/// one step at most. The lists are room to work in.
fn reply_to<G: NumberedGame<L>, E: Entries, L: Ledger>(
    game: &G,
    entries: &E,
    side: Colour,
    next: Next,
    lists: &mut Lists,
    steps: &mut Steps<L>,
) -> Result<Option<Move>, Wrong>
    requires sound { G.sound game.now }
    requires inside { IsWithin (G.count game.now) next }
    requires many { length (E.codes entries.now side) ≡ G.count game.now }
    ensures reply { IsReplyTo (G.arena game.now) side (E.codes entries.now side) next result }
    ensures step { steps.new ≤ steps.old + 1 }
    ensures later { steps.old ≤ steps.new }
{
    let Next::Inside(number) = next else {
        return Ok(None);
    };
    within();
    look(game, entries, side, number, lists, steps)?;
    Ok(first_denying(side, entries, &lists.nexts))
}

/// Writes how each free move among these is denied to win, up to one that leads to a wrong entry,
/// which is answered. It takes at most one step for each move.
fn write_own<G: NumberedGame<L>, E: Entries, O: Sink, L: Ledger>(
    game: &G,
    entries: &E,
    side: Colour,
    arms: &[Arm],
    lists: &mut Lists,
    out: &mut O,
    steps: &mut Steps<L>,
) -> Result<Option<Wrong>, Failed>
    requires sound { G.sound game.now }
    requires inside { All (λ a. IsWithin (G.count game.now) a.next) arms.now }
    requires many { length (E.codes entries.now side) ≡ G.count game.now }
    ensures told { TellsOwn (G.arena game.now) side (E.codes entries.now side)
        (filter (λ a. a.free) arms.now) result
        (sink_of O.Sink out.old) (sink_of O.Sink out.new) }
    ensures few { steps.new ≤ steps.old + length arms.now }
    ensures later { steps.old ≤ steps.new }
{
    match arms {
        [] => Ok(None),
        [arm, rest @ ..] => {
            if !arm.free {
                return write_own(game, entries, side, rest, lists, out, steps);
            }
            match reply_to(game, entries, side, arm.next, lists, steps) {
                Err(wrong) => Ok(Some(wrong)),
                Ok(reply) => {
                    write_denial(Denial { mv: arm.mv, reply }, out)?;
                    write_own(game, entries, side, rest, lists, out, steps)
                }
            }
        }
    }
}

/// Writes those of these moves of the opponent that deny the side a win.
fn write_other<E: Entries, O: Sink>(
    side: Colour,
    entries: &E,
    arms: &[Arm],
    out: &mut O,
) -> Result<(), Failed>
    requires { All (λ a. IsWithin (length (E.codes entries.now side)) a.next) arms.now }
    ensures { WroteText (denials_text (other_denials side (E.codes entries.now side) arms.now))
        result (sink_of O.Sink out.old) (sink_of O.Sink out.new) }
{
    match arms {
        [] => Ok(()),
        [arm, rest @ ..] => {
            if !denies(side, *arm, entries) {
                return write_other(side, entries, rest, out);
            }
            let denial = Denial {
                mv: arm.mv,
                reply: None,
            };
            write_denial(denial, out)?;
            write_other(side, entries, rest, out)
        }
    }
}

/// Tells how a win is denied to the side at a number where it holds by these codes. Where it is to
/// move, each of its free moves is written on a line, with the first reply behind it after which it
/// has no win; a move that leaves the set has none. Where its opponent is to move, his moves are
/// written after which it has no win. An entry that is wrong ends it and is answered: that of the
/// number itself, or of one to which a move of the side leads.
pub fn write_denials<G: NumberedGame<L>, E: Entries, O: Sink, L: Ledger>(
    game: &G,
    entries: &E,
    side: Colour,
    number: u32,
    out: &mut O,
    steps: &mut Steps<L>,
) -> Result<Option<Wrong>, Failed>
    requires sound { G.sound game.now }
    requires inside { number < G.count game.now }
    requires many { length (E.codes entries.now side) ≡ G.count game.now }
    requires holds { slice_index (E.codes entries.now side) number ≡ 1 }
    ensures told { TellsDenials (G.arena game.now) side (E.codes entries.now side) number result
        (sink_of O.Sink out.old) (sink_of O.Sink out.new) }
    ensures few { steps.new ≤ steps.old + 1 + length ((G.arena game.now).arms number) }
    ensures later { steps.old ≤ steps.new }
{
    within();
    let mut here = Lists::new();
    match look(game, entries, side, number, &mut here, steps) {
        Err(wrong) => Ok(Some(wrong)),
        Ok(Node::Going(mover)) => {
            if mover.is_same(side) {
                let mut lists = Lists::new();
                return write_own(game, entries, side, &here.nexts, &mut lists, out, steps);
            }
            write_other(side, entries, &here.nexts, out)?;
            Ok(None)
        }
        Ok(Node::Stalemate(_)) => Ok(None),
        Ok(Node::Mate(_)) => unreachable!(),
        Ok(Node::Broken) => unreachable!(),
    }
}
