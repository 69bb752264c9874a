//! The way on which a side fails, played and written.
ghost use Rattle.std.specs.Prelude.{◌≡◌, ◌≤◌, ◌<◌, ◌+◌, ◌/◌, length, true, slice_index};
ghost use Rattle.frz_store.specs.Told.{sink_of};
ghost use Rattle.frz_arena.specs.Codes.{is_failure};
ghost use Rattle.frz_reasons.specs.TellingFailures.{TellsFailure};

use crate::laws::failures_are_spoiled;
use crate::reason::Reason;
use crate::texts::write_move;
use crate::turn::{Turn, take_turn};
use frz_board::Colour;
use frz_graph::{Entries, Lists, Next, NumberedGame};
use frz_steps::Steps;
use frz_store::{Failed, Sink};
use std::sync::ledger::Ledger;

/// Plays the way on which the side fails by these codes, from a number whose code is a failure,
/// and answers the reason at its end. The moves are written as they are played, one a line; the end
/// is for the caller to write. At most one step is taken for each number of the way.
pub fn write_failing_way<G: NumberedGame<L>, E: Entries, O: Sink, L: Ledger>(
    game: &G,
    entries: &E,
    side: Colour,
    start: u32,
    out: &mut O,
    steps: &mut Steps<L>,
) -> Result<Reason, Failed>
    requires sound { G.sound game.now }
    requires inside { start < G.count game.now }
    requires many { length (E.codes entries.now side) ≡ G.count game.now }
    requires failing { is_failure (slice_index (E.codes entries.now side) start) ≡ true }
    ensures told { TellsFailure (G.arena game.now) side (E.codes entries.now side) start result
        (sink_of O.Sink out.old) (sink_of O.Sink out.new) }
    ensures few { steps.new ≤ steps.old + slice_index (E.codes entries.now side) start / 2 }
    ensures later { steps.old ≤ steps.new }
{
    failures_are_spoiled();
    let mut lists = Lists::new();
    let mut number = start;
    'plies: loop {
        match take_turn(game, entries, side, number, &mut lists, steps) {
            Turn::Over(reason) => return Ok(reason),
            Turn::Played(arm) => {
                write_move(arm.mv, out)?;
                match arm.next {
                    Next::Inside(next) => number = next,
                    Next::Outside(value) => return Ok(Reason::Left(number, arm.mv, value)),
                }
            }
        }
    }
}
