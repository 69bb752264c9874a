//! A way as a journey shows it: a line from a hold ends where a number comes again.
ghost use Rattle.std.specs.Prelude.{◌≡◌, ◌≤◌, ◌<◌, ℕ, List, [], length, true, slice_index};
ghost use Rattle.frz_board.specs.declared.man.Colour.TheVariants.{White};
ghost use Rattle.frz_store.specs.Told.{source_of, sink_of};
ghost use Rattle.frz_answer.specs.Answers.{IsLines};
ghost use Rattle.frz_arena.specs.Turns.{Alternates};
ghost use Rattle.frz_ways.specs.Reads.{HasDifferentArms};
ghost use Rattle.frz_ways.specs.declared.opponent.Opponent.TheVariants as opponents;
ghost use Rattle.frz_ways.specs.declared.session_end.TheConstants.{MOST_LINES};
ghost use Rattle.frz_ways.specs.SessionFaults.{WroteBy, InputCause, TookBytes};
ghost use Rattle.frz_ways.specs.Hearing.{HasEnded, StaysEnded};
ghost use Rattle.frz_ways.specs.PlayLoaded.{IsSettled};
ghost use Rattle.frz_ways.specs.Shown.{PlaysShown};
ghost use Rattle.frz_ways.specs.WayEnds.{IsFinishOf};

use crate::end::LINE_LIMIT;
use crate::hearing::Reader;
use crate::kept_codes::{Loaded, Nowhere};
use crate::loaded::play_loaded;
use crate::opponent::{Opponent, Player};
use crate::playing::{Cursor, Turn};
use crate::session_end::PlayFault;
use crate::way::turn;
use crate::way_end::{Finish, WayEnd};
use frz_answer::write_piece;
use frz_graph::{Entries, Lists, NumberedGame};
use frz_steps::Steps;
use frz_store::{Sink, Source};
use std::sync::ledger::Ledger;

/// How many numbers a line from a hold comes to at most.
const MOST_NUMBERS: usize = LINE_LIMIT as usize + 1;

/// Plays the line of the side from the number `start`, a hold, and writes what is shown of it.
fn play_held<G: NumberedGame<L>, E: Entries, I: Source, O: Sink, L: Ledger>(
    game: &G,
    entries: &E,
    player: Player,
    start: u32,
    reader: &mut Reader,
    input: &mut I,
    out: &mut O,
    steps: &mut Steps<L>,
) -> Result<Finish, PlayFault>
    requires sound { G.sound game.now }
    requires turns { Alternates (G.arena game.now) }
    requires inside { start < G.count game.now }
    requires many { length (E.codes entries.now White) ≡ G.count game.now }
    requires different { HasDifferentArms (G.arena game.now) }
    requires ended { reader.old.ended ≡ true → HasEnded (source_of I.Source input.old) }
    requires line { player.opponent ≡ opponents.Codes }
    requires held { slice_index (E.codes entries.now player.side) start ≡ 1 }
    ensures played { (text : List ℕ) × IsLines text
        × WroteBy result text (sink_of O.Sink out.old) (sink_of O.Sink out.new)
        × PlaysShown (G.arena game.now) opponents.Codes player.side
        (E.codes entries.now player.side) start reader.old reader.old [] text result
        steps.old steps.new }
    ensures same { reader.new ≡ reader.old }
    ensures kind { IsFinishOf result opponents.Codes }
    ensures settled { IsSettled result }
    ensures unread { input.new ≡ input.old }
    ensures input { InputCause result (source_of I.Source input.old)
        (source_of I.Source input.new) }
    ensures later { steps.old ≤ steps.new }
{
    let loaded = Loaded { entries };
    let mut nowhere = Nowhere;
    let mut lists = Lists::new();
    let mut seen = [0; MOST_NUMBERS];
    let mut cursor = Cursor {
        number: start,
        code: 1,
        played: 0,
    };
    'plies: loop {
        let many = cursor.played as usize;
        if seen[..many].contains(&cursor.number) {
            write_piece(b"repetition\n", out)?;
            return Ok(Finish::Here(WayEnd::Cut));
        }
        seen[many] = cursor.number;
        match turn(
            game,
            &loaded,
            &mut nowhere,
            player,
            cursor,
            &mut lists,
            reader,
            input,
            out,
            steps,
        )? {
            Turn::Over(end) => return Ok(Finish::Here(end)),
            Turn::Out(mv, value) => return Ok(Finish::Left(cursor.number, mv, value)),
            Turn::On(number, code) => {
                cursor = Cursor {
                    number,
                    code,
                    played: cursor.played + 1,
                };
            }
        }
    }
}

/// Plays the way of the side from the number `start` by these codes, and writes what is shown of
/// it. Where the codes find the opponent's plies, the input is not read. The reader goes on where
/// it was, so that several ways can be played against one input.
pub fn play_shown<G: NumberedGame<L>, E: Entries, I: Source, O: Sink, L: Ledger>(
    game: &G,
    entries: &E,
    player: Player,
    start: u32,
    reader: &mut Reader,
    input: &mut I,
    out: &mut O,
    steps: &mut Steps<L>,
) -> Result<Finish, PlayFault>
    requires sound { G.sound game.now }
    requires turns { Alternates (G.arena game.now) }
    requires inside { start < G.count game.now }
    requires many { length (E.codes entries.now White) ≡ G.count game.now }
    requires different { HasDifferentArms (G.arena game.now) }
    requires ended { reader.old.ended ≡ true → HasEnded (source_of I.Source input.old) }
    requires few { reader.old.more ≤ MOST_LINES }
    ensures played { (text bytes : List ℕ) × IsLines text
        × WroteBy result text (sink_of O.Sink out.old) (sink_of O.Sink out.new)
        × TookBytes bytes (source_of I.Source input.old) (source_of I.Source input.new)
        × StaysEnded reader.old reader.new bytes
        × PlaysShown (G.arena game.now) player.opponent player.side
        (E.codes entries.now player.side) start reader.old reader.new bytes text result
        steps.old steps.new }
    ensures still_ended { reader.new.ended ≡ true → HasEnded (source_of I.Source input.new) }
    ensures no_more { reader.new.more ≤ reader.old.more }
    ensures kind { IsFinishOf result player.opponent }
    ensures settled { IsSettled result }
    ensures unread { player.opponent ≡ opponents.Codes → input.new ≡ input.old }
    ensures input { InputCause result (source_of I.Source input.old)
        (source_of I.Source input.new) }
    ensures later { steps.old ≤ steps.new }
{
    match player.opponent {
        Opponent::Codes => {
            if entries.entry(player.side, start) == 1 {
                return play_held(game, entries, player, start, reader, input, out, steps);
            }
            play_loaded(game, entries, player, start, reader, input, out, steps)
        }
        Opponent::Input => play_loaded(game, entries, player, start, reader, input, out, steps),
    }
}
