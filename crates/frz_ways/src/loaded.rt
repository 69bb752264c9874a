//! A way by codes in memory, which may be one stage of a longer play.
ghost use Rattle.std.specs.Prelude.{◌≡◌, ◌≤◌, ◌<◌, ℕ, List, length, true};
ghost use Rattle.frz_board.specs.declared.man.Colour.TheVariants.{White};
ghost use Rattle.frz_store.specs.Told.{source_of, sink_of};
ghost use Rattle.frz_answer.specs.Answers.{IsLines};
ghost use Rattle.frz_arena.specs.Turns.{Alternates};
ghost use Rattle.frz_ways.specs.Reads.{HasDifferentArms};
ghost use Rattle.frz_ways.specs.declared.opponent.Opponent.TheVariants as opponents;
ghost use Rattle.frz_ways.specs.declared.session_end.TheConstants.{MOST_LINES};
ghost use Rattle.frz_ways.specs.SessionFaults.{WroteBy, InputCause, TookBytes};
ghost use Rattle.frz_ways.specs.Hearing.{HasEnded, StaysEnded};
ghost use Rattle.frz_ways.specs.PlayLoaded.{IsSettled, PlaysLoaded};
ghost use Rattle.frz_ways.specs.WayEnds.{IsFinishOf};

use crate::hearing::Reader;
use crate::kept_codes::{Loaded, Nowhere};
use crate::opponent::Player;
use crate::session_end::PlayFault;
use crate::way::play_way;
use crate::way_end::Finish;
use frz_graph::{Entries, NumberedGame};
use frz_steps::Steps;
use frz_store::{Sink, Source};
use std::sync::ledger::Ledger;

/// Plays the way of the side from the number `start` by these codes, and writes its text. Where the
/// codes find the opponent's plies, the input is not read. The reader goes on where it was, so that
/// several ways can be played against one input.
pub fn play_loaded<G: NumberedGame<L>, E: Entries, I: Source, O: Sink, L: Ledger>(
    game: &G,
    entries: &E,
    player: Player,
    start: u32,
    reader: &mut Reader,
    input: &mut I,
    out: &mut O,
    steps: &mut Steps<L>,
) -> Result<Finish, PlayFault>
    requires sound { G.sound game.now }
    requires turns { Alternates (G.arena game.now) }
    requires inside { start < G.count game.now }
    requires many { length (E.codes entries.now White) ≡ G.count game.now }
    requires different { HasDifferentArms (G.arena game.now) }
    requires ended { reader.old.ended ≡ true → HasEnded (source_of I.Source input.old) }
    requires few { reader.old.more ≤ MOST_LINES }
    ensures played { (text bytes : List ℕ) × IsLines text
        × WroteBy result text (sink_of O.Sink out.old) (sink_of O.Sink out.new)
        × TookBytes bytes (source_of I.Source input.old) (source_of I.Source input.new)
        × StaysEnded reader.old reader.new bytes
        × PlaysLoaded (G.arena game.now) player.opponent player.side
        (E.codes entries.now player.side) start reader.old reader.new bytes text result
        steps.old steps.new }
    ensures still_ended { reader.new.ended ≡ true → HasEnded (source_of I.Source input.new) }
    ensures no_more { reader.new.more ≤ reader.old.more }
    ensures kind { IsFinishOf result player.opponent }
    ensures settled { IsSettled result }
    ensures unread { player.opponent ≡ opponents.Codes → input.new ≡ input.old }
    ensures input { InputCause result (source_of I.Source input.old)
        (source_of I.Source input.new) }
    ensures later { steps.old ≤ steps.new }
{
    let code = entries.entry(player.side, start);
    let loaded = Loaded { entries };
    let mut nowhere = Nowhere;
    play_way(
        game,
        &loaded,
        &mut nowhere,
        player,
        start,
        code,
        reader,
        input,
        out,
        steps,
    )
}
