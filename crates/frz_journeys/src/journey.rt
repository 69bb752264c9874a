//! Plays a journey: a line or a session over a table and those behind it.
ghost use Rattle.std.specs.Prelude.{◌≡◌, ◌≤◌, ◌<◌, ◌↔◌, ℕ, List, map, true, Err};
ghost use Rattle.frz_board.specs.Boards.{Board};
ghost use Rattle.frz_fide.specs.Valid.{IsValid};
ghost use Rattle.frz_index.specs.Members.{HasNumber, Member};
ghost use Rattle.frz_store.specs.Told.{source_of, sink_of};
ghost use Rattle.frz_answer.specs.Answers.{IsLines};
ghost use Rattle.frz_table.specs.Tables.{table_size};
ghost use Rattle.frz_backs.specs.Loaded.{link_loaded};
ghost use Rattle.frz_ways.specs.declared.end.LineFault.TheVariants as faults;
ghost use Rattle.frz_ways.specs.declared.opponent.Opponent.TheVariants as opponents;
ghost use Rattle.frz_ways.specs.declared.session_end.PlayFault.TheVariants.{Line};
ghost use Rattle.frz_ways.specs.declared.session_end.TheConstants.{MOST_LINES};
ghost use Rattle.frz_ways.specs.SessionFaults.{WroteBy, InputCause, MayHold, TookBytes};
ghost use Rattle.frz_ways.specs.Hearing.{HasEnded, StaysEnded};
ghost use Rattle.frz_ways.specs.PlayLoaded.{IsSettled};
ghost use Rattle.frz_ways.specs.WayEnds.{IsAnswerOf, ended};
ghost use Rattle.frz_journeys.specs.JourneyTexts.{IsSmall};
ghost use Rattle.frz_journeys.specs.Playing.{PlaysJourney, TellsJourney};

use crate::onward::{Entry, onward};
use crate::place::{Arrival, Place};
use crate::stage::play_stage;
use frz_board::Position;
use frz_chain::BackTable;
use frz_steps::Steps;
use frz_store::{Sink, Source};
use frz_ways::laws::ways::ways_are_games;
use frz_ways::{Finish, LineFault, PlayFault, Player, Reader, end_answer};
use std::sync::ledger::Ledger;

/// Where a journey arrives that finished so at the table of this place.
fn arrived(place: Place, finish: Result<Finish, PlayFault>) -> Arrival
    ensures { result ≡ record { place = place; answer = ended finish } }
{
    Arrival {
        place,
        answer: end_answer(finish),
    }
}

/// Plays on at the table of this place from the number `start`, behind the line of the place, and
/// wherever the side comes out of its set into that of a table before it.
fn play_on<I: Source, O: Sink, L: Ledger>(
    table: &BackTable,
    before: &[BackTable],
    place: Place,
    player: Player,
    start: u32,
    reader: &mut Reader,
    input: &mut I,
    out: &mut O,
    steps: &mut Steps<L>,
) -> Arrival
    requires inside { start < table_size table.now.table }
    requires small { IsSmall place }
    requires ended { reader.old.ended ≡ true → HasEnded (source_of I.Source input.old) }
    requires few { reader.old.more ≤ MOST_LINES }
    ensures played { (text bytes : List ℕ) × IsLines text
        × WroteBy result.answer text (sink_of O.Sink out.old) (sink_of O.Sink out.new)
        × TookBytes bytes (source_of I.Source input.old) (source_of I.Source input.new)
        × StaysEnded reader.old reader.new bytes
        × ((p : Board) → HasNumber table.now.table.rules.groups start p →
        PlaysJourney player.opponent player.side (map link_loaded before.now)
        (link_loaded table.now) place p reader.old reader.new bytes text result
        steps.old steps.new) }
    ensures still_ended { reader.new.ended ≡ true → HasEnded (source_of I.Source input.new) }
    ensures no_more { reader.new.more ≤ reader.old.more }
    ensures kind { IsAnswerOf result.answer player.opponent }
    ensures settled { IsSettled result.answer }
    ensures unread { player.opponent ≡ opponents.Codes → input.new ≡ input.old }
    ensures input { InputCause result.answer (source_of I.Source input.old)
        (source_of I.Source input.new) }
    ensures later { steps.old ≤ steps.new }
{
    ways_are_games();
    let finish = play_stage(
        table, before, place, player, start, reader, input, out, steps,
    );
    match onward(table, before, &finish) {
        None => arrived(place, finish),
        Some(Entry { place: at, number }) => {
            prove!(at < before.len());
            let next = &before[at];
            let earlier = &before[..at];
            play_on(
                next,
                earlier,
                Place::Behind(at),
                player,
                number,
                reader,
                input,
                out,
                steps,
            )
        }
    }
}

/// Plays the side from the position by the table and, where it comes out of the table's set into
/// that of one of `backs`, on by this one; and so on. Each of `backs` may lean on those before it.
/// What is played is written as it is played. A position outside the table's own set answers
/// `Outside`: then nothing is written or taken.
pub fn play_journey<I: Source, O: Sink, L: Ledger>(
    table: &BackTable,
    backs: &[BackTable],
    p: &Position,
    player: Player,
    input: &mut I,
    out: &mut O,
    steps: &mut Steps<L>,
) -> Arrival
    requires valid { IsValid p.now }
    ensures outside { (result.answer ≡ Err (Line faults.Outside))
        ↔ (Member table.now.table.rules.groups p.now → ⊥) }
    ensures untouched { result.answer ≡ Err (Line faults.Outside)
        → (input.new ≡ input.old) × (out.new ≡ out.old) × (steps.new ≡ steps.old) }

    // The text and the bytes are those of the journey against some input; where the input's
    // contract says what it holds, against that.
    ensures played { (text bytes whole : List ℕ) × IsLines text
        × WroteBy result.answer text (sink_of O.Sink out.old) (sink_of O.Sink out.new)
        × TookBytes bytes (source_of I.Source input.old) (source_of I.Source input.new)
        × MayHold (source_of I.Source input.old) whole
        × TellsJourney player.opponent player.side (map link_loaded backs.now)
        (link_loaded table.now) p.now whole bytes text result steps.old steps.new }
    ensures kind { IsAnswerOf result.answer player.opponent }
    ensures unread { player.opponent ≡ opponents.Codes → input.new ≡ input.old }
    ensures input { InputCause result.answer (source_of I.Source input.old)
        (source_of I.Source input.new) }
    ensures later { steps.old ≤ steps.new }
{
    let Some(start) = table.table.set().number(p) else {
        return Arrival {
            place: Place::Own,
            answer: Err(PlayFault::Line(LineFault::Outside)),
        };
    };
    let mut reader = Reader::new();
    play_on(
        table,
        backs,
        Place::Own,
        player,
        start,
        &mut reader,
        input,
        out,
        steps,
    )
}
