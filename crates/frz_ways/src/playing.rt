//! One turn of a way: a ply is played at a number, or the way ends there.
ghost use Rattle.std.specs.Prelude.{◌≡◌, ◌<◌, ℕ, List, length, true};
ghost use Rattle.frz_store.specs.Told.{SinkTold, source_of, sink_of};
ghost use Rattle.frz_answer.specs.Texts.{WroteText};
ghost use Rattle.frz_arena.specs.Chosen.{IsFound};
ghost use Rattle.frz_arena.specs.Choices.{has_code};
ghost use Rattle.frz_arena.specs.Codes.{is_win};
ghost use Rattle.frz_arena.specs.declared.choice.Choice.{Choice as Seen};
ghost use Rattle.frz_ways.specs.SeenMoves.{choices_by};
ghost use Rattle.frz_ways.specs.SessionFaults.{InputCause};
ghost use Rattle.frz_ways.specs.Hearing.{HasEnded};
ghost use Rattle.frz_ways.specs.declared.opponent.Opponent.TheVariants as opponents;
ghost use Rattle.frz_ways.specs.Turns.{opening, turn_of, by_codes, Answers, PlaysAt, PlaysByCodes, PlaysReply, HasMove, IsPlayed};

use crate::choosing::place_for;
use crate::due::Due;
use crate::end::LineFault;
use crate::hearing::{Heard, Reader, Why, hear};
use crate::opponent::{Opponent, Player};
use crate::session_end::PlayFault;
use crate::texts::write_moved;
use crate::way_end::WayEnd;
use frz_answer::write_piece;
use frz_board::{Colour, Move};
use frz_bound_lines::write_kept_line;
use frz_game::Wrong;
use frz_graph::{Lists, Next};
use frz_sets::Value;
use frz_store::{Failed, Sink, Source};

/// Where a way has come to: a number, the code that the table file keeps for the side there, and
/// how many plies were played before.
#[derive(Clone, Copy)]
pub struct Cursor {
    pub number: u32,
    pub code: u32,
    pub played: u32,
}

/// How a way goes on after a turn.
#[derive(Clone, Copy)]
pub enum Turn {
    Over(WayEnd),
    /// A move left the set, to a position with this value.
    Out(Move, Value),
    /// At this number, with the code that was read for it.
    On(u32, u32),
}

/// Writes the line of the side's bound before the first ply, unless the start is refused.
pub fn write_opening<O: Sink>(
    side: Colour,
    cursor: Cursor,
    due: Due,
    out: &mut O,
) -> Result<(), Failed>
    ensures { WroteText (opening side cursor due) result
        (sink_of O.Sink out.old) (sink_of O.Sink out.new) }
{
    match due {
        Due::Wrong(_) | Due::NoBound => Ok(()),
        _ => {
            if cursor.played == 0 {
                return write_kept_line(side, cursor.code, out);
            }
            Ok(())
        }
    }
}

/// The answer `turn`, once its text was written.
fn answered(turn: Turn, written: Result<(), Failed>) -> Result<Turn, PlayFault>
    ensures { (text : List ℕ) (old new : SinkTold) → WroteText text written old new
        → Answers turn text result old new }
{
    match written {
        Ok(()) => Ok(turn),
        Err(failed) => Err(failed.into()),
    }
}

fn turn_to(mv: Move, next: Next, code: u32) -> Turn
    ensures { result ≡ turn_of mv next code }
{
    match next {
        Next::Inside(number) => Turn::On(number, code),
        Next::Outside(value) => Turn::Out(mv, value),
    }
}

/// Plays the move at this place of the list, and writes it behind `word`.
fn play_at<O: Sink>(
    word: &[u8],
    place: usize,
    lists: &Lists,
    out: &mut O,
) -> Result<Turn, PlayFault>
    requires there { place < length lists.now.nexts.items }
    requires many { length lists.now.codes.items ≡ length lists.now.nexts.items }
    ensures { PlaysAt word.now place lists.now.nexts.items lists.now.codes.items result
        (sink_of O.Sink out.old) (sink_of O.Sink out.new) }
{
    let arm = lists.nexts[place];
    answered(
        turn_to(arm.mv, arm.next, lists.codes[place]),
        write_moved(word, arm, out),
    )
}

/// Do the codes find this ply? `own` says whether the side itself moves.
fn goes_by_codes(opponent: Opponent, own: bool) -> bool
    ensures { result ≡ by_codes opponent own }
{
    match opponent {
        Opponent::Codes => true,
        Opponent::Input => own,
    }
}

/// Plays the move that the kept code asks for. A session writes `move` before it, a line nothing.
fn play_by_codes<O: Sink>(
    opponent: Opponent,
    own: bool,
    cursor: Cursor,
    lists: &Lists,
    out: &mut O,
) -> Result<Turn, PlayFault>
    requires many { length lists.now.codes.items ≡ length lists.now.nexts.items }
    requires there { (i : ℕ) × (x : Seen) × IsFound has_code (is_win cursor.code) cursor.code
        (choices_by own lists.now.nexts.items lists.now.codes.items) i x }
    ensures { PlaysByCodes opponent own cursor lists.now.nexts.items lists.now.codes.items result
        (sink_of O.Sink out.old) (sink_of O.Sink out.new) }
{
    let place = place_for(own, cursor.code, &lists.nexts, &lists.codes);
    match opponent {
        Opponent::Codes => play_at(b"", place, lists, out),
        Opponent::Input => play_at(b"move ", place, lists, out),
    }
}

/// Plays the reply of the opponent that the input says, or ends the way where it says none.
fn play_reply<I: Source, O: Sink>(
    lists: &Lists,
    reader: &mut Reader,
    input: &mut I,
    out: &mut O,
) -> Result<Turn, PlayFault>
    requires many { length lists.now.codes.items ≡ length lists.now.nexts.items }
    requires ended { reader.old.ended ≡ true → HasEnded (source_of I.Source input.old) }
    ensures played { PlaysReply lists.now.nexts.items lists.now.codes.items reader.old reader.new
        result (source_of I.Source input.old) (source_of I.Source input.new)
        (sink_of O.Sink out.old) (sink_of O.Sink out.new) }
    ensures cause { InputCause result (source_of I.Source input.old)
        (source_of I.Source input.new) }
{
    match hear(&lists.nexts, reader, input, out)? {
        Heard::Reply(place) => play_at(b"reply ", place, lists, out),
        Heard::Stop(Why::Limit(limit)) => Err(PlayFault::Limit(limit)),
        Heard::Stop(Why::Ended) => answered(
            Turn::Over(WayEnd::InputEnded),
            write_piece(b"input ended\n", out),
        ),
    }
}

/// Plays the ply that is due, or ends the way.
pub fn play<I: Source, O: Sink>(
    player: Player,
    cursor: Cursor,
    due: Due,
    lists: &Lists,
    reader: &mut Reader,
    input: &mut I,
    out: &mut O,
) -> Result<Turn, PlayFault>
    requires many { length lists.now.codes.items ≡ length lists.now.nexts.items }
    requires there { HasMove player.side cursor due lists.now.nexts.items lists.now.codes.items }
    requires ended { reader.old.ended ≡ true → HasEnded (source_of I.Source input.old) }
    ensures played { IsPlayed player.opponent player.side cursor due lists.now.nexts.items
        lists.now.codes.items reader.old reader.new result
        (source_of I.Source input.old) (source_of I.Source input.new)
        (sink_of O.Sink out.old) (sink_of O.Sink out.new) }
    ensures unread { player.opponent ≡ opponents.Codes → input.new ≡ input.old }
    ensures cause { InputCause result (source_of I.Source input.old)
        (source_of I.Source input.new) }
{
    match due {
        Due::Wrong(given) => Err(PlayFault::Line(LineFault::Wrong(Wrong {
            side: player.side,
            number: cursor.number,
            kept: cursor.code,
            given,
        }))),
        Due::NoBound => Err(PlayFault::Line(LineFault::NoBound)),
        Due::Mate(_) => answered(Turn::Over(WayEnd::Mate), write_piece(b"mate\n", out)),
        Due::Stalemate(_) => answered(
            Turn::Over(WayEnd::Stalemate),
            write_piece(b"stalemate\n", out),
        ),
        Due::Cut => answered(Turn::Over(WayEnd::Cut), write_piece(b"cut\n", out)),
        Due::Ply(mover) => {
            let own = mover.is_same(player.side);
            if goes_by_codes(player.opponent, own) {
                return play_by_codes(player.opponent, own, cursor, lists, out);
            }
            play_reply(lists, reader, input, out)
        }
    }
}
