//! The loop that plays a way: a line or a session.
ghost use Rattle.std.specs.Prelude.{◌≡◌, ◌⊎◌, ◌≤◌, ◌<◌, ◌+◌, ◌*◌, ℕ, suc, List, true, false, Err, IfOk, Result};
ghost use Rattle.frz_store.specs.Told.{source_of, sink_of, StoreQuiet};
ghost use Rattle.frz_answer.specs.Answers.{IsLines};
ghost use Rattle.frz_answer.specs.World.{spent_by};
ghost use Rattle.frz_arena.specs.Codes.{is_failure};
ghost use Rattle.frz_arena.specs.Turns.{Alternates};
ghost use Rattle.frz_ways.specs.Costs.{arms_reads};
ghost use Rattle.frz_ways.specs.Kept.{MayRead};
ghost use Rattle.frz_ways.specs.Reads.{HasDifferentArms};
ghost use Rattle.frz_ways.specs.declared.end.LineFault.TheVariants as faults;
ghost use Rattle.frz_ways.specs.declared.opponent.Opponent.TheVariants as opponents;
ghost use Rattle.frz_ways.specs.declared.playing.Turn.{Turn};
ghost use Rattle.frz_ways.specs.declared.session_end.PlayFault.{PlayFault};
ghost use Rattle.frz_ways.specs.declared.session_end.PlayFault.TheVariants.{Line};
ghost use Rattle.frz_ways.specs.declared.session_end.TheConstants.{MOST_LINES};
ghost use Rattle.frz_ways.specs.SessionFaults.{WroteBy, StoreCause, InputCause, TookBytes};
ghost use Rattle.frz_ways.specs.Hearing.{HasEnded, StaysEnded};
ghost use Rattle.frz_ways.specs.Turns.{GoesBy, TurnsTo, IsTurnOf};
ghost use Rattle.frz_ways.specs.LineTurns.{Answers, LineTurn};
ghost use Rattle.frz_ways.specs.PlayLoaded.{IsSettled};
ghost use Rattle.frz_ways.specs.PlayWay.{Plays};
ghost use Rattle.frz_ways.specs.WayEnds.{IsFinishOf};

use crate::hearing::Reader;
use crate::kept_codes::KeptCodes;
use crate::opponent::Player;
use crate::playing::{Cursor, Turn, play, write_opening};
use crate::seeing::inspect;
use crate::session_end::PlayFault;
use crate::way_end::Finish;
use frz_graph::laws::filled;
use frz_graph::{Lists, NumberedGame};
use frz_steps::Steps;
use frz_store::{Sink, Source};
use std::sync::ledger::Ledger;

/// Plays one turn: it lists the moves of the number, reads their codes, and plays the ply there or
/// ends the way.
pub fn turn<G: NumberedGame<L>, T: KeptCodes<S>, S, I: Source, O: Sink, L: Ledger>(
    game: &G,
    table: &T,
    store: &mut S,
    player: Player,
    cursor: Cursor,
    lists: &mut Lists,
    reader: &mut Reader,
    input: &mut I,
    out: &mut O,
    steps: &mut Steps<L>,
) -> Result<Turn, PlayFault>
    requires sound { G.sound game.now }
    requires turns { Alternates (G.arena game.now) }
    requires inside { cursor.number < G.count game.now }
    requires many { T.size table.now ≡ G.count game.now }
    requires different { HasDifferentArms (G.arena game.now) }
    requires ready { T.is_ready table.now (T.told store.old).files }
    requires stands { (cursor.played ≡ 0) ⊎ (is_failure cursor.code ≡ false) }
    requires ended { reader.old.ended ≡ true → HasEnded (source_of I.Source input.old) }
    ensures next { IfOk result (TurnsTo (G.arena game.now) (G.count game.now) player.opponent
        player.side cursor reader.old reader.new) }
    ensures kind { IsTurnOf result player.opponent }
    ensures wrote { (text bytes : List ℕ) × IsLines text
        × WroteBy result text (sink_of O.Sink out.old) (sink_of O.Sink out.new)
        × TookBytes bytes (source_of I.Source input.old) (source_of I.Source input.new)
        × StaysEnded reader.old reader.new bytes
        × ((read : List ℕ)
        × MayRead (T.known table.now (T.told store.old).files player.side) (T.size table.now) read
        × ((codes : ℕ → List ℕ) → codes (suc cursor.played) ≡ read
        → GoesBy (G.arena game.now) player.opponent player.side codes cursor reader.old reader.new
        bytes text result)) }
    ensures line { player.opponent ≡ opponents.Codes → IsSettled result
        → (reader.new ≡ reader.old)
        × ((due : Result Turn PlayFault) × (text : List ℕ) × IsLines text
        × Answers due text result (sink_of O.Sink out.old) (sink_of O.Sink out.new)
        × ((read : List ℕ)
        × MayRead (T.known table.now (T.told store.old).files player.side) (T.size table.now) read
        × ((codes : ℕ → List ℕ) → codes (suc cursor.played) ≡ read
        → LineTurn (G.arena game.now) player.side codes cursor reader.old due text))) }
    ensures still_ended { reader.new.ended ≡ true → HasEnded (source_of I.Source input.new) }
    ensures no_more { reader.new.more ≤ reader.old.more }
    ensures unread { player.opponent ≡ opponents.Codes → input.new ≡ input.old }
    ensures placed { result ≡ Err (Line faults.Outside) → ⊥ }
    ensures quiet { StoreQuiet (T.told store.old) (T.told store.new) }
    ensures asked { (T.told store.new).asked ≤
        (T.told store.old).asked + 4 * arms_reads ((G.arena game.now).arms cursor.number) }
    ensures calls { (T.told store.new).calls ≤
        (T.told store.old).calls + arms_reads ((G.arena game.now).arms cursor.number) }
    ensures cause { StoreCause result (T.told store.old) (T.told store.new) }
    ensures input { InputCause result (source_of I.Source input.old)
        (source_of I.Source input.new) }
    ensures step { steps.new ≤ steps.old + 1 }
    ensures later { steps.old ≤ steps.new }
{
    filled();
    let due = inspect(game, table, store, player, cursor, lists, steps)?;
    write_opening(player.side, cursor, due, out)?;
    play(player, cursor, due, lists, reader, input, out)
}

/// Plays the way of the side from the number `start`, and writes its text. `code` is what is kept
/// for the side there. Where the codes find the opponent's plies, the input is not read.
pub fn play_way<G: NumberedGame<L>, T: KeptCodes<S>, S, I: Source, O: Sink, L: Ledger>(
    game: &G,
    table: &T,
    store: &mut S,
    player: Player,
    start: u32,
    code: u32,
    reader: &mut Reader,
    input: &mut I,
    out: &mut O,
    steps: &mut Steps<L>,
) -> Result<Finish, PlayFault>
    requires sound { G.sound game.now }
    requires turns { Alternates (G.arena game.now) }
    requires inside { start < G.count game.now }
    requires many { T.size table.now ≡ G.count game.now }
    requires different { HasDifferentArms (G.arena game.now) }
    requires ready { T.is_ready table.now (T.told store.old).files }
    requires ended { reader.old.ended ≡ true → HasEnded (source_of I.Source input.old) }
    requires few { reader.old.more ≤ MOST_LINES }
    ensures wrote { (text bytes : List ℕ) × IsLines text
        × WroteBy result text (sink_of O.Sink out.old) (sink_of O.Sink out.new)
        × TookBytes bytes (source_of I.Source input.old) (source_of I.Source input.new)
        × StaysEnded reader.old reader.new bytes
        × ((read : ℕ → List ℕ)
        × ((k : ℕ) → MayRead (T.known table.now (T.told store.old).files player.side)
        (T.size table.now) (read k))
        × ((codes : ℕ → List ℕ) → ((k : ℕ) → codes (suc k) ≡ read k)
        → Plays (G.arena game.now) player.opponent player.side codes start code reader.old
        reader.new bytes text result
        (spent_by (T.told store.old) steps.old) (spent_by (T.told store.new) steps.new))) }
    ensures still_ended { reader.new.ended ≡ true → HasEnded (source_of I.Source input.new) }
    ensures no_more { reader.new.more ≤ reader.old.more }
    ensures kind { IsFinishOf result player.opponent }
    ensures unread { player.opponent ≡ opponents.Codes → input.new ≡ input.old }
    ensures placed { result ≡ Err (Line faults.Outside) → ⊥ }
    ensures quiet { StoreQuiet (T.told store.old) (T.told store.new) }
    ensures cause { StoreCause result (T.told store.old) (T.told store.new) }
    ensures input { InputCause result (source_of I.Source input.old)
        (source_of I.Source input.new) }
    ensures later { steps.old ≤ steps.new }
{
    let mut lists = Lists::new();
    let mut cursor = Cursor {
        number: start,
        code,
        played: 0,
    };
    'plies: loop {
        match turn(
            game, table, store, player, cursor, &mut lists, reader, input, out, steps,
        )? {
            Turn::Over(end) => return Ok(Finish::Here(end)),
            Turn::Out(mv, value) => return Ok(Finish::Left(cursor.number, mv, value)),
            Turn::On(number, code) => {
                cursor = Cursor {
                    number,
                    code,
                    played: cursor.played + 1,
                };
            }
        }
    }
}
