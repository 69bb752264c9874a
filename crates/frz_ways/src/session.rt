//! The session of a side from a position of a table file's set.
ghost use Rattle.std.specs.Prelude.{◌≡◌, ◌↔◌, ◌≤◌, ℕ, List, Err};
ghost use Rattle.frz_fide.specs.Valid.{IsValid};
ghost use Rattle.frz_index.specs.Members.{Member};
ghost use Rattle.frz_store.specs.Told.{store_of, source_of, sink_of, StoreQuiet};
ghost use Rattle.frz_answer.specs.Answers.{IsLines};
ghost use Rattle.frz_answer.specs.World.{spent_by};
ghost use Rattle.frz_table.specs.Tables.{Carries, table_size};
ghost use Rattle.frz_ways.specs.Kept.{told_codes, MayRead};
ghost use Rattle.frz_ways.specs.declared.end.LineFault.TheVariants as faults;
ghost use Rattle.frz_ways.specs.declared.session_end.PlayFault.TheVariants.{Line};
ghost use Rattle.frz_ways.specs.SessionFaults.{WroteBy, StoreCause, InputCause, TookBytes, MayHold};
ghost use Rattle.frz_ways.specs.PlaySession.{TellsSession};

use crate::opponent::{Opponent, Player};
use crate::session_end::{PlayFault, SessionEnd};
use crate::start::play_from;
use crate::way_end::session_answer;
use frz_board::{Colour, Position};
use frz_steps::Steps;
use frz_store::{Sink, Source, Store};
use frz_table::TableFile;
use std::sync::ledger::Ledger;

/// Plays the side from the position against the input, and writes the session as it is played: the
/// side's bound, its moves, which its codes in the table find, the opponent's replies, and the end.
/// The input is taken byte by byte, and nothing behind the last line that the session needs. At a
/// fault the lines before it stay written; it is for the caller to write the line that names it.
pub fn play_session<S: Store, I: Source, O: Sink, L: Ledger>(
    table: &TableFile,
    store: &mut S,
    p: &Position,
    side: Colour,
    input: &mut I,
    out: &mut O,
    steps: &mut Steps<L>,
) -> Result<SessionEnd, PlayFault>
    requires valid { IsValid p.now }
    requires carried { Carries (S.files store.old) table.now }
    ensures outside { (result ≡ Err (Line faults.Outside))
        ↔ (Member table.now.rules.groups p.now → ⊥) }
    ensures untouched { result ≡ Err (Line faults.Outside)
        → (store.new ≡ store.old) × (input.new ≡ input.old) × (out.new ≡ out.old)
        × (steps.new ≡ steps.old) }

    // The text and the bytes are those of a session against some input, by the codes in `read`, one
    // list for each number of plies. Where the contracts of the store and the input say what
    // these hold, codes and input are what they hold.
    ensures played { (text bytes : List ℕ) × IsLines text
        × WroteBy result text (sink_of O.Sink out.old) (sink_of O.Sink out.new)
        × TookBytes bytes (source_of I.Source input.old) (source_of I.Source input.new)
        × ((read : ℕ → List ℕ)
        × ((k : ℕ) → MayRead (told_codes table.now side (S.files store.old)) (table_size table.now)
        (read k))
        × ((codes : ℕ → List ℕ) → ((k : ℕ) → codes k ≡ read k)
        → (whole : List ℕ) × MayHold (source_of I.Source input.old) whole
        × TellsSession table.now.rules side codes p.now whole bytes text result
        (spent_by (store_of S.Store store.old) steps.old)
        (spent_by (store_of S.Store store.new) steps.new))) }
    ensures quiet { StoreQuiet (store_of S.Store store.old) (store_of S.Store store.new) }
    ensures cause { StoreCause result (store_of S.Store store.old) (store_of S.Store store.new) }
    ensures input { InputCause result (source_of I.Source input.old)
        (source_of I.Source input.new) }
    ensures later { steps.old ≤ steps.new }
{
    let player = Player {
        side,
        opponent: Opponent::Input,
    };
    let answer = play_from(table, store, p, player, input, out, steps);
    session_answer(answer)
}
