//! The way of a side from a position of a table file's set.
ghost use Rattle.std.specs.Prelude.{◌≡◌, ◌↔◌, ◌≤◌, ℕ, List, Err};
ghost use Rattle.frz_fide.specs.Valid.{IsValid};
ghost use Rattle.frz_index.specs.Members.{Member};
ghost use Rattle.frz_store.specs.Told.{store_of, source_of, sink_of, StoreQuiet};
ghost use Rattle.frz_answer.specs.Answers.{IsLines};
ghost use Rattle.frz_answer.specs.World.{spent_by};
ghost use Rattle.frz_table.specs.Tables.{Carries, table_size};
ghost use Rattle.frz_ways.specs.Kept.{told_codes, MayRead};
ghost use Rattle.frz_ways.specs.declared.end.LineFault.TheVariants as faults;
ghost use Rattle.frz_ways.specs.declared.opponent.Opponent.TheVariants as opponents;
ghost use Rattle.frz_ways.specs.declared.session_end.PlayFault.TheVariants.{Line};
ghost use Rattle.frz_ways.specs.SessionFaults.{WroteBy, StoreCause, InputCause, TookBytes, MayHold};
ghost use Rattle.frz_ways.specs.PlayWay.{TellsWay};
ghost use Rattle.frz_ways.specs.WayEnds.{IsAnswerOf};

use crate::end::LineFault;
use crate::hearing::Reader;
use crate::opponent::Player;
use crate::session_end::PlayFault;
use crate::way::play_way;
use crate::way_end::{WayEnd, end_answer};
use frz_arena::laws::sessions::sides_move_in_turn;
use frz_board::{Move, Position};
use frz_exits::RuleBook;
use frz_fide::laws::all_listed;
use frz_game::Game;
use frz_game::laws::numbers::{different_arms, numbered};
use frz_sets::Value;
use frz_steps::Steps;
use frz_store::{Sink, Source, Store};
use frz_table::TableFile;
use std::sync::ledger::Ledger;

/// Plays the way of the side from the position, and writes it as it is played. A position outside
/// the table's set answers `Outside`: then nothing is read, written or taken.
pub fn play_from<S: Store, I: Source, O: Sink, L: Ledger>(
    table: &TableFile,
    store: &mut S,
    p: &Position,
    player: Player,
    input: &mut I,
    out: &mut O,
    steps: &mut Steps<L>,
) -> Result<WayEnd, PlayFault>
    requires valid { IsValid p.now }
    requires carried { Carries (S.files store.old) table.now }
    ensures outside { (result ≡ Err (Line faults.Outside))
        ↔ (Member table.now.rules.groups p.now → ⊥) }
    ensures untouched { result ≡ Err (Line faults.Outside)
        → (store.new ≡ store.old) × (input.new ≡ input.old) × (out.new ≡ out.old)
        × (steps.new ≡ steps.old) }
    ensures played { (text bytes : List ℕ) × IsLines text
        × WroteBy result text (sink_of O.Sink out.old) (sink_of O.Sink out.new)
        × TookBytes bytes (source_of I.Source input.old) (source_of I.Source input.new)
        × ((read : ℕ → List ℕ)
        × ((k : ℕ) → MayRead (told_codes table.now player.side (S.files store.old))
        (table_size table.now) (read k))
        × ((codes : ℕ → List ℕ) → ((k : ℕ) → codes k ≡ read k)
        → (whole : List ℕ) × MayHold (source_of I.Source input.old) whole
        × TellsWay player.opponent table.now.rules player.side codes p.now whole bytes text result
        (spent_by (store_of S.Store store.old) steps.old)
        (spent_by (store_of S.Store store.new) steps.new))) }
    ensures kind { IsAnswerOf result player.opponent }
    ensures unread { player.opponent ≡ opponents.Codes → input.new ≡ input.old }
    ensures quiet { StoreQuiet (store_of S.Store store.old) (store_of S.Store store.new) }
    ensures cause { StoreCause result (store_of S.Store store.old) (store_of S.Store store.new) }
    ensures input { InputCause result (source_of I.Source input.old)
        (source_of I.Source input.new) }
    ensures later { steps.old ≤ steps.new }
{
    let Some(start) = table.set().number(p) else {
        return Err(PlayFault::Line(LineFault::Outside));
    };
    numbered();
    different_arms();
    all_listed();
    sides_move_in_turn::<Position, Move, Value>();
    let rules = table.rules();
    let book = RuleBook::new(rules);
    let game = Game {
        set: table.set(),
        rules,
        book: &book,
    };
    let code = table.entry(store, player.side, start)?;
    let mut reader = Reader::new();
    let finish = play_way(
        &game,
        table,
        store,
        player,
        start,
        code,
        &mut reader,
        input,
        out,
        steps,
    );
    end_answer(finish)
}
