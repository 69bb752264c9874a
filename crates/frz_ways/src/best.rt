//! The best line of a side from a position of a table file's set.
ghost use Rattle.std.specs.Prelude.{◌≡◌, ◌↔◌, ◌≤◌, ℕ, List, [], Some, Err};
ghost use Rattle.frz_fide.specs.Valid.{IsValid};
ghost use Rattle.frz_index.specs.Members.{Member};
ghost use Rattle.frz_store.specs.Told.{store_of, sink_of, StoreQuiet};
ghost use Rattle.frz_answer.specs.Answers.{IsLines};
ghost use Rattle.frz_answer.specs.World.{spent_by};
ghost use Rattle.frz_table.specs.Tables.{Carries, table_size};
ghost use Rattle.frz_ways.specs.Faults.{StoreCause, WroteBy};
ghost use Rattle.frz_ways.specs.Kept.{told_codes, MayRead};
ghost use Rattle.frz_ways.specs.BestLine.{TellsLine};

use crate::end::{LineEnd, LineFault};
use crate::opponent::{Opponent, Player};
use crate::start::play_from;
use crate::way_end::line_answer;
use frz_board::{Colour, Position};
use frz_steps::Steps;
use frz_store::{Failed, Sink, Source, Store};
use frz_table::TableFile;
use std::sync::ledger::Ledger;

/// The input of a line, which has no bytes.
#[derive(Drop)]
struct NoInput;

impl Source for NoInput {
    ghost left = { λ _. Some [] };

    ghost faults = { λ _. 0 };

    fn read(&mut self, _into: &mut [u8]) -> Result<usize, Failed> {
        Ok(0)
    }
}

/// Plays the best line of the side from the position, and writes it as it is played: the side's
/// bound, the moves, and the end. The side's codes in the table find the moves of both sides. At a
/// fault the lines before it stay written; it is for the caller to write the line that names it.
pub fn best_line<S: Store, O: Sink, L: Ledger>(
    table: &TableFile,
    store: &mut S,
    p: &Position,
    side: Colour,
    out: &mut O,
    steps: &mut Steps<L>,
) -> Result<LineEnd, LineFault>
    requires valid { IsValid p.now }
    requires carried { Carries (S.files store.old) table.now }
    ensures outside { (result ≡ Err LineFault.Outside) ↔ (Member table.now.rules.groups p.now → ⊥) }
    ensures untouched { result ≡ Err LineFault.Outside
        → (store.new ≡ store.old) × (out.new ≡ out.old) × (steps.new ≡ steps.old) }

    // The text is that of the line by the codes in `read`, one list for each number of plies.
    // Where the store's contract says what it holds, they are the codes that it holds.
    ensures wrote { (text : List ℕ) × (read : ℕ → List ℕ) × IsLines text
        × WroteBy result text (sink_of O.Sink out.old) (sink_of O.Sink out.new)
        × ((k : ℕ) → MayRead (told_codes table.now side (S.files store.old)) (table_size table.now)
        (read k))
        × ((codes : ℕ → List ℕ) → ((k : ℕ) → codes k ≡ read k)
        → TellsLine table.now.rules side codes p.now text result
        (spent_by (store_of S.Store store.old) steps.old)
        (spent_by (store_of S.Store store.new) steps.new)) }
    ensures quiet { StoreQuiet (store_of S.Store store.old) (store_of S.Store store.new) }
    ensures cause { StoreCause result (store_of S.Store store.old) (store_of S.Store store.new) }
    ensures later { steps.old ≤ steps.new }
{
    let player = Player {
        side,
        opponent: Opponent::Codes,
    };
    let mut nothing = NoInput;
    let answer = play_from(table, store, p, player, &mut nothing, out, steps);
    line_answer(answer)
}
