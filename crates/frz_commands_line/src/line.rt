//! The command `line TABLE FEN SIDE`: the best line of a side by the codes in a table.
ghost use Rattle.std.specs.Prelude.{◌≡◌, ℕ, map, false};
ghost use Rattle.std.specs.String.{string_bytes};
ghost use Rattle.frz_store.specs.Files.{Files};
ghost use Rattle.frz_store.specs.Told.{SourceTold, store_of, sink_of};
ghost use Rattle.frz_answer.specs.World.{world};
ghost use Rattle.frz_answer.specs.Ends.{Ran};
ghost use Rattle.frz_commands_line.specs.Later.{MayBeLater};
ghost use Rattle.frz_commands_line.specs.Lining.{line_words};

use crate::way::run_way;
use frz_answer::End;
use frz_steps::Steps;
use frz_store::{Sink, Store, SureSource};
use frz_ways::Opponent;
use std::alloc::Global;
use std::sync::ledger::Ledger;

/// Runs the command `line TABLE FEN SIDE`; `words` are TABLE, FEN and SIDE.
pub fn run_line<S: Store, O: Sink, L: Ledger>(
    alloc: Global,
    words: &[String],
    store: &mut S,
    out: &mut O,
    steps: &mut Steps<L>,
) -> End
    // `later k` is what the store held when it was read after k plies: what it tells, if it tells.
    ensures ran { (later : ℕ → Files) × MayBeLater (S.files store.old) later
        × ((input : SourceTold) → Ran (line_words later (map string_bytes words.now)) result
        (world (store_of S.Store store.old) input (sink_of O.Sink out.old) steps.old)
        (world (store_of S.Store store.new) input (sink_of O.Sink out.new) steps.new)) }
    ensures store_unused { (later : ℕ → Files)
        → (line_words later (map string_bytes words.now)).needs.store ≡ false
        → store.new ≡ store.old }
{
    let mut nothing = SureSource::new(Vec::new(alloc));
    run_way(
        alloc,
        words,
        Opponent::Codes,
        store,
        &mut nothing,
        out,
        steps,
    )
}
