//! The command `play TABLE FEN SIDE`: one side plays by a table, against the moves of the input.
ghost use Rattle.std.specs.Prelude.{◌≡◌, ℕ, map, false};
ghost use Rattle.std.specs.String.{string_bytes};
ghost use Rattle.frz_store.specs.Files.{Files};
ghost use Rattle.frz_answer.specs.World.{world_of};
ghost use Rattle.frz_answer.specs.Ends.{Ran};
ghost use Rattle.frz_commands_line.specs.Later.{MayBeLater};
ghost use Rattle.frz_commands_line.specs.Playing.{play_words};

use crate::way::run_way;
use frz_answer::End;
use frz_steps::Steps;
use frz_store::{Sink, Source, Store};
use frz_ways::Opponent;
use std::alloc::Global;
use std::sync::ledger::Ledger;

/// Runs the command `play TABLE FEN SIDE`; `words` are TABLE, FEN and SIDE.
pub fn run_play<S: Store, I: Source, O: Sink, L: Ledger>(
    alloc: Global,
    words: &[String],
    store: &mut S,
    input: &mut I,
    out: &mut O,
    steps: &mut Steps<L>,
) -> End
    // `later k` is what the store held when it was read after k plies: what it tells, if it tells.
    ensures ran { (later : ℕ → Files) × MayBeLater (S.files store.old) later
        × (Ran (play_words later (map string_bytes words.now)) result
        (world_of S.Store I.Source O.Sink store.old input.old out.old steps.old)
        (world_of S.Store I.Source O.Sink store.new input.new out.new steps.new)) }
    ensures store_unused { (later : ℕ → Files)
        → (play_words later (map string_bytes words.now)).needs.store ≡ false
        → store.new ≡ store.old }
    ensures input_unused { (later : ℕ → Files)
        → (play_words later (map string_bytes words.now)).needs.input ≡ false
        → input.new ≡ input.old }
{
    run_way(alloc, words, Opponent::Input, store, input, out, steps)
}
