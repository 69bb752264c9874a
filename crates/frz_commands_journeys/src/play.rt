//! The command `play TABLE FEN SIDE BACK ..`: a side plays over several tables, against the moves of
//! the input.
ghost use Rattle.std.specs.Prelude.{◌≡◌, map, false};
ghost use Rattle.std.specs.String.{string_bytes};
ghost use Rattle.frz_answer.specs.World.{world_of};
ghost use Rattle.frz_answer.specs.Ends.{Ran};
ghost use Rattle.frz_commands_journeys.specs.Journeying.{play_words};

use crate::journey::run_journey;
use frz_answer::End;
use frz_steps::Steps;
use frz_store::{Sink, Source, Store};
use frz_ways::Opponent;
use std::alloc::Global;
use std::sync::ledger::Ledger;

/// Runs the command `play TABLE FEN SIDE BACK..`; `words` are TABLE, FEN, SIDE and 1 to 16 BACKs.
/// No code is checked but those on the way.
pub fn run_play<S: Store, I: Source, O: Sink, L: Ledger>(
    alloc: Global,
    words: &[String],
    store: &mut S,
    input: &mut I,
    out: &mut O,
    steps: &mut Steps<L>,
) -> End
    ensures ran { Ran (play_words (map string_bytes words.now)) result
        (world_of S.Store I.Source O.Sink store.old input.old out.old steps.old)
        (world_of S.Store I.Source O.Sink store.new input.new out.new steps.new) }
    ensures store_unused { (play_words (map string_bytes words.now)).needs.store ≡ false
        → store.new ≡ store.old }
    ensures input_unused { (play_words (map string_bytes words.now)).needs.input ≡ false
        → input.new ≡ input.old }
{
    run_journey(alloc, words, Opponent::Input, store, input, out, steps)
}
