//! The command `line TABLE FEN SIDE BACK ..`: the best line of a side over several tables.
ghost use Rattle.std.specs.Prelude.{◌≡◌, map, false};
ghost use Rattle.std.specs.String.{string_bytes};
ghost use Rattle.frz_store.specs.Told.{SourceTold, store_of, sink_of};
ghost use Rattle.frz_answer.specs.World.{world};
ghost use Rattle.frz_answer.specs.Ends.{Ran};
ghost use Rattle.frz_commands_journeys.specs.Journeying.{line_words};

use crate::journey::run_journey;
use frz_answer::End;
use frz_steps::Steps;
use frz_store::{Sink, Store, SureSource};
use frz_ways::Opponent;
use std::alloc::Global;
use std::sync::ledger::Ledger;

/// Runs the command `line TABLE FEN SIDE BACK..`; `words` are TABLE, FEN, SIDE and 1 to 16 BACKs.
/// No code is checked but those on the way.
pub fn run_line<S: Store, O: Sink, L: Ledger>(
    alloc: Global,
    words: &[String],
    store: &mut S,
    out: &mut O,
    steps: &mut Steps<L>,
) -> End
    ensures ran { (input : SourceTold) → Ran (line_words (map string_bytes words.now)) result
        (world (store_of S.Store store.old) input (sink_of O.Sink out.old) steps.old)
        (world (store_of S.Store store.new) input (sink_of O.Sink out.new) steps.new) }
    ensures store_unused { (line_words (map string_bytes words.now)).needs.store ≡ false
        → store.new ≡ store.old }
{
    let mut nothing = SureSource::new(Vec::new(alloc));
    run_journey(
        alloc,
        words,
        Opponent::Codes,
        store,
        &mut nothing,
        out,
        steps,
    )
}
