//! The end of a command that refuses what its words name.
ghost use Rattle.std.specs.Prelude.{ℕ};
ghost use Rattle.frz_store.specs.Told.{StoreTold, SourceTold, sink_of};
ghost use Rattle.frz_answer.specs.World.{world};
ghost use Rattle.frz_answer.specs.Ends.{Ran};
ghost use Rattle.frz_prelude.specs.Refusals.{refusing_named};

use crate::refused::Refused;
use crate::stop::Stop;
use frz_answer::End;
use frz_store::Sink;

/// Refuses what the words of the command name: writes the line that says why, and ends with the
/// status of the refusal.
pub fn refuse_named<O: Sink>(why: Refused, out: &mut O) -> End
    ensures { (store : StoreTold) (input : SourceTold) (steps : ℕ) → Ran (refusing_named why) result
        (world store input (sink_of O.Sink out.old) steps)
        (world store input (sink_of O.Sink out.new) steps) }
{
    Stop::Refused(why).end(out)
}
