//! The refusal of words that are no command.
ghost use Rattle.std.specs.Prelude.{ℕ};
ghost use Rattle.frz_store.specs.Told.{StoreTold, SourceTold, sink_of};
ghost use Rattle.frz_answer.specs.World.{world};
ghost use Rattle.frz_answer.specs.Ends.{Ran};
ghost use Rattle.frz_answer.specs.Words.{refusing};

use crate::saying::say;
use crate::words::Refusal;
use crate::{End, Status};
use frz_store::Sink;

/// Refuses the words of the command line: writes the line that says why, and ends with the status
/// `Words`.
pub fn refuse<O: Sink>(why: Refusal, out: &mut O) -> End
    ensures { (store : StoreTold) (input : SourceTold) (steps : ℕ) → Ran (refusing why) result
        (world store input (sink_of O.Sink out.old) steps)
        (world store input (sink_of O.Sink out.new) steps) }
{
    say(Status::Words, why.line(), out)
}
