//! The law on the answers of all commands, and the laws on one call after another. Each function
//! does nothing: its clauses are the laws.
ghost use Rattle.std.specs.Prelude.{ℕ, List};
ghost use Rattle.frz_answer.specs.Lawful.{IsLawful};
ghost use Rattle.frz_atlas_top.specs.Commands.{job_of};

pub mod calls;

use frz_commands_inquiry::laws::one_ask_answer;
use frz_commands_inquiry::why_lawful;
use frz_commands_journeys::laws::{one_line_answer, one_play_answer};

/// For all words, the call has exactly one answer over any files and any input. Over files of
/// bytes, that answer means what its command promises.
pub fn one_answer()
    ensures { (words : List (List ℕ)) → IsLawful (job_of words) }
{
    one_ask_answer();
    one_line_answer();
    one_play_answer();
    why_lawful();
}
