//! The law on the answers of all commands, and the laws on one call after another. Each function
//! does nothing: its clauses are the laws.
ghost use Rattle.std.specs.Prelude.{ℕ, List};
ghost use Rattle.frz_store.specs.Files.{Files};
ghost use Rattle.frz_freezer_top.specs.Commands.{job_of};
ghost use Rattle.frz_answer.specs.Lawful.{IsLawful};

pub mod calls;

use frz_commands_line::laws::{one_line_answer, one_play_answer};

/// For all words, and whatever the store holds when it is read again later, the call has exactly
/// one answer over any files and any input. Over files of bytes, that answer means what its command
/// promises.
pub fn one_answer()
    ensures { (later : ℕ → Files) (words : List (List ℕ)) → IsLawful (job_of later words) }
{
    one_line_answer();
    one_play_answer();
}
