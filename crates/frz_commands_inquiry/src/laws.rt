//! The law on the answers of `ask`. The function does nothing: its clause is the law.
ghost use Rattle.std.specs.Prelude.{ℕ, List};
ghost use Rattle.frz_answer.specs.Lawful.{IsLawful};
ghost use Rattle.frz_commands_inquiry.specs.Asking.{ask_words};

/// For all words behind `ask`, there is exactly one answer over any files and any input. Over files
/// of bytes, that answer means what `ask` promises.
pub fn one_ask_answer()
    ensures { (words : List (List ℕ)) → IsLawful (ask_words words) }
{}
