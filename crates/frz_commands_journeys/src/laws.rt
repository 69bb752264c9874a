//! The laws on the answers of `line` and `play`. Each function does nothing: its clause is the law.
ghost use Rattle.std.specs.Prelude.{ℕ, List};
ghost use Rattle.frz_answer.specs.Lawful.{IsLawful};
ghost use Rattle.frz_commands_journeys.specs.Journeying.{line_words, play_words};

use frz_journeys::laws::{
    bounds_are_kept_on, exact_tables_are_never_wrong, few_stages, journeys_are_games, one_journey,
};

/// For all words behind `line`, there is exactly one answer over any files and any input. Over files
/// of bytes, that answer means what `line` promises.
pub fn one_line_answer()
    ensures { (words : List (List ℕ)) → IsLawful (line_words words) }
{
    one_journey();
    journeys_are_games();
    bounds_are_kept_on();
    few_stages();
    exact_tables_are_never_wrong();
}

/// For all words behind `play`, there is exactly one answer in the same way. Over files of bytes,
/// that answer means what `play` promises.
pub fn one_play_answer()
    ensures { (words : List (List ℕ)) → IsLawful (play_words words) }
{
    one_journey();
    journeys_are_games();
    bounds_are_kept_on();
    few_stages();
    exact_tables_are_never_wrong();
}
