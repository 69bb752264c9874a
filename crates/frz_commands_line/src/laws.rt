//! The laws on the answers of `line` and `play`. Each function does nothing: its clause is the law.
ghost use Rattle.std.specs.Prelude.{ℕ, List};
ghost use Rattle.frz_store.specs.Files.{Files};
ghost use Rattle.frz_answer.specs.Lawful.{IsLawful};
ghost use Rattle.frz_commands_line.specs.Lining.{line_words};
ghost use Rattle.frz_commands_line.specs.Playing.{play_words};

use frz_ways::laws::lines::{
    holds_are_drawn, least_plies, lines_are_games, one_line, tables_are_never_wrong,
};
use frz_ways::laws::sessions;

/// For all words behind `line`, and whatever the store holds when it is read again later, there is
/// exactly one answer over any files and any input. Over files of bytes, that answer means what
/// `line` promises.
pub fn one_line_answer()
    ensures { (later : ℕ → Files) (words : List (List ℕ)) → IsLawful (line_words later words) }
{
    one_line();
    lines_are_games();
    least_plies();
    holds_are_drawn();
    tables_are_never_wrong();
}

/// For all words behind `play`, there is exactly one answer in the same way. Over files of bytes,
/// that answer means what `play` promises.
pub fn one_play_answer()
    ensures { (later : ℕ → Files) (words : List (List ℕ)) → IsLawful (play_words later words) }
{
    sessions::one_session();
    sessions::sessions_are_games();
    sessions::wins_are_kept();
    sessions::holds_are_kept();
    sessions::tables_are_never_wrong();
    sessions::sessions_are_safe();
}
