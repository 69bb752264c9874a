//! The laws of `why`. Each function does nothing: its clause is the law.
ghost use Rattle.std.specs.Prelude.{◌≡◌, ℕ, Bool, List, Ok};
ghost use Rattle.frz_board.specs.Boards.{Board};
ghost use Rattle.frz_sets.specs.Views.{RuleLines};
ghost use Rattle.frz_answer.specs.Lawful.{IsLawful};
ghost use Rattle.frz_backs.specs.Books.{Back};
ghost use Rattle.frz_rules.specs.Text.{rules_of};
ghost use Rattle.frz_backs.specs.Links.{value_over};
ghost use Rattle.frz_exit_lines.specs.Numbers.{exit_numbers_of};
ghost use Rattle.frz_commands_why.specs.Asking.{why_words};
ghost use Rattle.frz_commands_why.specs.Deciders.{decider_of};
ghost use Rattle.frz_commands_why.specs.Decides.{Decides};

use frz_reasons::laws::{
    failing_ways_are_games, failures_are_spoiled, one_failing_way, quickest, spoils,
    tables_are_never_wrong,
};

/// What is told to have decided the value of a position did so: for an accepted text, over any
/// tables behind its exit lines.
pub fn deciders_decide()
    ensures { (text : List ℕ) (rules : RuleLines) → rules_of text ≡ Ok rules →
        (leans : Bool) (backs : List Back) (q : Board) →
        Decides leans text rules backs q (value_over leans rules backs q)
        (decider_of leans (exit_numbers_of text) rules backs q) }
{}

/// For all words behind `why` there is exactly one answer over any files and any input. Over files
/// of bytes, that answer means what `why` promises.
pub fn why_lawful()
    ensures { (words : List (List ℕ)) → IsLawful (why_words words) }
{
    failures_are_spoiled();
    one_failing_way();
    failing_ways_are_games();
    quickest();
    tables_are_never_wrong();
    spoils();
}
