//! What the numbers of exit lines are in an accepted text.
ghost use Rattle.std.specs.Prelude.{◌≡◌, ℕ, List, Ok, Some, length, slice_get};
ghost use Rattle.frz_sets.specs.Views.{RuleLines};
ghost use Rattle.frz_rules.specs.Text.{rules_of};
ghost use Rattle.frz_exit_lines.specs.Numbers.{exit_numbers_of};
ghost use Rattle.frz_exit_lines.specs.Saying.{exit_on_line};

/// An accepted text has as many exit lines as its rules have, and the k-th exit of its rules is
/// what the line with the k-th of these numbers says.
pub fn exits_stand_there()
    ensures many { (text : List ℕ) (rules : RuleLines) → rules_of text ≡ Ok rules →
        length (exit_numbers_of text) ≡ length rules.exits }
    ensures each { (text : List ℕ) (rules : RuleLines) → rules_of text ≡ Ok rules →
        (k n : ℕ) → slice_get (exit_numbers_of text) k ≡ Some n →
        exit_on_line text n ≡ slice_get rules.exits k }
{}
