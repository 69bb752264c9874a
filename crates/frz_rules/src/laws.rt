//! What holds of rules texts, whatever the code.
ghost use Rattle.std.specs.Prelude.{ℕ, List, ◌≡◌, ◌<◌, length, is_some};
ghost use Rattle.frz_rules.specs.Lines.{group_of, forbid_of, exit_of};
ghost use Rattle.frz_rules.specs.Grammar.{fits, reach, line_form, group_form, forbid_form, exit_form};
ghost use Rattle.frz_rules.specs.Text.{rules_of, too_long};
ghost use Rattle.frz_rules.specs.Fronts.{IsGreatestFront};

use crate::fault::LONGEST_TEXT;

/// A line's reach is the greatest number of its first words that begin a line of some form.
pub fn line_places()
    ensures { (line : List (List ℕ)) → IsGreatestFront line_form line (reach line_form line) }
{}

/// A line gives a group, a forbid line or an exit line exactly where it has the form of one.
pub fn line_forms()
    ensures group { (ws : List (List ℕ)) → fits group_form ws ≡ is_some (group_of ws) }
    ensures forbid { (ws : List (List ℕ)) → fits forbid_form ws ≡ is_some (forbid_of ws) }
    ensures exit { (ws : List (List ℕ)) → fits exit_form ws ≡ is_some (exit_of ws) }
{}

/// A text of more than 65,536 bytes is too long, whatever its bytes are.
pub fn long_texts()
    ensures { (text : List ℕ) → LONGEST_TEXT < length text → rules_of text ≡ too_long }
{}
