//! Laws on outcomes of chess over several tables. Each is the contract of a function that does
//! nothing.
ghost use Rattle.std.specs.Prelude.{ℕ, List, All};
ghost use Rattle.frz_board.specs.declared.man.Colour.{Colour};
ghost use Rattle.frz_sets.specs.Views.{RuleLines};
ghost use Rattle.frz_chain.specs.Bounds.{IsTableOf};
ghost use Rattle.frz_backs.specs.Decided.{HasBothOutcomes};
ghost use Rattle.frz_backs.specs.ExactOver.{AreTrueOutcomes, HasOutcomesOver};
ghost use Rattle.frz_backs.specs.Links.{AreExact, Link, backs_of};
ghost use Rattle.frz_backs.specs.Values.{atlas_value, own_value};

/// If the outcomes in the tables are those of chess, the outcomes that they tell are true, whatever
/// their own exit lines say. So the outcomes that the exits of rules over them give are true, where
/// those that the exit lines of these rules give are.
pub fn exits_by_outcomes()
    ensures { (rules : RuleLines) (links : List Link) → AreExact links →
        All HasBothOutcomes links →
        AreTrueOutcomes rules (own_value rules (backs_of links)) →
        AreTrueOutcomes rules (atlas_value rules (backs_of links)) }
{}

/// The outcomes of a table over several others are those of chess under the three conditions of
/// `HasOutcomesOver`.
pub fn outcomes_over_tables()
    ensures { (rules : RuleLines) (links : List Link) → AreExact links → (side : Colour)
        (codes : List ℕ) → IsTableOf rules (atlas_value rules (backs_of links)) side codes →
        HasOutcomesOver rules links side codes }
{}
