//! The law of the mutual zugzwangs of chess: the contract of a function that does nothing.
ghost use Rattle.std.specs.Prelude.{◌↔◌, ℕ, List, Contains};
ghost use Rattle.frz_board.specs.declared.man.Colour.{Colour};
ghost use Rattle.frz_sets.specs.Views.{RuleLines};
ghost use Rattle.frz_game.specs.ExactTables.{HasExactOutcomes};
ghost use Rattle.frz_report.specs.Mutual.{IsMutual};
ghost use Rattle.frz_report.specs.Squeezes.{Squeeze, squeezes};

/// Where the outcomes of the tables of both sides are those of chess, the squeezes of a report are
/// exactly the mutual zugzwangs of chess in the set.
pub fn squeezes_are_mutual()
    ensures { (rules : RuleLines) (codes : Colour → List ℕ) →
        ((side : Colour) → HasExactOutcomes rules side (codes side)) → (s : Squeeze) →
        Contains (squeezes rules.groups codes) s ↔ IsMutual rules.groups s }
{}
