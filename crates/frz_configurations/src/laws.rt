//! What holds of configurations, whatever the code.

ghost use Rattle.std.specs.Prelude.{◌≡◌, ◌<◌, ℕ, List, true};
ghost use Rattle.frz_board.specs.Boards.{Board, has};
ghost use Rattle.frz_board.specs.declared.man.Colour.TheVariants.{White, Black};
ghost use Rattle.frz_board.specs.declared.man.Kind.TheVariants.{King};
ghost use Rattle.frz_sets.specs.Sets.{size_of};
ghost use Rattle.frz_sets.specs.Sound.{IsSound};
ghost use Rattle.frz_sets.specs.Views.{GroupLine, RuleLines};
ghost use Rattle.frz_index.specs.Members.{Member, Num};
ghost use Rattle.frz_configurations.specs.Configurations.{IsSplit, configuration_count, configuration_of};
ghost use Rattle.frz_configurations.specs.Joined.{IsKingSquare};

/// A position of a set has the number of its configuration with its kings on their squares. A
/// number is below the size and its configuration below their count, its kings stand where groups
/// have them, and no other number has the same configuration with the kings on the same squares.
pub fn configurations()
    ensures position { (r : RuleLines) (p : Board) (a b : ℕ) → IsSound r → Member r.groups p →
        has p White King a ≡ true → has p Black King b ≡ true →
        IsSplit r.groups (Num r.groups p) (configuration_of r.groups p) a b }
    ensures below { (gs : List GroupLine) (i c a b : ℕ) → IsSplit gs i c a b →
        (i < size_of gs) × (c < configuration_count gs) }
    ensures kings { (r : RuleLines) (i c a b : ℕ) → IsSound r → IsSplit r.groups i c a b →
        IsKingSquare r.groups White a × IsKingSquare r.groups Black b }
    ensures once { (r : RuleLines) (i j c a b : ℕ) → IsSound r → IsSplit r.groups i c a b →
        IsSplit r.groups j c a b → i ≡ j }
{}
