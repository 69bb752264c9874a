//! What holds of boards of configurations, whatever the code.

ghost use Rattle.std.specs.Prelude.{ℕ, ◌≡◌, ◌<◌, ◌↔◌, true};
ghost use Rattle.frz_board.specs.Boards.{Board};
ghost use Rattle.frz_fide.specs.Valid.{IsValid};
ghost use Rattle.frz_sets.specs.Sound.{IsSound};
ghost use Rattle.frz_sets.specs.Views.{RuleLines};
ghost use Rattle.frz_index.specs.Members.{HasNumber, Member, Num};
ghost use Rattle.frz_configurations.specs.Configurations.{IsSplit};
ghost use Rattle.frz_king_planes.specs.Kings.{are_free, with_kings};
ghost use Rattle.frz_kingless.specs.Boards.{IsBoardOf, are_known};

/// The positions of a configuration's numbers are those that the kings make on its board. On two
/// empty squares of their groups the kings make the position of the number, if it is valid; and no
/// number has another position.
pub fn positions()
    ensures there { (r : RuleLines) (p : Board) (i c a b : ℕ) → IsSound r →
        IsBoardOf r.groups c p → IsSplit r.groups i c a b → are_free p a b ≡ true →
        IsValid (with_kings p a b) → HasNumber r.groups i (with_kings p a b) }
    ensures only { (r : RuleLines) (p q : Board) (i c a b : ℕ) → IsSound r →
        IsBoardOf r.groups c p → IsSplit r.groups i c a b → HasNumber r.groups i q →
        (are_free p a b ≡ true) × (q ≡ with_kings p a b) }
{}

/// A valid position that the kings make on two empty squares of a board is in the set exactly where
/// groups have the kings on these squares and the board is that of a configuration. Its number is
/// then the one of that configuration with the kings there.
pub fn members()
    ensures member { (r : RuleLines) (p : Board) (a b : ℕ) → IsSound r → a < 64 → b < 64 →
        are_free p a b ≡ true → IsValid (with_kings p a b) → Member r.groups (with_kings p a b)
        ↔ ((are_known r.groups a b ≡ true) × ((c : ℕ) × IsBoardOf r.groups c p)) }
    ensures number { (r : RuleLines) (p : Board) (c a b : ℕ) → IsSound r → a < 64 → b < 64 →
        are_free p a b ≡ true → IsValid (with_kings p a b) → are_known r.groups a b ≡ true →
        IsBoardOf r.groups c p → IsSplit r.groups (Num r.groups (with_kings p a b)) c a b }
{}
