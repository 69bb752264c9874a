//! Laws of FEN, each the contract of a function that does nothing.

ghost use Rattle.std.specs.Prelude.{◌≡◌, ◌≤◌, ℕ, List, true, length};
ghost use Rattle.frz_fen.specs.Placement.{is_rank, rank_cells};
ghost use Rattle.frz_fen.specs.Writing.{rank_text};

/// The text that is written for a rank is the shortest: no text for the same squares has fewer
/// bytes. The letters are those of the men, so it has the fewest digits.
pub fn fewest_digits()
    ensures { (part : List ℕ) → is_rank part ≡ true
        → length (rank_text (rank_cells part)) ≤ length part }
{}
