//! Laws of the board: each is a function that does nothing, and its contract states the law.

ghost use Rattle.std.specs.Prelude.{◌≡◌, ℕ, ◌<◌, ◌↔◌, true};
ghost use Rattle.std.specs.Ordering.{nat_cmp};
ghost use Rattle.frz_board.specs.Attacking.{Attack};
ghost use Rattle.frz_board.specs.Attacks.{attacks};
ghost use Rattle.frz_board.specs.Boards.{Board};
ghost use Rattle.frz_board.specs.Moving.{Step, IsStep, step_cmp};
ghost use Rattle.frz_board.specs.Texts.{text_of};
ghost use Rattle.frz_board.specs.Men.{cell_of_man};
ghost use Rattle.frz_board.specs.declared.man.Man.{Man as AnyMan};

use super::man::Man;
use super::square::Square;
use super::step::Move;

/// The test of attack holds exactly where the man on `a` attacks `b` as the laws of chess say it
/// (FIDE 3.1 to 3.8).
pub fn attack_in_words()
    ensures { (p : Board) (a b : ℕ) → (attacks p a b ≡ true) ↔ Attack p a b }
{}

/// Moves are ordered by origin, then destination, then promotion: none, queen, rook, bishop,
/// knight.
pub fn move_order()
    ensures { (m n : Step) → IsStep m → IsStep n → ⟦<Move as Ord>⟧.cmp m n ≡ step_cmp m n }
{}

/// Men are ordered as the numbers of their cells: White first, and each side's kinds in order.
pub fn man_order()
    ensures { (m n : AnyMan) → ⟦<Man as Ord>⟧.cmp m n ≡ nat_cmp (cell_of_man m) (cell_of_man n) }
{}

/// Squares are ordered as their numbers.
pub fn square_order()
    ensures { (a b : ℕ) → a < 64 → b < 64 → ⟦<Square as Ord>⟧.cmp a b ≡ nat_cmp a b }
{}

/// Different moves have different texts.
pub fn one_text()
    ensures { (m n : Step) → IsStep m → IsStep n → text_of m ≡ text_of n → m ≡ n }
{}
