//! Whether moves lead to marked configurations.

ghost use Rattle.std.specs.Prelude.{ℕ, ◌≡◌, ◌<◌, Bool, List, IfSome, false, length};
ghost use Rattle.std.specs.List.{All, slice_index_or};
ghost use Rattle.frz_board.specs.Boards.{Board};
ghost use Rattle.frz_sets.specs.Sound.{IsSound};
ghost use Rattle.frz_sets.specs.Views.{RuleLines};
ghost use Rattle.frz_kingless.specs.Boards.{IsBoardOf};
ghost use Rattle.frz_plane_arms.specs.Arms.{MakesMember};
ghost use Rattle.frz_plane_arms.specs.Inner.{AreBelow, AreInner};
ghost use Rattle.frz_plane_arms.specs.Inside.{LeadsInside};

use crate::inner::InnerMoves;
use crate::men::ManArm;
use crate::taking::KingArm;

/// Does a step of a man lead to a marked configuration?
fn men_touch(arms: &[ManArm], marks: &[bool]) -> bool
    requires { All (λ arm. arm.target < length marks.now) arms.now }
    ensures { result ≡ false →
        All (λ arm. slice_index_or marks.now arm.target false ≡ false) arms.now }
{
    for arm in arms {
        if marks[arm.target as usize] {
            return true;
        }
    }
    false
}

/// Does a capture of a king lead to a marked configuration?
fn captures_touch(arms: &[KingArm], marks: &[bool]) -> bool
    requires { All (λ arm. arm.target < length marks.now) arms.now }
    ensures { result ≡ false →
        All (λ arm. slice_index_or marks.now arm.target false ≡ false) arms.now }
{
    for arm in arms {
        if marks[arm.target as usize] {
            return true;
        }
    }
    false
}

/// Is the configuration after a king's step to an empty square marked?
fn step_touches(quiet: Option<u32>, marks: &[bool]) -> bool
    requires { IfSome quiet (λ d. d < length marks.now) }
    ensures { result ≡ false → IfSome quiet (λ d. slice_index_or marks.now d false ≡ false) }
{
    match quiet {
        None => false,
        Some(target) => marks[target as usize],
    }
}

/// May a move lead to one of the marked configurations?
pub fn touches(moves: &InnerMoves, marks: &[bool]) -> bool
    requires { AreBelow (length marks.now) moves.now }
    ensures { result ≡ false → (r : RuleLines) (p : Board) (c a b : ℕ) (only_free into : Bool)
        (planes : List (List ℕ)) → IsSound r → IsBoardOf r.groups c p → AreInner r p moves.now →
        MakesMember r.groups p a b → (way : LeadsInside r p only_free into planes a b) →
        slice_index_or marks.now way.configuration false ≡ false }
{
    step_touches(moves.quiet, marks)
        || men_touch(&moves.men, marks)
        || captures_touch(&moves.captures, marks)
}
