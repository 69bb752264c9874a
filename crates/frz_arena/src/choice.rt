//! The move that a player who goes by the codes of a table takes.

ghost use Rattle.std.specs.Prelude.{◌≡◌, ◌≤◌, ◌<◌, ℕ, IfSome, IsNone, true, false};
ghost use Rattle.std.specs.List.{Contains};
ghost use Rattle.frz_arena.specs.Codes as codes;
ghost use Rattle.frz_arena.specs.Chosen.{IsFirst, IsFound};

use super::codes::is_win;

/// A legal move, as a player who goes by codes sees it.
#[derive(Clone, Copy, PartialEq, Eq)]
pub struct Choice {
    /// Whether the mover may play it.
    pub allowed: bool,
    /// The code of where it leads.
    pub code: u32,
}

ghost use Rattle.frz_arena.specs.Choices.{has_code};

/// The index of the first allowed move with this code.
fn first_with(choices: &[Choice], code: u32) -> Option<usize>
    ensures some { IfSome result (λ i. (x : Choice) × IsFirst (has_code code) choices.now i x) }
    ensures none { IsNone result → (x : Choice) → Contains choices.now x → has_code code x ≡ false }
{
    for place in 0..choices.len() {
        let choice = choices[place];
        if choice.allowed && choice.code == code {
            return Some(place);
        }
    }
    None
}

/// The index of the move to play at a position for which the table keeps the code `kept`. From a
/// win it is the first allowed move whose code is one ply (2) less. Else it is the first allowed
/// move with code 1, a hold, and where there is none, the first with code 0. `None` where there is
/// no such move.
pub fn choose(choices: &[Choice], kept: u32) -> Option<usize>
    ensures some { IfSome result
        (λ i. (x : Choice) × IsFound has_code (codes.is_win kept) kept choices.now i x) }
    ensures none { IsNone result → (i : ℕ) (x : Choice) →
        IsFound has_code (codes.is_win kept) kept choices.now i x → ⊥ }
{
    if is_win(kept) {
        return first_with(choices, kept - 2);
    }
    match first_with(choices, 1) {
        Some(place) => Some(place),
        None => first_with(choices, 0),
    }
}
