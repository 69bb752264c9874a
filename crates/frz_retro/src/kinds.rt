//! Whether a code is a win or a failure, and the code of a mate.

ghost use Rattle.std.specs.Prelude.{◌≡◌, if◌then◌else◌};
ghost use Rattle.frz_board.specs.Men.{same_colour};
ghost use Rattle.frz_retro.specs.Kinds.{is_of};

use frz_arena::{is_failure, is_win};
use frz_board::Colour;

/// Whether a code is a win (`won` is true) or a failure (`won` is false).
#[tactic(auto, unfolding(crate::specs::Kinds::is_of))]
pub fn is_kind(won: bool, code: u32) -> bool
    ensures { result ≡ is_of won code }
{
    if won {
        code >= 2 && code % 2 == 0
    } else {
        code >= 2 && code % 2 == 1
    }
}

/// The code for `side` of a position where `mated` is mated: 3, a failure, where that is `side`
/// itself, else 2, a win.
pub fn mate_code(mated: Colour, side: Colour) -> u32
    ensures { result ≡ (if same_colour mated side then 3 else 2) }
{
    if mated.is_same(side) { 3 } else { 2 }
}
