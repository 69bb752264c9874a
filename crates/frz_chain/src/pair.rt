//! What White's code and Black's at one position say of its value.

ghost use Rattle.std.specs.Prelude.{◌≡◌};
ghost use Rattle.frz_chain.specs.PairValues as words;

use frz_arena::{is_failure, is_win};
use frz_sets::Value;

/// The code of a position where a side holds.
const HOLD: u32 = 1;

/// The value of a position by White's code and Black's there. Two codes that tell nothing together
/// give `Unknown`.
pub fn pair_value(white: u32, black: u32) -> Value
    ensures { result ≡ words.pair_value white black }
{
    if is_win(white) && is_failure(black) {
        Value::WhiteWins
    } else if is_failure(white) && is_win(black) {
        Value::BlackWins
    } else if white == HOLD && black == HOLD {
        Value::Draw
    } else if white == HOLD && is_failure(black) {
        Value::WhiteHolds
    } else if is_failure(white) && black == HOLD {
        Value::BlackHolds
    } else {
        Value::Unknown
    }
}
