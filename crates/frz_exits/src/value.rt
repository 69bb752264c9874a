//! What a value is worth to a side.

ghost use Rattle.std.specs.Prelude.{◌≡◌};
ghost use Rattle.frz_exits.specs.Values.{class_of, lag_of};
ghost use Rattle.frz_exits.specs.Values as values;

use frz_arena::Class;
use frz_board::Colour;
use frz_sets::Value;

/// What the value is worth to the side: good where the side wins, safe where it holds or the game
/// is drawn, and bad otherwise, unknown values too.
pub fn class(v: Value, side: Colour) -> Class
    ensures { result ≡ class_of v side }
{
    match (v, side) {
        (Value::WhiteWins | Value::WhiteWinsIn(_), Colour::White) => Class::Good,
        (Value::BlackWins | Value::BlackWinsIn(_), Colour::Black) => Class::Good,
        (Value::Draw, _) => Class::Safe,
        (Value::WhiteHolds, Colour::White) => Class::Safe,
        (Value::BlackHolds, Colour::Black) => Class::Safe,
        _ => Class::Bad,
    }
}

/// The lag of the value: in how many plies it wins, where it says so, and 0 otherwise.
pub fn lag(v: Value) -> u32
    ensures { result ≡ lag_of v }
{
    match v {
        Value::WhiteWinsIn(plies) | Value::BlackWinsIn(plies) => plies,
        _ => 0,
    }
}

/// Does the value say nothing of a position?
pub fn is_unknown(v: Value) -> bool
    ensures { result ≡ values.is_unknown v }
{
    matches!(v, Value::Unknown)
}
