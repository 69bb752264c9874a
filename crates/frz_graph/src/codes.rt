//! The code of an exit.

ghost use Rattle.std.specs.Prelude.{◌≡◌, ◌≤◌};
ghost use Rattle.frz_exits.specs.Values.{lag_of};
ghost use Rattle.frz_graph.specs.EntryCodes.{value_code};

use frz_board::Colour;
use frz_exits::{Value, class, lag};

/// The code for `side` of an exit of this value, from its class and its lag.
pub fn exit_code(v: Value, side: Colour) -> u32
    requires { lag_of v ≤ 1000 }
    ensures { result ≡ value_code side v }
{
    frz_arena::exit_code(class(v, side), lag(v))
}
