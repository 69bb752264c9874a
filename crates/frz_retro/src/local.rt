//! A law: where the solver's conditions settle a number, they give its local code.

ghost use Rattle.std.specs.Prelude.{◌≡◌, ℕ, List};
ghost use Rattle.frz_board.specs.Moving.{Step};
ghost use Rattle.frz_board.specs.declared.man.Colour as colours;
ghost use Rattle.frz_sets.specs.declared.exit.Value as values;
ghost use Rattle.frz_arena.specs.Arena.{Arena};
ghost use Rattle.frz_graph.specs.Finite.{IsFinite};
ghost use Rattle.frz_retro.specs.State.{GivesLocalCodes};

use frz_arena::laws::local::{opponent_codes, own_codes};
use frz_board::Move;
use frz_sets::Value;

/// A number that is settled has its local code, and a number that stays open to the end has the
/// local code 1.
pub fn local_codes()
    ensures { (arena : Arena Step ℕ values.Value) (size : ℕ) → IsFinite arena size →
        (side : colours.Colour) (entries : List ℕ) → GivesLocalCodes arena side entries }
{
    own_codes::<Move, u32, Value>();
    opponent_codes::<Move, u32, Value>();
}
