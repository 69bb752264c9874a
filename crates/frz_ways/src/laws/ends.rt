//! The law of how ways end in chess: the contract of a function that does nothing.
ghost use Rattle.std.specs.Prelude.{◌≡◌, ℕ, List, Some};
ghost use Rattle.frz_board.specs.declared.man.Colour.{Colour};
ghost use Rattle.frz_board.specs.Boards.{Board};
ghost use Rattle.frz_sets.specs.declared.exit.Value.{Value};
ghost use Rattle.frz_sets.specs.Views.{RuleLines};
ghost use Rattle.frz_game.specs.Games.{graph_by};
ghost use Rattle.frz_game.specs.Numbers.{position_at};
ghost use Rattle.frz_ways.specs.declared.opponent.Opponent.{Opponent};
ghost use Rattle.frz_ways.specs.ChessGames.{after_plies};
ghost use Rattle.frz_ways.specs.EndsOfGames.{StandsAt};
ghost use Rattle.frz_ways.specs.Reading.{Input};
ghost use Rattle.frz_ways.specs.Ways.{WayPly, EndOfWay, GoesOn};

use crate::laws::sessions::{HaltedInput, LeftInput};
use frz_arena::laws::ways::plies_keep;
use frz_board::Move;
use frz_sets::Value as ExitValue;

/// A way ends in chess as it says. Where it ends with a side mated or stalemated, the position
/// behind its plies is a mate or a stalemate, and that side is to move. Where it ends at an exit,
/// the set does not have this position, and the exit has its value.
pub fn ways_end_in_chess()
    ensures { (rules : RuleLines) (value : Board → Value) (opponent : Opponent)
        (side : Colour) (codes : ℕ → List ℕ) (start : ℕ) (input : Input)
        (plies : List WayPly) (end : EndOfWay) (left : Input) (p : Board) →
        GoesOn (graph_by rules value) opponent side codes 0 input start plies end left →
        position_at rules.groups start ≡ Some p →
        StandsAt rules value (after_plies p plies) end }
{
    plies_keep::<Move, (u32, u32), ExitValue, LeftInput, HaltedInput>();
}
