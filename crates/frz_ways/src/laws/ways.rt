//! Laws of ways, whoever finds the opponent's plies, and wherever the input stands: each law is the
//! contract of a function that does nothing.
ghost use Rattle.std.specs.Prelude.{◌≡◌, ◌+◌, ◌*◌, ℕ, List, [], Some, slice_index, MatchOption};
ghost use Rattle.frz_board.specs.declared.man.Colour.{Colour};
ghost use Rattle.frz_board.specs.Boards.{Board};
ghost use Rattle.frz_sets.specs.declared.exit.Value.{Value};
ghost use Rattle.frz_sets.specs.Views.{RuleLines};
ghost use Rattle.frz_arena.specs.Counted.{counted};
ghost use Rattle.frz_arena.specs.WayEnds.{Exit, EndsWon, EndsHeld};
ghost use Rattle.frz_game.specs.Games.{graph_by};
ghost use Rattle.frz_game.specs.Numbers.{position_at};
ghost use Rattle.frz_ways.specs.declared.opponent.Opponent.{Opponent};
ghost use Rattle.frz_ways.specs.ChessGames.{IsGame, after_plies};
ghost use Rattle.frz_ways.specs.Reading.{Input};
ghost use Rattle.frz_ways.specs.Ways.{WayPly, EndOfWay, GoesOn};

use crate::laws::sessions::{HaltedInput, LeftInput};
use frz_arena::laws::lines::lines_end;
use frz_arena::laws::sessions::{sessions_end, sides_move_in_turn};
use frz_arena::laws::ways;
use frz_board::{Move, Position};
use frz_fide::laws::all_listed;
use frz_game::laws::numbers::numbered;
use frz_sets::Value as ExitValue;

/// From each number there is exactly one way by given codes, wherever the input stands. `codes k` are
/// those known after `k` plies.
pub fn one_way()
    ensures there { (rules : RuleLines) (value : Board → Value) (opponent : Opponent)
        (side : Colour) (codes : ℕ → List ℕ) (start : ℕ) (input : Input) →
        (plies : List WayPly) × (end : EndOfWay) × (left : Input)
        × GoesOn (graph_by rules value) opponent side codes 0 input start plies end left }
    ensures one { (rules : RuleLines) (value : Board → Value) (opponent : Opponent)
        (side : Colour) (codes : ℕ → List ℕ) (start : ℕ) (input : Input)
        (plies others : List WayPly) (end last : EndOfWay) (left rest : Input) →
        GoesOn (graph_by rules value) opponent side codes 0 input start plies end left →
        GoesOn (graph_by rules value) opponent side codes 0 input start others last rest →
        (plies ≡ others) × (end ≡ last) × (left ≡ rest) }
{
    lines_end::<Move, (u32, u32), ExitValue, LeftInput, HaltedInput>();
    sessions_end::<Move, (u32, u32), ExitValue, LeftInput, HaltedInput>();
    sides_move_in_turn::<Position, Move, ExitValue>();
    ways::one_way::<Move, (u32, u32), ExitValue, LeftInput, HaltedInput>();
    all_listed();
    numbered();
}

/// A way is a game of chess. From a number that belongs to no position there is no ply.
pub fn ways_are_games()
    ensures game { (rules : RuleLines) (value : Board → Value) (opponent : Opponent)
        (side : Colour) (codes : ℕ → List ℕ) (start : ℕ) (input : Input)
        (plies : List WayPly) (end : EndOfWay) (left : Input) →
        GoesOn (graph_by rules value) opponent side codes 0 input start plies end left →
        MatchOption (position_at rules.groups start) (plies ≡ [])
        (λ p. IsGame rules side p plies) }

    // The value at its exit is that of the position behind its plies.
    ensures exit { (rules : RuleLines) (value : Board → Value) (opponent : Opponent)
        (side : Colour) (codes : ℕ → List ℕ) (start : ℕ) (input : Input)
        (plies : List WayPly) (v : Value) (left : Input) (p : Board) →
        GoesOn (graph_by rules value) opponent side codes 0 input start plies (Exit v) left →
        position_at rules.groups start ≡ Some p → v ≡ value (after_plies p plies) }
{
    ways::plies_keep::<Move, (u32, u32), ExitValue, LeftInput, HaltedInput>();
    ways::plies_follow::<Move, (u32, u32), ExitValue, LeftInput, HaltedInput>();
}

/// A way from a win is won, unless a code is not the local one or the input ends it. In a way from
/// a hold the side is not mated, and no exit is bad for it.
pub fn bounds_are_kept()
    ensures won { (rules : RuleLines) (value : Board → Value) (opponent : Opponent)
        (side : Colour) (codes : ℕ → List ℕ) (start n : ℕ) (input : Input)
        (plies : List WayPly) (end : EndOfWay) (left : Input) →
        slice_index (codes 0) start ≡ 2 + 2 * n →
        GoesOn (graph_by rules value) opponent side codes 0 input start plies end left →
        EndsWon (counted (graph_by rules value)) side end }
    ensures held { (rules : RuleLines) (value : Board → Value) (opponent : Opponent)
        (side : Colour) (codes : ℕ → List ℕ) (start : ℕ) (input : Input)
        (plies : List WayPly) (end : EndOfWay) (left : Input) →
        slice_index (codes 0) start ≡ 1 →
        GoesOn (graph_by rules value) opponent side codes 0 input start plies end left →
        EndsHeld (counted (graph_by rules value)) side end }
{
    ways::wins_are_kept::<Move, (u32, u32), ExitValue, LeftInput, HaltedInput>();
    ways::holds_are_kept::<Move, (u32, u32), ExitValue, LeftInput, HaltedInput>();
}
