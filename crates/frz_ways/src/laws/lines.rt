//! Laws of best lines: each law is the contract of a function that does nothing.
ghost use Rattle.std.specs.Prelude.{◌≡◌, ◌≤◌, ◌+◌, ◌*◌, ℕ, List, [], length, slice_index, MatchOption};
ghost use Rattle.frz_board.specs.declared.man.Colour.{Colour};
ghost use Rattle.frz_board.specs.Boards.{Board};
ghost use Rattle.frz_sets.specs.declared.exit.Value.{Value};
ghost use Rattle.frz_sets.specs.Views.{RuleLines};
ghost use Rattle.frz_arena.specs.Counted.{counted};
ghost use Rattle.frz_arena.specs.WayEnds.{Wrong, Mated, Exit, Cut, EndsWon, EndsDrawn};
ghost use Rattle.frz_exits.specs.Values.{lag_of};
ghost use Rattle.frz_game.specs.Bounds.{IsTableOf};
ghost use Rattle.frz_game.specs.Games.{graph_by};
ghost use Rattle.frz_game.specs.Numbers.{position_at};
ghost use Rattle.frz_index.specs.Members.{Member, Num};
ghost use Rattle.frz_ways.specs.declared.end.TheConstants.{LINE_LIMIT};
ghost use Rattle.frz_ways.specs.ChessGames.{IsGame};
ghost use Rattle.frz_ways.specs.Lines.{LinePly, EndOfLine, IsLine};

use frz_arena::laws::lines::{holds_in_lines, lines_end, wins_in_lines};
use frz_arena::laws::ways::{games_are_closed, one_way, plies_follow, plies_keep, wins_are_kept};
use frz_board::{Move, Position};
use frz_game::laws::numbers::{membership, numbered};
use frz_sets::Value as ExitValue;
use std::convert::Infallible;

/// From each number there is exactly one line by given codes. `codes k` are those known after `k`
/// plies.
pub fn one_line()
    ensures there { (rules : RuleLines) (value : Board → Value)
        (side : Colour) (codes : ℕ → List ℕ) (start : ℕ) →
        (plies : List LinePly) × (end : EndOfLine) × IsLine rules value side codes start plies end }
    ensures one { (rules : RuleLines) (value : Board → Value)
        (side : Colour) (codes : ℕ → List ℕ) (start : ℕ)
        (plies others : List LinePly) (end last : EndOfLine) →
        IsLine rules value side codes start plies end →
        IsLine rules value side codes start others last →
        (plies ≡ others) × (end ≡ last) }
{
    lines_end::<Move, (u32, u32), ExitValue, (), Infallible>();
    one_way::<Move, (u32, u32), ExitValue, (), Infallible>();
    numbered();
}

/// A line is a game of chess: from its first position on, each move is legal where it is played,
/// and the side itself plays no move that it has renounced. From a number that belongs to no
/// position there is no ply.
pub fn lines_are_games()
    ensures { (rules : RuleLines) (value : Board → Value)
        (side : Colour) (codes : ℕ → List ℕ) (start : ℕ)
        (plies : List LinePly) (end : EndOfLine) →
        IsLine rules value side codes start plies end →
        MatchOption (position_at rules.groups start) (plies ≡ [])
        (λ p. IsGame rules side p plies) }
{
    plies_keep::<Move, (u32, u32), ExitValue, (), Infallible>();
    plies_follow::<Move, (u32, u32), ExitValue, (), Infallible>();
}

/// From a start whose code is a win in n plies, a line has at most n plies and is won: by a mate
/// after just n plies, or at a winning exit, where its lag and the plies before it add up to n.
/// Only a code that is not the local one ends it otherwise.
pub fn least_plies()
    ensures few { (rules : RuleLines) (value : Board → Value)
        (side : Colour) (codes : ℕ → List ℕ) (start n : ℕ)
        (plies : List LinePly) (end : EndOfLine) → slice_index (codes 0) start ≡ 2 + 2 * n →
        IsLine rules value side codes start plies end → length plies ≤ n }
    ensures won { (rules : RuleLines) (value : Board → Value)
        (side : Colour) (codes : ℕ → List ℕ) (start n : ℕ)
        (plies : List LinePly) (end : EndOfLine) → slice_index (codes 0) start ≡ 2 + 2 * n →
        IsLine rules value side codes start plies end
        → EndsWon (counted (graph_by rules value)) side end }
    ensures mate { (rules : RuleLines) (value : Board → Value)
        (side mover : Colour) (codes : ℕ → List ℕ) (start n : ℕ)
        (plies : List LinePly) → slice_index (codes 0) start ≡ 2 + 2 * n →
        IsLine rules value side codes start plies (Mated mover) → length plies ≡ n }
    ensures exit { (rules : RuleLines) (value : Board → Value)
        (side : Colour) (codes : ℕ → List ℕ) (start n : ℕ)
        (plies : List LinePly) (v : Value) → slice_index (codes 0) start ≡ 2 + 2 * n →
        IsLine rules value side codes start plies (Exit v) → length plies + lag_of v ≡ n }
{
    wins_are_kept::<Move, (u32, u32), ExitValue, (), Infallible>();
    wins_in_lines::<Move, (u32, u32), ExitValue, (), Infallible>();
}

/// From a start whose code is a hold, nobody is mated in a line, and an exit holds for the side and
/// does not win. The line has at most `LINE_LIMIT` plies, and exactly so many where it is cut.
pub fn holds_are_drawn()
    ensures drawn { (rules : RuleLines) (value : Board → Value)
        (side : Colour) (codes : ℕ → List ℕ) (start : ℕ)
        (plies : List LinePly) (end : EndOfLine) → slice_index (codes 0) start ≡ 1 →
        IsLine rules value side codes start plies end
        → EndsDrawn (counted (graph_by rules value)) side end }
    ensures few { (rules : RuleLines) (value : Board → Value)
        (side : Colour) (codes : ℕ → List ℕ) (start : ℕ)
        (plies : List LinePly) (end : EndOfLine) → slice_index (codes 0) start ≡ 1 →
        IsLine rules value side codes start plies end → length plies ≤ LINE_LIMIT }
    ensures cut { (rules : RuleLines) (value : Board → Value)
        (side : Colour) (codes : ℕ → List ℕ) (start : ℕ)
        (plies : List LinePly) → slice_index (codes 0) start ≡ 1 →
        IsLine rules value side codes start plies Cut → length plies ≡ LINE_LIMIT }
{
    holds_in_lines::<Move, (u32, u32), ExitValue, (), Infallible>();
}

/// Where the codes after each number of plies are those of the side's table, no line from a
/// position of the set meets a code that is not the local one.
pub fn tables_are_never_wrong()
    ensures { (rules : RuleLines) (value : Board → Value) (side : Colour) (codes : ℕ → List ℕ) →
        ((k : ℕ) → IsTableOf rules value side (codes k)) → (p : Board) → Member rules.groups p →
        (plies : List LinePly) (at : ℕ × ℕ) (kept given : ℕ) →
        IsLine rules value side codes (Num rules.groups p) plies (Wrong at kept given) → ⊥ }
{
    games_are_closed::<Position, Move, ExitValue>();
    membership();
    numbered();
}
