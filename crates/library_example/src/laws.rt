//! A law of this program's own, made of laws of the library: the line by a side's table keeps its
//! bound.

ghost use Rattle.std.specs.Prelude.{ℕ, List};
ghost use Rattle.frz_board.specs.declared.man.Colour.{Colour};
ghost use Rattle.frz_board.specs.Boards.{Board};
ghost use Rattle.frz_sets.specs.Views.{RuleLines};
ghost use Rattle.frz_index.specs.Members.{Member, Num};
ghost use Rattle.frz_arena.specs.declared.bound.Bound.{Bound};
ghost use Rattle.frz_exits.specs.Books.{value_by};
ghost use Rattle.frz_game.specs.Bounds.{IsBoundAt, IsTableOf};
ghost use Rattle.frz_game.specs.Games.{graph_by};
ghost use Rattle.frz_ways.specs.declared.opponent.Opponent.TheVariants.{Codes};
ghost use Rattle.frz_ways.specs.Reading.{Input};
ghost use Rattle.frz_ways.specs.Ways.{WayPly, EndOfWay, GoesOn};
ghost use Rattle.library_example.specs.Lines.{KeepsBound};

use frz_arena::laws::lines::{holds_in_lines, wins_in_lines};
use frz_arena::laws::ways::games_are_closed;
use frz_board::{Move, Position};
use frz_game::laws::numbers::{membership, numbered};
use frz_rules::Value;
use frz_ways::laws::ends::ways_end_in_chess;
use frz_ways::laws::ways::{bounds_are_kept, one_way, ways_are_games};
use std::marker::Model;

/// Stands for what is left of an input, in laws of `frz_arena`. A line reads none.
pub struct LeftInput;

impl Model for LeftInput {
    ghost use Rattle.std.specs.Prelude.{[]};
    ghost use Rattle.frz_ways.specs.Reading.{Input, opened};

    ghost Value = { Input };

    ghost view = { λ _. opened [] };
}

/// Stands for why an input stops, in the same laws.
pub struct HaltedInput;

impl Model for HaltedInput {
    ghost use Rattle.frz_ways.specs.declared.hearing.Why.TheVariants.{Ended};
    ghost use Rattle.frz_ways.specs.Reading.{Halt, halted};

    ghost Value = { Halt };

    ghost view = { λ _. halted Ended };
}

/// From each position of the set there is a line by the side's table, and it keeps the side's
/// bound.
pub fn bounds_kept_in_lines()
    ensures { (rules : RuleLines) (side : Colour) (codes : List ℕ) (p : Board) (bound : Bound)
        (input : Input) → IsTableOf rules (value_by rules) side codes → Member rules.groups p →
        IsBoundAt rules (value_by rules) side p bound →
        (plies : List WayPly) × (end : EndOfWay) × (left : Input)
        × GoesOn (graph_by rules (value_by rules)) Codes side (λ k. codes) 0 input
        (Num rules.groups p) plies end left
        × KeepsBound rules side p bound plies end }
{
    one_way();
    ways_are_games();
    ways_end_in_chess();
    bounds_are_kept();
    wins_in_lines::<Move, (u32, u32), Value, LeftInput, HaltedInput>();
    holds_in_lines::<Move, (u32, u32), Value, LeftInput, HaltedInput>();
    games_are_closed::<Position, Move, Value>();
    membership();
    numbered();
}
