//! Laws of journeys: each law is the contract of a function that does nothing.
ghost use Rattle.std.specs.Prelude.{◌≡◌, ◌≤◌, ◌+◌, ◌*◌, ℕ, List, length, slice_index};
ghost use Rattle.frz_board.specs.Boards.{Board};
ghost use Rattle.frz_board.specs.declared.man.Colour.{Colour};
ghost use Rattle.frz_index.specs.Members.{Member, Num};
ghost use Rattle.frz_backs.specs.Links.{Link};
ghost use Rattle.frz_ways.specs.declared.opponent.Opponent.{Opponent};
ghost use Rattle.frz_ways.specs.Reading.{Input};
ghost use Rattle.frz_journeys.specs.declared.place.Place.{Place};
ghost use Rattle.frz_journeys.specs.Tables.{codes_of};
ghost use Rattle.frz_journeys.specs.Journeys.{Stage, IsJourney};
ghost use Rattle.frz_journeys.specs.ExactJourneys.{EndsRight, IsExactOver};
ghost use Rattle.frz_journeys.specs.JourneyGames.{AreLegalFrom, AtEach, AtLast, IsGameBy, moves_of};
ghost use Rattle.frz_journeys.specs.KeptBounds.{HaveOwnSets, IsHeldAt, IsWonAt};

use frz_arena::laws::ways::games_are_closed;
use frz_board::{Move, Position};
use frz_fide::laws::all_listed;
use frz_game::laws::numbers::{membership, numbered};
use frz_sets::Value;
use frz_ways::laws::ways::{bounds_are_kept, one_way, ways_are_games};

/// From each position there is exactly one journey by given tables, wherever the input stands. So
/// text, end and place are determined by codes and input.
pub fn one_journey()
    ensures there { (opponent : Opponent) (side : Colour) (before : List Link) (table : Link)
        (place : Place) (start : Board) (input : Input) →
        (stages : List Stage) × (left : Input)
        × IsJourney opponent side before table place start input stages left }
    ensures one { (opponent : Opponent) (side : Colour) (before : List Link) (table : Link)
        (place : Place) (start : Board) (input : Input)
        (stages others : List Stage) (left rest : Input) →
        IsJourney opponent side before table place start input stages left →
        IsJourney opponent side before table place start input others rest →
        (stages ≡ others) × (left ≡ rest) }
{
    one_way();
}

/// A journey from a position of the table's set is a game of chess: each move is legal where it is
/// played. At each stage the side plays no move that it has renounced in the rules of its table.
pub fn journeys_are_games()
    ensures moves { (opponent : Opponent) (side : Colour) (before : List Link) (table : Link)
        (place : Place) (start : Board) (input : Input) (stages : List Stage) (left : Input) →
        Member table.rules.groups start →
        IsJourney opponent side before table place start input stages left →
        AreLegalFrom start (moves_of stages) }
    ensures games { (opponent : Opponent) (side : Colour) (before : List Link) (table : Link)
        (place : Place) (start : Board) (input : Input) (stages : List Stage) (left : Input) →
        Member table.rules.groups start →
        IsJourney opponent side before table place start input stages left →
        AtEach (IsGameBy side) before table stages }
{
    ways_are_games();
    all_listed();
}

/// A journey from a win is won: it is played to the mate of the opponent, or to an exit that an
/// exit line gives to the side. Only a wrong code or the input ends it otherwise. In a journey from
/// a hold the side is not mated, and no exit is bad for it.
pub fn bounds_are_kept_on()
    ensures won { (opponent : Opponent) (side : Colour) (before : List Link) (table : Link)
        (place : Place) (start : Board) (input : Input) (stages : List Stage) (left : Input)
        (n : ℕ) → HaveOwnSets before → Member table.rules.groups start →
        slice_index (codes_of side table) (Num table.rules.groups start) ≡ 2 + 2 * n →
        IsJourney opponent side before table place start input stages left →
        AtLast (IsWonAt side) before table stages }
    ensures held { (opponent : Opponent) (side : Colour) (before : List Link) (table : Link)
        (place : Place) (start : Board) (input : Input) (stages : List Stage) (left : Input) →
        HaveOwnSets before → Member table.rules.groups start →
        slice_index (codes_of side table) (Num table.rules.groups start) ≡ 1 →
        IsJourney opponent side before table place start input stages left →
        AtLast (IsHeldAt side) before table stages }
{
    ways_are_games();
    bounds_are_kept();
}

/// A journey has at most one stage at each table: each table that goes on stands before the last.
pub fn few_stages()
    ensures { (opponent : Opponent) (side : Colour) (before : List Link) (table : Link)
        (place : Place) (start : Board) (input : Input) (stages : List Stage) (left : Input) →
        IsJourney opponent side before table place start input stages left →
        length stages ≤ 1 + length before }
{}

/// Where each table is exact over those before it, no wrong code ends a journey from a position of
/// the table's set.
pub fn exact_tables_are_never_wrong()
    ensures { (opponent : Opponent) (side : Colour) (before : List Link) (table : Link)
        (place : Place) (start : Board) (input : Input) (stages : List Stage) (left : Input) →
        IsExactOver before table → Member table.rules.groups start →
        IsJourney opponent side before table place start input stages left →
        AtLast EndsRight before table stages }
{
    games_are_closed::<Position, Move, Value>();
    membership();
    numbered();
}
