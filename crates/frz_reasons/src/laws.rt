//! Laws of failing ways: each law is the contract of a function that does nothing.
ghost use Rattle.std.specs.Prelude.{◌≡◌, ◌≤◌, ◌+◌, ◌*◌, ℕ, List, true, Some, length, slice_index};
ghost use Rattle.frz_board.specs.declared.man.Colour.{Colour};
ghost use Rattle.frz_board.specs.Boards.{Board};
ghost use Rattle.frz_board.specs.Men.{other_of};
ghost use Rattle.frz_board.specs.Moving.{Step};
ghost use Rattle.frz_sets.specs.declared.exit.Value.{Value};
ghost use Rattle.frz_sets.specs.Views.{RuleLines};
ghost use Rattle.frz_arena.specs.declared.arm.Arm.{Arm};
ghost use Rattle.frz_arena.specs.declared.node.Node.TheVariants.{Going};
ghost use Rattle.frz_arena.specs.Arena.{Arena, IsArm, IsLawful};
ghost use Rattle.frz_arena.specs.Codes.{is_failure};
ghost use Rattle.frz_game.specs.Bounds.{IsTableOf};
ghost use Rattle.frz_game.specs.Games.{graph_by};
ghost use Rattle.frz_game.specs.Numbers.{position_at};
ghost use Rattle.frz_reasons.specs.declared.reason.Reason.{Reason};
ghost use Rattle.frz_reasons.specs.FailingWays.{FailsFrom, IsPlayedAt};
ghost use Rattle.frz_reasons.specs.LocalEntries.{Agrees};
ghost use Rattle.frz_reasons.specs.FailuresTell.{FailsAt, FailsBehind};
ghost use Rattle.frz_reasons.specs.FailingGames.{IsGameFrom, EndsAt, IsSpoiled, IsRight, position_behind};

use frz_arena::laws::local::{opponent_codes, own_codes};
use frz_arena::laws::tables::exact_codes;
use frz_board::Move;
use frz_game::laws::numbers::numbered;
use frz_sets::Value as ExitValue;

/// Where the kept code of a number is the local one, and a failure, the side is mated there, or
/// renounces its moves, or a move leads to a failure of one ply less: the longest of the side's
/// free moves, all of which fail, or the quickest of its opponent's.
pub fn failures_are_spoiled()
    ensures { (arena : Arena Step ℕ Value) → IsLawful arena →
        (side : Colour) (codes : List ℕ) (number : ℕ) →
        is_failure (slice_index codes number) ≡ true → Agrees arena side codes number →
        FailsAt arena side codes number }
{
    own_codes::<Move, u32, ExitValue>();
    opponent_codes::<Move, u32, ExitValue>();
}

/// From each number whose code is a failure there is exactly one failing way by these codes.
pub fn one_failing_way()
    ensures there { (rules : RuleLines) (value : Board → Value) (side : Colour) (codes : List ℕ)
        (start : ℕ) → is_failure (slice_index codes start) ≡ true →
        (arms : List (Arm Step ℕ Value)) × (reason : Reason)
        × FailsFrom (graph_by rules value) side codes start arms reason }
    ensures one { (rules : RuleLines) (value : Board → Value) (side : Colour) (codes : List ℕ)
        (start : ℕ) (arms others : List (Arm Step ℕ Value)) (reason other : Reason) →
        FailsFrom (graph_by rules value) side codes start arms reason →
        FailsFrom (graph_by rules value) side codes start others other →
        (arms ≡ others) × (reason ≡ other) }
{
    failures_are_spoiled();
    numbered();
}

/// A failing way from the number of a position is a game of chess: each move is legal where it is
/// played, and the side plays none that it has renounced. The reason is true of the position behind
/// its moves.
pub fn failing_ways_are_games()
    ensures moves { (rules : RuleLines) (value : Board → Value) (side : Colour) (codes : List ℕ)
        (start : ℕ) (arms : List (Arm Step ℕ Value)) (reason : Reason) (p : Board) →
        position_at rules.groups start ≡ Some p →
        FailsFrom (graph_by rules value) side codes start arms reason →
        IsGameFrom rules side p arms }
    ensures end { (rules : RuleLines) (value : Board → Value) (side : Colour) (codes : List ℕ)
        (start : ℕ) (arms : List (Arm Step ℕ Value)) (reason : Reason) (p : Board) →
        position_at rules.groups start ≡ Some p →
        FailsFrom (graph_by rules value) side codes start arms reason →
        EndsAt rules value side (position_behind p arms) reason }
{}

/// Where the codes are those of the side's table, the opponent's move in a failing way spoils as
/// soon as any other of his. The side's move lasts as long as any other free one: all of them fail.
pub fn quickest()
    ensures opponent { (rules : RuleLines) (value : Board → Value) (side : Colour)
        (codes : List ℕ) → IsTableOf rules value side codes →
        (number : ℕ) → is_failure (slice_index codes number) ≡ true →
        (a : Arm Step ℕ Value) → IsPlayedAt (graph_by rules value) side codes number a →
        (graph_by rules value).node number ≡ Going (other_of side) →
        (b : Arm Step ℕ Value) → IsArm (graph_by rules value) number b → (plies : ℕ) →
        FailsBehind (graph_by rules value) side plies b →
        FailsBehind (graph_by rules value) side plies a }
    ensures own { (rules : RuleLines) (value : Board → Value) (side : Colour)
        (codes : List ℕ) → IsTableOf rules value side codes →
        (number : ℕ) → is_failure (slice_index codes number) ≡ true →
        (a : Arm Step ℕ Value) → IsPlayedAt (graph_by rules value) side codes number a →
        (graph_by rules value).node number ≡ Going side →
        (b : Arm Step ℕ Value) → IsArm (graph_by rules value) number b → b.free ≡ true →
        (plies : ℕ) → FailsBehind (graph_by rules value) side plies a →
        FailsBehind (graph_by rules value) side plies b }
{
    failures_are_spoiled();
    exact_codes::<Move, ExitValue>();
    numbered();
}

/// From a failure of n plies a failing way has n plies, unless a kept code is wrong; then it has at
/// most so many. By the side's table no code is wrong.
pub fn tables_are_never_wrong()
    ensures length { (rules : RuleLines) (value : Board → Value) (side : Colour) (codes : List ℕ)
        (start n : ℕ) (arms : List (Arm Step ℕ Value)) (reason : Reason) →
        slice_index codes start ≡ 3 + 2 * n →
        FailsFrom (graph_by rules value) side codes start arms reason →
        IsRight reason → length arms ≡ n }
    ensures few { (rules : RuleLines) (value : Board → Value) (side : Colour) (codes : List ℕ)
        (start n : ℕ) (arms : List (Arm Step ℕ Value)) (reason : Reason) →
        slice_index codes start ≡ 3 + 2 * n →
        FailsFrom (graph_by rules value) side codes start arms reason → length arms ≤ n }
    ensures right { (rules : RuleLines) (value : Board → Value) (side : Colour) (codes : List ℕ) →
        IsTableOf rules value side codes →
        (start : ℕ) (arms : List (Arm Step ℕ Value)) (reason : Reason) →
        FailsFrom (graph_by rules value) side codes start arms reason → IsRight reason }
{
    failures_are_spoiled();
    numbered();
}

/// The value at which a failing way leaves the set is bad for the side: a loss, or it does not say
/// that the side holds.
pub fn spoils()
    ensures { (rules : RuleLines) (value : Board → Value) (side : Colour) (codes : List ℕ)
        (start : ℕ) (arms : List (Arm Step ℕ Value)) (reason : Reason) →
        is_failure (slice_index codes start) ≡ true →
        FailsFrom (graph_by rules value) side codes start arms reason → IsSpoiled side reason }
{
    failures_are_spoiled();
    numbered();
}
