//! Laws of sessions: each law is the contract of a function that does nothing.
ghost use Rattle.std.specs.Prelude.{◌≡◌, ◌≤◌, ◌+◌, ◌*◌, ◌++◌, ℕ, List, [], Some, length, slice_get, slice_index, MatchOption};
ghost use Rattle.std.specs.List.{Contains};
ghost use Rattle.frz_board.specs.declared.man.Colour.{Colour};
ghost use Rattle.frz_board.specs.Boards.{Board};
ghost use Rattle.frz_board.specs.Men.{other_of};
ghost use Rattle.frz_board.specs.Moving.{Step};
ghost use Rattle.frz_fide.specs.Legal.{after};
ghost use Rattle.frz_fide.specs.Listing.{legal_moves_of};
ghost use Rattle.frz_sets.specs.declared.exit.Value.{Value};
ghost use Rattle.frz_sets.specs.Views.{RuleLines};
ghost use Rattle.frz_arena.specs.Chess.{NeverForcesMate};
ghost use Rattle.frz_arena.specs.Counted.{counted};
ghost use Rattle.frz_arena.specs.WayEnds.{Wrong, Exit, EndsWon, EndsHeld};
ghost use Rattle.frz_exits.specs.Values.{lag_of};
ghost use Rattle.frz_game.specs.Bounds.{IsTableOf};
ghost use Rattle.frz_game.specs.Games.{chess, graph_by};
ghost use Rattle.frz_game.specs.Numbers.{position_at};
ghost use Rattle.frz_game.specs.Values.{AreTrueExits};
ghost use Rattle.frz_index.specs.Members.{Member, Num};
ghost use Rattle.frz_ways.specs.ChessGames.{IsGame};
ghost use Rattle.frz_ways.specs.declared.session_end.TheConstants.{MOST_LINES, MOST_LENGTH};
ghost use Rattle.frz_ways.specs.Reading.{Input, Halt};
ghost use Rattle.frz_ways.specs.Sessions.{SessionPly, EndOfSession, IsSession};

use frz_arena::laws::sessions::{sessions_end, sides_move_in_turn};
use frz_arena::laws::ways;
use frz_board::{Move, Position};
use frz_fide::laws::all_listed;
use frz_game::laws::exits::true_values;
use frz_game::laws::numbers::{membership, numbered};
use frz_sets::Value as ExitValue;
use std::marker::Model;

/// Stands for what is left of an input.
pub(crate) struct LeftInput;

impl Model for LeftInput {
    ghost use Rattle.std.specs.Prelude.{[]};
    ghost use Rattle.frz_ways.specs.Reading.{Input, opened};

    ghost Value = { Input };

    ghost view = { λ _. opened [] };
}

/// Stands for why an input gives no reply.
pub(crate) struct HaltedInput;

impl Model for HaltedInput {
    ghost use Rattle.frz_ways.specs.declared.hearing.Why.TheVariants.{Ended};
    ghost use Rattle.frz_ways.specs.Reading.{Halt, halted};

    ghost Value = { Halt };

    ghost view = { λ _. halted Ended };
}

/// From each number there is exactly one session by given codes against a given input. `codes k`
/// are those known after `k` plies.
pub fn one_session()
    ensures there { (rules : RuleLines) (value : Board → Value)
        (side : Colour) (codes : ℕ → List ℕ) (start : ℕ) (input : List ℕ) →
        (plies : List SessionPly) × (end : EndOfSession) × (left : Input)
        × IsSession rules value side codes start input plies end left }
    ensures one { (rules : RuleLines) (value : Board → Value)
        (side : Colour) (codes : ℕ → List ℕ) (start : ℕ) (input : List ℕ)
        (plies others : List SessionPly) (end last : EndOfSession) (left rest : Input) →
        IsSession rules value side codes start input plies end left →
        IsSession rules value side codes start input others last rest →
        (plies ≡ others) × (end ≡ last) × (left ≡ rest) }
{
    sessions_end::<Move, (u32, u32), ExitValue, LeftInput, HaltedInput>();
    sides_move_in_turn::<Position, Move, ExitValue>();
    ways::one_way::<Move, (u32, u32), ExitValue, LeftInput, HaltedInput>();
    all_listed();
    numbered();
}

/// From a start whose code is a win in n plies, a session has at most n plies, with the lag of an
/// exit counted, and is won: the opponent is mated, or the exit wins. Only a code that is not the
/// local one, or the input, ends it otherwise.
pub fn wins_are_kept()
    ensures few { (rules : RuleLines) (value : Board → Value)
        (side : Colour) (codes : ℕ → List ℕ) (start n : ℕ) (input : List ℕ)
        (plies : List SessionPly) (end : EndOfSession) (left : Input) →
        slice_index (codes 0) start ≡ 2 + 2 * n →
        IsSession rules value side codes start input plies end left → length plies ≤ n }
    ensures won { (rules : RuleLines) (value : Board → Value)
        (side : Colour) (codes : ℕ → List ℕ) (start n : ℕ) (input : List ℕ)
        (plies : List SessionPly) (end : EndOfSession) (left : Input) →
        slice_index (codes 0) start ≡ 2 + 2 * n →
        IsSession rules value side codes start input plies end left →
        EndsWon (counted (graph_by rules value)) side end }
    ensures exit { (rules : RuleLines) (value : Board → Value)
        (side : Colour) (codes : ℕ → List ℕ) (start n : ℕ) (input : List ℕ)
        (plies : List SessionPly) (v : Value) (left : Input) →
        slice_index (codes 0) start ≡ 2 + 2 * n →
        IsSession rules value side codes start input plies (Exit v) left →
        length plies + lag_of v ≤ n }
{
    ways::wins_are_kept::<Move, (u32, u32), ExitValue, LeftInput, HaltedInput>();
}

/// From a start whose code is a hold, the side is not mated in a session, and no exit is bad for
/// it.
pub fn holds_are_kept()
    ensures { (rules : RuleLines) (value : Board → Value)
        (side : Colour) (codes : ℕ → List ℕ) (start : ℕ) (input : List ℕ)
        (plies : List SessionPly) (end : EndOfSession) (left : Input) →
        slice_index (codes 0) start ≡ 1 →
        IsSession rules value side codes start input plies end left →
        EndsHeld (counted (graph_by rules value)) side end }
{
    ways::holds_are_kept::<Move, (u32, u32), ExitValue, LeftInput, HaltedInput>();
}

/// A session is a game of chess: from its first position on, each move is legal where it is played,
/// and the side itself plays no move that it has renounced. From a number that belongs to no
/// position there is no ply.
pub fn sessions_are_games()
    ensures { (rules : RuleLines) (value : Board → Value)
        (side : Colour) (codes : ℕ → List ℕ) (start : ℕ) (input : List ℕ)
        (plies : List SessionPly) (end : EndOfSession) (left : Input) →
        IsSession rules value side codes start input plies end left →
        MatchOption (position_at rules.groups start) (plies ≡ [])
        (λ p. IsGame rules side p plies) }
{
    ways::plies_keep::<Move, (u32, u32), ExitValue, LeftInput, HaltedInput>();
    ways::plies_follow::<Move, (u32, u32), ExitValue, LeftInput, HaltedInput>();
}

/// A session takes bytes from the front of its input, at most `MOST_LINES` lines of `MOST_LENGTH`
/// bytes, each with its line feed.
pub fn few_bytes_taken()
    ensures { (rules : RuleLines) (value : Board → Value)
        (side : Colour) (codes : ℕ → List ℕ) (start : ℕ) (input : List ℕ)
        (plies : List SessionPly) (end : EndOfSession) (left : Input) →
        IsSession rules value side codes start input plies end left →
        (taken : List ℕ) × (taken ++ left.left ≡ input)
        × (length taken ≤ MOST_LINES * (MOST_LENGTH + 1)) }
{}

/// Where the codes after each number of plies are those of the side's table, no session from a
/// position of the set meets a code that is not the local one.
pub fn tables_are_never_wrong()
    ensures { (rules : RuleLines) (value : Board → Value) (side : Colour) (codes : ℕ → List ℕ) →
        ((k : ℕ) → IsTableOf rules value side (codes k)) → (p : Board) → Member rules.groups p →
        (input : List ℕ) (plies : List SessionPly) (at : ℕ × ℕ) (kept given : ℕ) (left : Input) →
        IsSession rules value side codes (Num rules.groups p) input plies
        (Wrong at kept given) left → ⊥ }
{
    ways::games_are_closed::<Position, Move, ExitValue>();
    membership();
    numbered();
}

/// Where the codes after each number of plies are those of the side's table, and the values of the
/// exits are true in chess, the opponent can force no mate in chess after any ply of a session, in
/// the set or out of it.
pub fn sessions_are_safe()
    ensures { (rules : RuleLines) (value : Board → Value) → AreTrueExits rules value →
        (side : Colour) (codes : ℕ → List ℕ) → ((k : ℕ) → IsTableOf rules value side (codes k)) →
        (start : ℕ) (input : List ℕ)
        (plies : List SessionPly) (end : EndOfSession) (left : Input) →
        IsSession rules value side codes start input plies end left →
        (x : SessionPly) → Contains plies x →
        (p : Board) (m : Step) → position_at rules.groups x.from.1 ≡ Some p →
        slice_get (legal_moves_of p) x.place ≡ Some m →
        NeverForcesMate chess (other_of side) (after p m) }
{
    true_values();
    numbered();
}
