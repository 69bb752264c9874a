//! Sessions: the opponent's plies come from an input.

ghost use Rattle.std.specs.Prelude.{◌≡◌, ℕ, List};
ghost use Rattle.std.specs.List.{Contains};
ghost use Rattle.frz_arena.specs.Arena.{IsLawful};
ghost use Rattle.frz_board.specs.Men.{other_of};
ghost use Rattle.frz_arena.specs.Games.{Game, arena_of};
ghost use Rattle.frz_arena.specs.Names.{Numbering, IsNumbering, numbers_of};
ghost use Rattle.frz_arena.specs.Inputs.{Answer, IsInput};
ghost use Rattle.frz_arena.specs.Turns.{Alternates};
ghost use Rattle.frz_arena.specs.WayEnds.{End};
ghost use Rattle.frz_arena.specs.Ways.{Player, Ply, ByInput, IsWay};

/// From each start there is a session with an end, where the sides move in turn, and each reply of
/// the input is a move of the position and uses up some of the input.
pub fn sessions_end<M, N, V, S, R>()
    ensures { (player : Player M N V S R) (read : N → S → Answer S R) →
        player.opponent ≡ ByInput read →
        IsLawful player.arena → Alternates player.arena →
        (size : S → ℕ) → IsInput player.arena size read →
        (s : S) (p : N) → (xs : List (Ply M N V)) × (e : End N V R) × (t : S)
        × IsWay player 0 s p xs e t }
{}

/// In a game where each legal move changes the side to move, the sides move in turn in its arena,
/// and in that of its numbers.
pub fn sides_move_in_turn<P, M, V>()
    ensures game { (game : Game P M V) → ((p : P) (m : M) → Contains (game.chess.moves p) m →
        game.chess.turn (game.chess.play p m) ≡ other_of (game.chess.turn p))
        → Alternates (arena_of game) }
    ensures numbers { (game : Game P M V) → ((p : P) (m : M) → Contains (game.chess.moves p) m →
        game.chess.turn (game.chess.play p m) ≡ other_of (game.chess.turn p)) →
        (numbers : Numbering P) → IsNumbering numbers (arena_of game) →
        Alternates (numbers_of numbers (arena_of game)) }
{}
