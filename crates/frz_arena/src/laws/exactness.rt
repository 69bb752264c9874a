//! Where the bounds of a side are exact in chess.

ghost use Rattle.std.specs.Prelude.{◌≡◌, ◌+◌, ◌↔◌, ℕ, true};
ghost use Rattle.frz_board.specs.declared.man.Colour.{Colour};
ghost use Rattle.frz_board.specs.Men.{other_of};
ghost use Rattle.frz_arena.specs.declared.bound.Bound.{Bound};
ghost use Rattle.frz_arena.specs.declared.bound.Bound.TheVariants.{Wins, Holds, Fails};
ghost use Rattle.frz_arena.specs.Bounds.{IsBound};
ghost use Rattle.frz_arena.specs.Chess.{ForcesMate};
ghost use Rattle.frz_arena.specs.declared.class.Class.TheVariants.{Good, Bad};
ghost use Rattle.frz_arena.specs.Exits.{TrueExits};
ghost use Rattle.frz_arena.specs.Games.{Game, arena_of};
ghost use Rattle.frz_arena.specs.Plies.{WinsWithin, FailsWithin};
ghost use Rattle.frz_arena.specs.WholeTruth.{CanForceMate, MatesIn, IsDead, MovesFreely, TrueHolds, WinsAreKnown, WinsAreCounted, LossesAreKnown, TrueLosses, LossesWithin, NoneIsBad, IsDecided, IsWin, IsFailure, WinsWithinMore};

/// Where each legal move of a side is free, and the values just outside the set say exactly where
/// it and its opponent force mate, its bound at a position of the set is a win exactly where it
/// forces mate in chess, a failure exactly where the opponent forces mate, and a hold exactly where
/// neither does.
pub fn exact_bounds<P, M, V>()
    ensures win { (game : Game P M V) (side : Colour) → MovesFreely game side →
        WinsAreKnown game side →
        (p : P) (b : Bound) → game.member p ≡ true → IsBound (arena_of game) side p b →
        IsWin b ↔ CanForceMate game.chess side p }
    ensures failure { (game : Game P M V) (side : Colour) → MovesFreely game side →
        LossesAreKnown game side →
        (p : P) (b : Bound) → game.member p ≡ true → IsBound (arena_of game) side p b →
        IsFailure b ↔ CanForceMate game.chess (other_of side) p }
    ensures hold { (game : Game P M V) (side : Colour) → MovesFreely game side →
        WinsAreKnown game side → LossesAreKnown game side →
        (p : P) → game.member p ≡ true →
        IsBound (arena_of game) side p Holds ↔ IsDead game.chess side p }
{}

/// Where each legal move of a side is free, and the values just outside the set say exactly within
/// how many plies it forces mate, it wins within n plies exactly where it forces mate within n
/// plies in chess. So the plies of its win are the distance to mate: no quicker mate exists. Where
/// instead no value just outside is bad for it, and the opponent forces no mate there, the plies of
/// its failures are the opponent's distance to mate.
pub fn exact_plies<P, M, V>()
    ensures within { (game : Game P M V) (side : Colour) → MovesFreely game side →
        WinsAreCounted game side →
        (n : ℕ) (p : P) → game.member p ≡ true →
        WinsWithin (arena_of game) side n p ↔ ForcesMate game.chess side n p }
    ensures least { (game : Game P M V) (side : Colour) → MovesFreely game side →
        WinsAreCounted game side →
        (n : ℕ) (p : P) → game.member p ≡ true →
        IsBound (arena_of game) side p (Wins n) ↔ MatesIn game.chess side n p }
    ensures failing { (game : Game P M V) (side : Colour) → MovesFreely game side →
        NoneIsBad game side → TrueHolds game side →
        (n : ℕ) (p : P) → game.member p ≡ true →
        FailsWithin (arena_of game) side n p ↔ ForcesMate game.chess (other_of side) n p }
    ensures least_failing { (game : Game P M V) (side : Colour) → MovesFreely game side →
        NoneIsBad game side → TrueHolds game side →
        (n : ℕ) (p : P) → game.member p ≡ true →
        IsBound (arena_of game) side p (Fails n) ↔ MatesIn game.chess (other_of side) n p }
{}

/// Where the values of the exits are true, and each of them decides the game, they say exactly
/// where each side forces mate. Where the opponent wins or holds by each of them, the side forces
/// no mate outside, and there are no plies to count.
pub fn known_outside<P, M, V>()
    ensures wins { (game : Game P M V) → TrueExits game → (side : Colour) → IsDecided game →
        WinsAreKnown game side }
    ensures losses { (game : Game P M V) → TrueExits game → (side : Colour) → IsDecided game →
        LossesAreKnown game side }
    ensures none_won { (game : Game P M V) → TrueExits game → (side : Colour) →
        ((v : V) (c : Colour) → game.class v c ≡ Good → game.class v (other_of c) ≡ Bad) →
        NoneIsBad game (other_of side) → WinsAreCounted game side }
{}

/// Where each legal move of a side is free, and each value that is bad for it just outside the set
/// is a true win of its opponent, a failure of the side is a win of its opponent in chess. Where
/// each of these wins takes at most `most` plies, a failure within n plies is a mate by the
/// opponent within n + `most` plies.
pub fn failures_are_lost<P, M, V>()
    ensures lost { (game : Game P M V) (side : Colour) → MovesFreely game side →
        TrueLosses game side → (n : ℕ) (p : P) → FailsWithin (arena_of game) side n p →
        CanForceMate game.chess (other_of side) p }
    ensures within { (game : Game P M V) (side : Colour) → MovesFreely game side →
        (most : ℕ) → LossesWithin game side most →
        (n : ℕ) (p : P) → FailsWithin (arena_of game) side n p →
        ForcesMate game.chess (other_of side) (n + most) p }
{}

/// Where each win just outside the set is a mate within at most `more` plies more than its lag,
/// each win within n plies in the set is a mate within n + `more` plies.
pub fn plies_add<P, M, V>()
    ensures { (game : Game P M V) (side : Colour) (more : ℕ) → WinsWithinMore game side more →
        (n : ℕ) (p : P) → WinsWithin (arena_of game) side n p →
        ForcesMate game.chess side (n + more) p }
{}
