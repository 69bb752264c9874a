//! Two restricted games over the same chess.

ghost use Rattle.std.specs.Prelude.{◌≡◌, ℕ, true};
ghost use Rattle.frz_board.specs.declared.man.Colour.{Colour};
ghost use Rattle.frz_board.specs.Men.{other_of};
ghost use Rattle.frz_arena.specs.declared.bound.Bound.{Bound};
ghost use Rattle.frz_arena.specs.declared.bound.Bound.TheVariants.{Wins};
ghost use Rattle.frz_arena.specs.Bounds.{IsBound};
ghost use Rattle.frz_arena.specs.Comparing.{IsNoWorse, IsAtLeast};
ghost use Rattle.frz_arena.specs.Exits.{TrueExits};
ghost use Rattle.frz_arena.specs.Games.{Game, arena_of};
ghost use Rattle.frz_arena.specs.Plies.{WinsWithin, FailsWithin};
ghost use Rattle.frz_arena.specs.WholeTruth.{TrueWins, TrueHolds, IsFailure};

/// Where the values of all exits are true in chess, the wins and holds among them are true for each
/// side.
pub fn true_for_each<P, M, V>()
    ensures wins { (game : Game P M V) → TrueExits game → (side : Colour) → TrueWins game side }
    ensures holds { (game : Game P M V) → TrueExits game → (side : Colour) → TrueHolds game side }
{}

/// Two games over the same chess never contradict each other: where the side wins in the first, its
/// opponent neither wins nor holds in the second. It is enough that the side's wins just outside
/// the set are true in the first, and the opponent's wins and holds just outside it in the second.
pub fn no_contradiction<P, M, V, W>()
    ensures fails { (first : Game P M V) (second : Game P M W) → first.chess ≡ second.chess →
        (side : Colour) → TrueWins first side → TrueHolds second (other_of side) →
        (n : ℕ) (p : P) → WinsWithin (arena_of first) side n p → second.member p ≡ true →
        (m : ℕ) × FailsWithin (arena_of second) (other_of side) m p }
    ensures bound { (first : Game P M V) (second : Game P M W) → first.chess ≡ second.chess →
        (side : Colour) → TrueWins first side → TrueHolds second (other_of side) →
        (n : ℕ) (p : P) (c : Bound) → IsBound (arena_of first) side p (Wins n) →
        second.member p ≡ true → IsBound (arena_of second) (other_of side) p c → IsFailure c }
{}

/// In a game that is no worse for a side, its bound is at least as good. So it never hurts a side
/// if fewer of its moves are forbidden, values are better for it, or the set is larger by positions
/// whose values were bad for it.
pub fn no_worse<P, M, V, W>()
    ensures { (first : Game P M V) (second : Game P M W) → first.chess ≡ second.chess →
        (side : Colour) → IsNoWorse first second side →
        (p : P) (b c : Bound) → first.member p ≡ true → IsBound (arena_of first) side p b →
        IsBound (arena_of second) side p c → IsAtLeast b c }
{}
