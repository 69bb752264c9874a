//! What the restricted game says of chess.

ghost use Rattle.std.specs.Prelude.{◌≡◌, ◌↔◌, ℕ, Bool, true, Option};
ghost use Rattle.std.specs.List.{Contains};
ghost use Rattle.frz_board.specs.declared.man.Colour.{Colour};
ghost use Rattle.frz_board.specs.Men.{other_of};
ghost use Rattle.frz_arena.specs.declared.class.Class.TheVariants.{Good, Bad};
ghost use Rattle.frz_arena.specs.Arena.{IsLawful};
ghost use Rattle.frz_arena.specs.Chess.{Chess, IsMated, Forces, ForcesMate, NeverForcesMate};
ghost use Rattle.frz_arena.specs.Exits.{TrueExits, AllNumbered};
ghost use Rattle.frz_arena.specs.ForcesByPlies.{ForcesByPlies};
ghost use Rattle.frz_arena.specs.Games.{Game, arena_of, goals_of};
ghost use Rattle.frz_arena.specs.Plies.{WinsWithin, FailsWithin};

/// What a side forces by the named cases is what it forces by recursion over the plies.
pub fn forces_by_plies<P, M>()
    ensures { (chess : Chess P M) (goal : P → Option ℕ) (side : Colour) (n : ℕ) (p : P) →
        Forces chess goal side n p ↔ ForcesByPlies chess goal side n p }
{}

/// The arena of a game is lawful where each value that is good for one side is bad for the other.
pub fn games_are_lawful<P, M, V>()
    ensures { (game : Game P M V) →
        ((v : V) (side : Colour) → game.class v side ≡ Good → game.class v (other_of side) ≡ Bad) →
        IsLawful (arena_of game) }
{}

/// A win of the restricted game is forced in chess, to mate or to a position outside the set whose
/// value is good for the side, be it an exit or one beyond an exit of another value. Where the
/// values of the exits are true, it is forced to mate; and within the plies of the win, where each
/// value by which the side wins gives a number of plies.
pub fn wins_are_forced<P, M, V>()
    ensures goals { (game : Game P M V) (side : Colour) (n : ℕ) (p : P) →
        WinsWithin (arena_of game) side n p → Forces game.chess (goals_of game side) side n p }
    ensures mates { (game : Game P M V) → TrueExits game → (side : Colour) (n : ℕ) (p : P) →
        WinsWithin (arena_of game) side n p → (k : ℕ) × ForcesMate game.chess side k p }
    ensures within { (game : Game P M V) → TrueExits game → (side : Colour) →
        AllNumbered game side →
        (n : ℕ) (p : P) → WinsWithin (arena_of game) side n p → ForcesMate game.chess side n p }
{}

/// At no position do both sides force mate.
pub fn one_mate<P, M>()
    ensures { (chess : Chess P M) (side : Colour) (n m : ℕ) (p : P) →
        ForcesMate chess side n p → ForcesMate chess (other_of side) m p → ⊥ }
{}

/// Where the values of the exits are true, the opponent forces mate at a position of the set only
/// where the side fails.
pub fn holds_are_safe<P, M, V>()
    ensures forced { (game : Game P M V) → TrueExits game → (side : Colour) (n : ℕ) (p : P) →
        game.member p ≡ true → ForcesMate game.chess (other_of side) n p →
        FailsWithin (arena_of game) side n p }
    ensures safe { (game : Game P M V) → TrueExits game → (side : Colour) (p : P) →
        game.member p ≡ true →
        ((n : ℕ) → FailsWithin (arena_of game) side n p → ⊥) →
        NeverForcesMate game.chess (other_of side) p }
{}

/// Where no legal move leaves the positions of `here`, and the opponent is mated at none of them,
/// the side never forces mate at one of them.
pub fn never_by_positions<P, M>()
    ensures { (chess : Chess P M) (side : Colour) (here : P → Bool) →
        ((p : P) (m : M) → here p ≡ true → Contains (chess.moves p) m
        → here (chess.play p m) ≡ true) →
        ((p : P) → here p ≡ true → IsMated chess (other_of side) p → ⊥) →
        (p : P) → here p ≡ true → NeverForcesMate chess side p }
{}
