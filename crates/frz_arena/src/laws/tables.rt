//! Tables of codes.

ghost use Rattle.std.specs.Prelude.{◌≡◌, ◌≤◌, ◌+◌, ◌*◌, ℕ, List, Some, true, false, slice_index};
ghost use Rattle.frz_board.specs.declared.man.Colour.{Colour};
ghost use Rattle.frz_board.specs.Men.{other_of};
ghost use Rattle.frz_arena.specs.Arena.{Arena, IsLawful};
ghost use Rattle.frz_arena.specs.Bounds.{IsCodeAt};
ghost use Rattle.frz_arena.specs.Chess.{Forces, ForcesMate, NeverForcesMate};
ghost use Rattle.frz_arena.specs.Codes.{is_failure};
ghost use Rattle.frz_arena.specs.Exits.{TrueExits, AllNumbered};
ghost use Rattle.frz_arena.specs.Games.{Game, arena_of, goals_of};
ghost use Rattle.frz_arena.specs.Names.{IsNumbered, Numbering, IsNumbering, numbers_of};
ghost use Rattle.frz_arena.specs.Plies.{LagsWithin};
ghost use Rattle.frz_arena.specs.Tables.{IsExact, IsTable};

/// In an exact table, in which each code is its local code, each code is that of its bound.
pub fn exact_codes<M, V>()
    ensures { (arena : Arena M ℕ V) → IsLawful arena → (side : Colour) (size : ℕ) →
        IsNumbered arena size →
        (codes : List ℕ) → IsExact arena side size codes →
        (i : ℕ) → IsCodeAt arena side i (slice_index codes i) }
{}

/// A table is exact, so that each code is its local code, exactly where it is the table of the
/// bounds. There is exactly one such table, and each of its codes is at most 3 + 2 * (the size +
/// the greatest lag).
pub fn one_table<M, N, V>()
    ensures table { (numbers : Numbering N) (arena : Arena M N V) → IsNumbering numbers arena →
        IsLawful arena →
        (side : Colour) (codes : List ℕ) →
        IsExact (numbers_of numbers arena) side numbers.size codes →
        IsTable numbers arena side codes }
    ensures exact { (numbers : Numbering N) (arena : Arena M N V) → IsNumbering numbers arena →
        IsLawful arena →
        (side : Colour) (codes : List ℕ) → IsTable numbers arena side codes →
        IsExact (numbers_of numbers arena) side numbers.size codes }
    ensures there { (numbers : Numbering N) (arena : Arena M N V) → IsNumbering numbers arena →
        IsLawful arena →
        (side : Colour) (most : ℕ) → LagsWithin (numbers_of numbers arena) side most →
        (codes : List ℕ) × IsTable numbers arena side codes }
    ensures one { (numbers : Numbering N) (arena : Arena M N V) → IsNumbering numbers arena →
        (side : Colour) (codes others : List ℕ) →
        IsTable numbers arena side codes → IsTable numbers arena side others → codes ≡ others }
    ensures plies { (numbers : Numbering N) (arena : Arena M N V) → IsNumbering numbers arena →
        IsLawful arena →
        (side : Colour) (most : ℕ) → LagsWithin (numbers_of numbers arena) side most →
        (codes : List ℕ) → IsTable numbers arena side codes →
        (i : ℕ) → slice_index codes i ≤ 3 + 2 * (numbers.size + most) }
{}

/// A win in the table of a game is forced in chess, to mate or to a position outside the set whose
/// value is good for the side, be it an exit or one beyond an exit of another value. Where the
/// values of the exits are true, it is forced to mate; and within the plies of the code, where each
/// value by which the side wins gives a number of plies.
pub fn stored_wins<P, M, V>()
    ensures goals { (game : Game P M V) (numbers : Numbering P) (side : Colour) (codes : List ℕ) →
        IsTable numbers (arena_of game) side codes →
        (p : P) (i n : ℕ) → numbers.number p ≡ Some i → slice_index codes i ≡ 2 + 2 * n →
        Forces game.chess (goals_of game side) side n p }
    ensures mates { (game : Game P M V) → TrueExits game →
        (numbers : Numbering P) (side : Colour) (codes : List ℕ) →
        IsTable numbers (arena_of game) side codes →
        (p : P) (i n : ℕ) → numbers.number p ≡ Some i → slice_index codes i ≡ 2 + 2 * n →
        (k : ℕ) × ForcesMate game.chess side k p }
    ensures within { (game : Game P M V) → TrueExits game →
        (numbers : Numbering P) (side : Colour) → AllNumbered game side → (codes : List ℕ) →
        IsTable numbers (arena_of game) side codes →
        (p : P) (i n : ℕ) → numbers.number p ≡ Some i → slice_index codes i ≡ 2 + 2 * n →
        ForcesMate game.chess side n p }
{}

/// Where the values of the exits are true, a side that holds or wins by its table is never mated by
/// force.
pub fn stored_holds<P, M, V>()
    ensures { (game : Game P M V) → TrueExits game →
        (numbers : Numbering P) (side : Colour) (codes : List ℕ) →
        IsTable numbers (arena_of game) side codes →
        (p : P) (i : ℕ) → game.member p ≡ true → numbers.number p ≡ Some i →
        is_failure (slice_index codes i) ≡ false → NeverForcesMate game.chess (other_of side) p }
{}
