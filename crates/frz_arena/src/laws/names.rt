//! Positions under other names, such as their numbers.

ghost use Rattle.std.specs.Prelude.{◌≡◌, ◌≢◌, ◌<◌, ◌↔◌, ℕ};
ghost use Rattle.frz_board.specs.declared.man.Colour.{Colour};
ghost use Rattle.frz_arena.specs.declared.arm.Arm.{Arm};
ghost use Rattle.frz_arena.specs.declared.arm.Next.TheVariants.{Inside};
ghost use Rattle.frz_arena.specs.declared.bound.Bound.{Bound};
ghost use Rattle.frz_arena.specs.declared.node.Node.TheVariants.{Broken, Going};
ghost use Rattle.frz_arena.specs.Arena.{Arena, IsArm, IsLawful};
ghost use Rattle.frz_arena.specs.Bounds.{IsBound};
ghost use Rattle.frz_arena.specs.Games.{Game, arena_of};
ghost use Rattle.frz_arena.specs.Names.{IsNaming, IsNumbered, Numbering, IsNumbering, numbers_of, name_in};
ghost use Rattle.frz_arena.specs.Plies.{WinsWithin, FailsWithin};

/// Wins, failures and bounds do not depend on the names of the positions.
pub fn same_under_names<M, A, B, V>()
    ensures wins { (name : A → B) (first : Arena M A V) (second : Arena M B V) →
        IsNaming name first second →
        (side : Colour) (n : ℕ) (p : A) →
        WinsWithin first side n p ↔ WinsWithin second side n (name p) }
    ensures fails { (name : A → B) (first : Arena M A V) (second : Arena M B V) →
        IsNaming name first second →
        (side : Colour) (n : ℕ) (p : A) →
        FailsWithin first side n p ↔ FailsWithin second side n (name p) }
    ensures bound { (name : A → B) (first : Arena M A V) (second : Arena M B V) →
        IsNaming name first second →
        (side : Colour) (p : A) (b : Bound) → IsBound first side p b ↔ IsBound second side
        (name p) b }
{}

/// The arena of the numbers is the same arena under other names. Its numbers from the size on are
/// broken: they stand for no position. It is lawful where the first arena is.
pub fn numbers_are_names<M, N, V>()
    ensures naming { (numbers : Numbering N) (arena : Arena M N V) → IsNumbering numbers arena →
        IsNaming (name_in numbers) arena (numbers_of numbers arena) }
    ensures numbered { (numbers : Numbering N) (arena : Arena M N V) → IsNumbering numbers arena →
        IsNumbered (numbers_of numbers arena) numbers.size }
    ensures lawful { (numbers : Numbering N) (arena : Arena M N V) → IsLawful arena →
        IsLawful (numbers_of numbers arena) }
{}

/// Only the numbers at which a game goes on have moves, and each of them leads out of the set or to
/// a number below the size that is not broken.
pub fn numbers_go_on<P, M, V>()
    ensures going { (game : Game P M V) (numbers : Numbering P) →
        IsNumbering numbers (arena_of game) →
        (i : ℕ) (a : Arm M ℕ V) → IsArm (numbers_of numbers (arena_of game)) i a →
        (mover : Colour) × ((numbers_of numbers (arena_of game)).node i ≡ Going mover) }
    ensures inside { (game : Game P M V) (numbers : Numbering P) →
        IsNumbering numbers (arena_of game) →
        (i q : ℕ) (a : Arm M ℕ V) → IsArm (numbers_of numbers (arena_of game)) i a →
        a.next ≡ Inside q →
        (q < numbers.size) × ((numbers_of numbers (arena_of game)).node q ≢ Broken) }
{}
