//! The bound of a side at a position: there is exactly one.

ghost use Rattle.std.specs.Prelude.{◌≡◌, ◌≤◌, ◌+◌, ℕ};
ghost use Rattle.frz_board.specs.declared.man.Colour.{Colour};
ghost use Rattle.frz_board.specs.Men.{other_of};
ghost use Rattle.frz_arena.specs.declared.bound.Bound.{Bound};
ghost use Rattle.frz_arena.specs.declared.bound.Bound.TheVariants.{Wins, Fails};
ghost use Rattle.frz_arena.specs.Arena.{Arena, IsLawful};
ghost use Rattle.frz_arena.specs.Bounds.{IsBound, IsCodeAt};
ghost use Rattle.frz_arena.specs.Codes.{code_of};
ghost use Rattle.frz_arena.specs.Names.{IsNumbered};
ghost use Rattle.frz_arena.specs.Plies.{LagsWithin};

/// A position has at most one bound for a side, and so at most one code.
pub fn one_bound<M, N, V>()
    ensures bound { (arena : Arena M N V) (side : Colour) (p : N) (b c : Bound) →
        IsBound arena side p b → IsBound arena side p c → b ≡ c }
    ensures code { (arena : Arena M N V) (side : Colour) (p : N) (c d : ℕ) →
        IsCodeAt arena side p c → IsCodeAt arena side p d → c ≡ d }
{}

/// Different bounds have different codes.
pub fn codes_differ()
    ensures { (b c : Bound) → code_of b ≡ code_of c → b ≡ c }
{}

/// Where the bound of one side is a win, that of the other is a failure in at most as many plies.
pub fn opposed_bounds<M, N, V>()
    ensures { (arena : Arena M N V) → IsLawful arena → (side : Colour) (p : N) (n : ℕ) (c : Bound) →
        IsBound arena side p (Wins n) → IsBound arena (other_of side) p c →
        (m : ℕ) × (m ≤ n) × (c ≡ Fails m) }
{}

/// Each position of a finite arena has a bound. A failure has at most `size` plies, and a win at
/// most `size` plus the greatest lag.
pub fn bounds_exist<M, V>()
    ensures bound { (arena : Arena M ℕ V) → IsLawful arena → (size : ℕ) → IsNumbered arena size →
        (side : Colour) (most : ℕ) → LagsWithin arena side most →
        (p : ℕ) → (b : Bound) × IsBound arena side p b }
    ensures win { (arena : Arena M ℕ V) → IsLawful arena → (size : ℕ) → IsNumbered arena size →
        (side : Colour) (most : ℕ) → LagsWithin arena side most →
        (n p : ℕ) → IsBound arena side p (Wins n) → n ≤ size + most }
    ensures failure { (arena : Arena M ℕ V) → IsLawful arena → (size : ℕ) → IsNumbered arena size →
        (side : Colour) (n p : ℕ) → IsBound arena side p (Fails n) → n ≤ size }
{}
