//! Wins and failures within a number of plies.

ghost use Rattle.std.specs.Prelude.{◌≡◌, ◌≤◌, ◌+◌, ℕ};
ghost use Rattle.frz_board.specs.declared.man.Colour.{Colour};
ghost use Rattle.frz_board.specs.Men.{other_of};
ghost use Rattle.frz_arena.specs.Arena.{Arena, IsLawful};
ghost use Rattle.frz_arena.specs.Plies.{WinsWithin, FailsWithin, LagsWithin};

/// At no position does a side both win and fail.
pub fn never_both<M, N, V>()
    ensures { (arena : Arena M N V) (side : Colour) (n m : ℕ) (p : N) →
        WinsWithin arena side n p → FailsWithin arena side m p → ⊥ }
{}

/// Where a side wins, its opponent fails within as many plies.
pub fn opponent_fails<M, N, V>()
    ensures { (arena : Arena M N V) → IsLawful arena → (side : Colour) (n : ℕ) (p : N) →
        WinsWithin arena side n p → FailsWithin arena (other_of side) n p }
{}

/// At no position do both sides win.
pub fn one_winner<M, N, V>()
    ensures { (arena : Arena M N V) → IsLawful arena → (side : Colour) (n m : ℕ) (p : N) →
        WinsWithin arena side n p → WinsWithin arena (other_of side) m p → ⊥ }
{
    opponent_fails::<M, N, V>();
    never_both::<M, N, V>();
}

/// A win within fewer plies is a win within more, and so is a failure.
pub fn later<M, N, V>()
    ensures wins { (arena : Arena M N V) (side : Colour) (n k : ℕ) (p : N) →
        n ≤ k → WinsWithin arena side n p → WinsWithin arena side k p }
    ensures fails { (arena : Arena M N V) (side : Colour) (n k : ℕ) (p : N) →
        n ≤ k → FailsWithin arena side n p → FailsWithin arena side k p }
{}

/// Where each win within k + 1 plies is one within k, and no exit that wins has a lag above k, each
/// win is one within k plies. So it is with failures, which have no lags.
pub fn stable<M, N, V>()
    ensures wins { (arena : Arena M N V) (side : Colour) (k : ℕ) → LagsWithin arena side k →
        ((p : N) → WinsWithin arena side (k + 1) p → WinsWithin arena side k p) →
        (n : ℕ) (p : N) → WinsWithin arena side n p → WinsWithin arena side k p }
    ensures fails { (arena : Arena M N V) (side : Colour) (k : ℕ) →
        ((p : N) → FailsWithin arena side (k + 1) p → FailsWithin arena side k p) →
        (n : ℕ) (p : N) → FailsWithin arena side n p → FailsWithin arena side k p }
{}
