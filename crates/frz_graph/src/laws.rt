//! The laws of codes over numbers. Each is the contract of a function that does nothing.

ghost use Rattle.std.specs.Prelude.{◌≡◌, ℕ, List, All, map, slice_index};
ghost use Rattle.frz_board.specs.declared.man.Colour.{Colour};
ghost use Rattle.frz_board.specs.Moving.{Step};
ghost use Rattle.frz_exits.specs.Value.{Value};
ghost use Rattle.frz_arena.specs.Arena.{Arena};
ghost use Rattle.frz_arena.specs.LocalCodes.{node_code, local_code};
ghost use Rattle.frz_exits.specs.Values.{class_of, lag_of};
ghost use Rattle.frz_graph.specs.EntryCodes.{arm_code, IsWithin};
ghost use Rattle.frz_graph.specs.Finite.{IsFinite};
ghost use Rattle.frz_graph.specs.FreeCodes.{free_among};

/// What `fill` and `local` give together, and `local_by` alone, from the moves of a number, is its
/// local code.
pub fn filled()
    ensures { (arena : Arena Step ℕ Value) → arena.class ≡ class_of → arena.lag ≡ lag_of →
        (side : Colour) (entries : List ℕ) (i : ℕ) →
        node_code side (arena.node i)
        (free_among (arena.arms i) (map (arm_code side entries) (arena.arms i)))
        (map (arm_code side entries) (arena.arms i))
        ≡ local_code arena side (λ k. slice_index entries k) i }
{}

/// Where the arena is finite, the moves of each number may be given to `fill` and `local_by`.
pub fn within()
    ensures { (arena : Arena Step ℕ Value) (size : ℕ) → IsFinite arena size → (i : ℕ) →
        All (λ a. IsWithin size a.next) (arena.arms i) }
{}
