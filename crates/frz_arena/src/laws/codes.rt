//! Local codes, which the codes one ply on give a position, and the moves that keep them.

ghost use Rattle.std.specs.Prelude.{◌≡◌, ◌≤◌, ◌+◌, ℕ, true, false};
ghost use Rattle.frz_board.specs.declared.man.Colour.{Colour};
ghost use Rattle.frz_board.specs.Men.{other_of};
ghost use Rattle.frz_arena.specs.declared.node.Node.TheVariants.{Going};
ghost use Rattle.frz_arena.specs.declared.arm.Arm.{Arm};
ghost use Rattle.frz_arena.specs.Arena.{Arena, IsArm, IsLawful};
ghost use Rattle.frz_arena.specs.Bounds.{IsCodeAt};
ghost use Rattle.frz_arena.specs.Codes.{is_win, is_failure};
ghost use Rattle.frz_arena.specs.LocalCodes.{arm_code, local_code, MeetsEquations};

/// Where each position's entry is its local code, the entries are the codes of the bounds.
/// Conversely, where the entries are the codes of the bounds, each is its local code.
pub fn unique_codes<M, N, V>()
    ensures solution { (arena : Arena M N V) → IsLawful arena → (side : Colour) (entry : N → ℕ) →
        MeetsEquations arena side entry → (p : N) → IsCodeAt arena side p (entry p) }
    ensures codes { (arena : Arena M N V) → IsLawful arena → (side : Colour) (entry : N → ℕ) →
        ((p : N) → IsCodeAt arena side p (entry p)) → MeetsEquations arena side entry }
{}

/// Where the side is to move, and its local code is a win or a hold, some free move keeps it: from
/// a win it leads to a win of one ply less, from a hold to code 1 or 0.
pub fn own_plies<M, N, V>()
    ensures win { (arena : Arena M N V) (side : Colour) (entry : N → ℕ) (p : N) →
        arena.node p ≡ Going side →
        is_win (local_code arena side entry p) ≡ true →
        (a : Arm M N V) × IsArm arena p a × (a.free ≡ true)
        × (arm_code arena side entry a + 2 ≡ local_code arena side entry p) }
    ensures hold { (arena : Arena M N V) (side : Colour) (entry : N → ℕ) (p : N) →
        arena.node p ≡ Going side →
        local_code arena side entry p ≡ 1 →
        (a : Arm M N V) × IsArm arena p a × (a.free ≡ true) × (arm_code arena side entry a ≤ 1) }
{}

/// Where the opponent is to move, and the side's local code is a win or a hold, no move of his
/// takes it away. Some move of his makes the win last as long as the code says, and some move leads
/// from the hold to code 1 or 0.
pub fn opponent_plies<M, N, V>()
    ensures each_win { (arena : Arena M N V) (side : Colour) (entry : N → ℕ) (p : N) →
        arena.node p ≡ Going (other_of side) → is_win (local_code arena side entry p) ≡ true →
        (a : Arm M N V) → IsArm arena p a →
        (is_win (arm_code arena side entry a) ≡ true)
        × (arm_code arena side entry a + 2 ≤ local_code arena side entry p) }
    ensures some_win { (arena : Arena M N V) → IsLawful arena →
        (side : Colour) (entry : N → ℕ) (p : N) →
        arena.node p ≡ Going (other_of side) → is_win (local_code arena side entry p) ≡ true →
        (a : Arm M N V) × IsArm arena p a
        × (arm_code arena side entry a + 2 ≡ local_code arena side entry p) }
    ensures each_hold { (arena : Arena M N V) (side : Colour) (entry : N → ℕ) (p : N) →
        arena.node p ≡ Going (other_of side) → local_code arena side entry p ≡ 1 →
        (a : Arm M N V) → IsArm arena p a → is_failure (arm_code arena side entry a) ≡ false }
    ensures some_hold { (arena : Arena M N V) (side : Colour) (entry : N → ℕ) (p : N) →
        arena.node p ≡ Going (other_of side) → local_code arena side entry p ≡ 1 →
        (a : Arm M N V) × IsArm arena p a × (arm_code arena side entry a ≤ 1) }
{}
