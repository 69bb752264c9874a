//! The local code of a position, told by the move that decides it.

ghost use Rattle.std.specs.Prelude.{◌≡◌, ◌≤◌, ◌+◌, ℕ, true, false};
ghost use Rattle.frz_board.specs.declared.man.Colour.{Colour};
ghost use Rattle.frz_board.specs.Men.{other_of};
ghost use Rattle.frz_arena.specs.declared.node.Node.TheVariants.{Going};
ghost use Rattle.frz_arena.specs.declared.arm.Arm.{Arm};
ghost use Rattle.frz_arena.specs.Arena.{Arena, IsArm};
ghost use Rattle.frz_arena.specs.Codes.{is_win, is_failure};
ghost use Rattle.frz_arena.specs.LocalCodes.{arm_code, local_code};

/// The local code where the side is to move. It is one ply (2) more than the code of the free win
/// of the fewest plies. Where all free moves are failures, it is one ply more than the longest of
/// them. Else it is 1, a hold. Where no move is free it is 3, a failure at once.
pub fn own_codes<M, N, V>()
    ensures win { (arena : Arena M N V) (side : Colour) (entry : N → ℕ) (p : N) →
        arena.node p ≡ Going side →
        (a : Arm M N V) → IsArm arena p a → a.free ≡ true →
        is_win (arm_code arena side entry a) ≡ true →
        ((b : Arm M N V) → IsArm arena p b → b.free ≡ true →
        is_win (arm_code arena side entry b) ≡ true →
        arm_code arena side entry a ≤ arm_code arena side entry b) →
        local_code arena side entry p ≡ arm_code arena side entry a + 2 }
    ensures failure { (arena : Arena M N V) (side : Colour) (entry : N → ℕ) (p : N) →
        arena.node p ≡ Going side →
        (a : Arm M N V) → IsArm arena p a → a.free ≡ true →
        ((b : Arm M N V) → IsArm arena p b → b.free ≡ true →
        (is_failure (arm_code arena side entry b) ≡ true)
        × (arm_code arena side entry b ≤ arm_code arena side entry a)) →
        local_code arena side entry p ≡ arm_code arena side entry a + 2 }
    ensures hold { (arena : Arena M N V) (side : Colour) (entry : N → ℕ) (p : N) →
        arena.node p ≡ Going side →
        (a : Arm M N V) → IsArm arena p a → a.free ≡ true →
        is_failure (arm_code arena side entry a) ≡ false →
        ((b : Arm M N V) → IsArm arena p b → b.free ≡ true →
        is_win (arm_code arena side entry b) ≡ false) →
        local_code arena side entry p ≡ 1 }
    ensures none { (arena : Arena M N V) (side : Colour) (entry : N → ℕ) (p : N) →
        arena.node p ≡ Going side →
        ((a : Arm M N V) → IsArm arena p a → a.free ≡ true → ⊥) →
        local_code arena side entry p ≡ 3 }
{}

/// The local code where the opponent is to move. It is one ply (2) more than the code of the
/// failure of the fewest plies. Where all moves are wins of the side, it is one ply more than the
/// longest of them. Else it is 1, a hold.
pub fn opponent_codes<M, N, V>()
    ensures failure { (arena : Arena M N V) (side : Colour) (entry : N → ℕ) (p : N) →
        arena.node p ≡ Going (other_of side) →
        (a : Arm M N V) → IsArm arena p a → is_failure (arm_code arena side entry a) ≡ true →
        ((b : Arm M N V) → IsArm arena p b → is_failure (arm_code arena side entry b) ≡ true →
        arm_code arena side entry a ≤ arm_code arena side entry b) →
        local_code arena side entry p ≡ arm_code arena side entry a + 2 }
    ensures win { (arena : Arena M N V) (side : Colour) (entry : N → ℕ) (p : N) →
        arena.node p ≡ Going (other_of side) →
        (a : Arm M N V) → IsArm arena p a →
        ((b : Arm M N V) → IsArm arena p b →
        (is_win (arm_code arena side entry b) ≡ true)
        × (arm_code arena side entry b ≤ arm_code arena side entry a)) →
        local_code arena side entry p ≡ arm_code arena side entry a + 2 }
    ensures hold { (arena : Arena M N V) (side : Colour) (entry : N → ℕ) (p : N) →
        arena.node p ≡ Going (other_of side) →
        (a : Arm M N V) → IsArm arena p a → is_win (arm_code arena side entry a) ≡ false →
        ((b : Arm M N V) → IsArm arena p b → is_failure (arm_code arena side entry b) ≡ false) →
        local_code arena side entry p ≡ 1 }
{}
