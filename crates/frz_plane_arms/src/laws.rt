//! What holds of moves from configuration to configuration, whatever the code.

ghost use Rattle.std.specs.Prelude.{ℕ, ◌≡◌, true, false};
ghost use Rattle.frz_board.specs.Boards.{Board, holds};
ghost use Rattle.frz_board.specs.Moving.{Step, IsStep};
ghost use Rattle.frz_board.specs.declared.man.Colour.TheVariants.{White, Black};
ghost use Rattle.frz_fide.specs.Legal.{after as board_after, is_legal};
ghost use Rattle.frz_sets.specs.Sound.{IsSound};
ghost use Rattle.frz_sets.specs.Views.{RuleLines};
ghost use Rattle.frz_index.specs.Kept.{is_known};
ghost use Rattle.frz_index.specs.Members.{Member};
ghost use Rattle.frz_king_planes.specs.Kings.{king_cell, with_kings};
ghost use Rattle.frz_pair_moves.specs.Moves.{entered};
ghost use Rattle.frz_plane_arms.specs.Arms.{MakesMember, StandsAt};

/// The steps of men that are no kings. The position after a legal one is in the set exactly where
/// the board after it is that of a configuration, and the kings keep their squares.
pub fn steps_of_men()
    ensures { (r : RuleLines) (p : Board) (m : Step) (a b : ℕ) → IsSound r →
        MakesMember r.groups p a b → IsStep m → holds p p.turn m.from ≡ true →
        is_legal (with_kings p a b) m ≡ true →
        StandsAt r.groups (board_after (with_kings p a b) m) (board_after p m) a b }
{}

/// The steps of White's king, with Black's king on `b`. After a legal step to a square on which
/// groups have White's king, the position is in the set exactly where the men that it leaves are
/// those of a configuration. After one to another square it is outside the set.
pub fn steps_of_white_king()
    ensures inside { (r : RuleLines) (p : Board) (m : Step) (b : ℕ) → IsSound r →
        p.turn ≡ White → MakesMember r.groups p m.from b → IsStep m →
        is_legal (with_kings p m.from b) m ≡ true →
        is_known r.groups (king_cell White) m.to ≡ true →
        StandsAt r.groups (board_after (with_kings p m.from b) m) (entered p m.to) m.to b }
    ensures outside { (r : RuleLines) (p : Board) (m : Step) (b : ℕ) → IsSound r →
        p.turn ≡ White → MakesMember r.groups p m.from b → IsStep m →
        is_legal (with_kings p m.from b) m ≡ true →
        is_known r.groups (king_cell White) m.to ≡ false →
        Member r.groups (board_after (with_kings p m.from b) m) → ⊥ }
{}

/// The steps of Black's king, with White's king on `a`, likewise.
pub fn steps_of_black_king()
    ensures inside { (r : RuleLines) (p : Board) (m : Step) (a : ℕ) → IsSound r →
        p.turn ≡ Black → MakesMember r.groups p a m.from → IsStep m →
        is_legal (with_kings p a m.from) m ≡ true →
        is_known r.groups (king_cell Black) m.to ≡ true →
        StandsAt r.groups (board_after (with_kings p a m.from) m) (entered p m.to) a m.to }
    ensures outside { (r : RuleLines) (p : Board) (m : Step) (a : ℕ) → IsSound r →
        p.turn ≡ Black → MakesMember r.groups p a m.from → IsStep m →
        is_legal (with_kings p a m.from) m ≡ true →
        is_known r.groups (king_cell Black) m.to ≡ false →
        Member r.groups (board_after (with_kings p a m.from) m) → ⊥ }
{}
