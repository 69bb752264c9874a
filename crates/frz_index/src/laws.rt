//! What holds of the numbers of a set, whatever the code.
ghost use Rattle.std.specs.Prelude.{◌≡◌, ◌<◌, ◌↔◌, ℕ, List, Option, Some, map, true};
ghost use Rattle.frz_board.specs.Boards.{Board};
ghost use Rattle.frz_board.specs.declared.man.Man.{Man};
ghost use Rattle.frz_combinations.specs.MixedRadix.{value_onto};
ghost use Rattle.frz_board.specs.Moving.{Step};
ghost use Rattle.frz_fide.specs.Legal.{after, is_legal};
ghost use Rattle.frz_fide.specs.Valid.{IsValid};
ghost use Rattle.frz_sets.specs.Views.{GroupLine, RuleLines};
ghost use Rattle.frz_sets.specs.Sets.{radix_of, size_of};
ghost use Rattle.frz_sets.specs.Sound.{IsSound};
ghost use Rattle.frz_index.specs.Places.{digit_of};
ghost use Rattle.frz_index.specs.TurnStates.{turn_number};
ghost use Rattle.frz_index.specs.Members.{HasNumber, Member, Num};
ghost use Rattle.frz_index.specs.Membership.{is_member, number_of, position_at};
ghost use Rattle.frz_index.specs.Candidates.{candidate};
ghost use Rattle.frz_index.specs.Stepping.{IsShare, IsStep, number_after, stepped};
ghost use Rattle.frz_index.specs.Leaving.{leaves};
ghost use Rattle.frz_index.specs.OldNumbers.{OldNum, old_size_of};

/// The number of a position of a set is below the size, and no other position has it. The number
/// begins as that of the turn state; for each group in order, it is multiplied by the group's
/// radix, and the group's digit is added.
pub fn numbers()
    ensures below { (gs : List GroupLine) (p : Board) → Member gs p → Num gs p < size_of gs }
    ensures found_again { (gs : List GroupLine) (p : Board) → Member gs p →
        candidate gs (Num gs p) ≡ p }
    ensures once { (gs : List GroupLine) (p q : Board) → Member gs p → Member gs q →
        Num gs p ≡ Num gs q → p ≡ q }
    ensures formula { (gs : List GroupLine) (p : Board) → Member gs p →
        Num gs p ≡ value_onto (turn_number gs p.turn p.ep) (map radix_of gs) (map (digit_of p) gs) }
{}

/// The test `is_member` agrees with the definition `Member`, and the functions from positions to
/// numbers and back agree with the relation `HasNumber`.
pub fn membership()
    ensures member { (gs : List GroupLine) (p : Board) → (is_member gs p ≡ true) ↔ Member gs p }
    ensures number { (gs : List GroupLine) (p : Board) (i : ℕ) →
        (number_of gs p ≡ Some i) ↔ HasNumber gs i p }
    ensures position { (gs : List GroupLine) (i : ℕ) (p : Board) →
        (position_at gs i ≡ Some p) ↔ HasNumber gs i p }
{}

/// The number of a position of the set in the former format is below that format's size, and no
/// other position has it.
pub fn old_numbers()
    ensures below { (gs : List GroupLine) (p : Board) → Member gs p → OldNum gs p < old_size_of gs }
    ensures once { (gs : List GroupLine) (p q : Board) → Member gs p → Member gs q →
        OldNum gs p ≡ OldNum gs q → p ≡ q }
{}

/// Where one group, of one man at most, is the only one that counts the man on both squares of a
/// step, `number_after` is the number of the position after the step.
pub fn numbers_after_steps()
    ensures { (r : RuleLines) (p : Board) (man : Man) (a b i k left comes : ℕ)
        (target : Option ℕ) → IsSound r →
        HasNumber r.groups i p → IsStep p man a b → IsValid (stepped p man a b target) →
        IsShare r.groups man a k left → IsShare r.groups man b k comes →
        HasNumber r.groups (number_after r.groups p.turn p.ep target i left comes)
        (stepped p man a b target) }
{}

/// If a legal move brings a man to a square where the set has no such man, the position after the
/// move is outside the set.
pub fn leaving_moves()
    ensures { (gs : List GroupLine) (p : Board) (m : Step) → IsValid p → m.to < 64 →
        is_legal p m ≡ true → leaves gs p m ≡ true → Member gs (after p m) → ⊥ }
{}
