//! Laws of the numbers of a set, and of the game over them.

ghost use Rattle.std.specs.Prelude.{◌≡◌, ◌≤◌, ◌^◌, ◌↔◌, ℕ, List, true, Some, None};
ghost use Rattle.frz_board.specs.declared.man.Colour.{Colour};
ghost use Rattle.frz_board.specs.Boards.{Board};
ghost use Rattle.frz_sets.specs.declared.exit.Value.{Value};
ghost use Rattle.frz_sets.specs.Sets.{size_of};
ghost use Rattle.frz_sets.specs.Views.{GroupLine, RuleLines};
ghost use Rattle.frz_index.specs.Members.{Member, Num, HasNumber};
ghost use Rattle.frz_arena.specs.Arena.{IsLawful};
ghost use Rattle.frz_arena.specs.Names.{IsNumbering, IsNumbered};
ghost use Rattle.frz_arena.specs.Plies.{LagsWithin};
ghost use Rattle.frz_arena.specs.Arena.{LeadsInside};
ghost use Rattle.frz_graph.specs.Finite.{IsFinite};
ghost use Rattle.frz_game.specs.Games.{arena_by, graph_by};
ghost use Rattle.frz_game.specs.Numbers.{is_member, number_of, position_at, numbers_by};
ghost use Rattle.frz_game.specs.SmallLags.{HasSmallLags};

/// `is_member` holds of exactly the members of the set. `number_of` gives a member its number, and
/// any other position none. `position_at` gives a position exactly where it has that number.
pub fn membership()
    ensures member { (groups : List GroupLine) (p : Board) →
        (is_member groups p ≡ true) ↔ Member groups p }
    ensures number { (groups : List GroupLine) (p : Board) →
        Member groups p → number_of groups p ≡ Some (Num groups p) }
    ensures outside { (groups : List GroupLine) (p : Board) →
        (Member groups p → ⊥) → number_of groups p ≡ None }
    ensures position { (groups : List GroupLine) (i : ℕ) (p : Board) →
        (position_at groups i ≡ Some p) ↔ HasNumber groups i p }
{}

/// The game is a lawful arena, and its positions have numbers below the size of the set. Where no
/// value names more than 1,000 plies the lags of exits are at most 1,000, and if the size is at
/// most 2^27 too, the game over numbers is finite, as solvers ask.
pub fn numbered()
    ensures lawful { (rules : RuleLines) (value : Board → Value) → IsLawful (arena_by rules value) }
    ensures numbering { (rules : RuleLines) (value : Board → Value) →
        IsNumbering (numbers_by rules.groups) (arena_by rules value) }
    ensures graph_lawful { (rules : RuleLines) (value : Board → Value) →
        IsLawful (graph_by rules value) }
    ensures graph_numbered { (rules : RuleLines) (value : Board → Value) →
        IsNumbered (graph_by rules value) (size_of rules.groups) }
    ensures lags { (rules : RuleLines) (value : Board → Value) → HasSmallLags value →
        (side : Colour) → LagsWithin (graph_by rules value) side 1000 }
    ensures finite { (rules : RuleLines) (value : Board → Value) → HasSmallLags value →
        size_of rules.groups ≤ 2 ^ 27 → IsFinite (graph_by rules value) (size_of rules.groups) }
{}

/// At most one move leads from one number to another: two moves that lead inside lead to two
/// different numbers.
pub fn different_arms()
    ensures { (rules : RuleLines) (value : Board → Value) (i k l n : ℕ) →
        LeadsInside ((graph_by rules value).arms i) k n →
        LeadsInside ((graph_by rules value).arms i) l n → k ≡ l }
{}
