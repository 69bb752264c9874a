//! Laws of tables and bounds.

ghost use Rattle.std.specs.Prelude.{◌≡◌, ◌≤◌, ◌+◌, ◌*◌, ℕ, List, slice_index};
ghost use Rattle.frz_board.specs.declared.man.Colour.{Colour};
ghost use Rattle.frz_board.specs.Men.{other_of};
ghost use Rattle.frz_board.specs.Boards.{Board};
ghost use Rattle.frz_sets.specs.declared.exit.Value.{Value};
ghost use Rattle.frz_sets.specs.Sets.{size_of};
ghost use Rattle.frz_sets.specs.Views.{RuleLines};
ghost use Rattle.frz_index.specs.Members.{Member, Num};
ghost use Rattle.frz_arena.specs.declared.bound.Bound.{Bound};
ghost use Rattle.frz_arena.specs.declared.bound.Bound.TheVariants.{Wins, Fails};
ghost use Rattle.frz_arena.specs.Codes.{code_of};
ghost use Rattle.frz_arena.specs.Tables.{IsExact};
ghost use Rattle.frz_game.specs.Games.{graph_by};
ghost use Rattle.frz_game.specs.Bounds.{IsBoundAt, IsTableOf};
ghost use Rattle.frz_game.specs.SmallLags.{HasSmallLags};

/// A list of codes is the table of a side exactly where each of its codes is the local code. There
/// are never two such tables. Where no value names more than 1,000 plies there is one, and no code
/// in it has more plies than the size of the set plus 1,000. At the number of each position of the
/// set stands the code of its bound.
pub fn tables()
    ensures table { (rules : RuleLines) (value : Board → Value) (side : Colour) (codes : List ℕ) →
        IsExact (graph_by rules value) side (size_of rules.groups) codes →
        IsTableOf rules value side codes }
    ensures exact { (rules : RuleLines) (value : Board → Value) (side : Colour) (codes : List ℕ) →
        IsTableOf rules value side codes →
        IsExact (graph_by rules value) side (size_of rules.groups) codes }
    ensures there { (rules : RuleLines) (value : Board → Value) → HasSmallLags value →
        (side : Colour) → (codes : List ℕ) × IsTableOf rules value side codes }
    ensures one { (rules : RuleLines) (value : Board → Value) (side : Colour)
        (codes others : List ℕ) →
        IsTableOf rules value side codes → IsTableOf rules value side others → codes ≡ others }
    ensures plies { (rules : RuleLines) (value : Board → Value) → HasSmallLags value →
        (side : Colour) (codes : List ℕ) → IsTableOf rules value side codes →
        (i : ℕ) → slice_index codes i ≤ 3 + 2 * (size_of rules.groups + 1000) }
    ensures bound { (rules : RuleLines) (value : Board → Value) (side : Colour) (codes : List ℕ) →
        IsTableOf rules value side codes → (p : Board) → Member rules.groups p →
        (b : Bound) × (slice_index codes (Num rules.groups p) ≡ code_of b)
        × IsBoundAt rules value side p b }
{}

/// A position of the set has exactly one bound of each side, where no value names more than 1,000
/// plies. Where one side's bound is a win, the other's is a failure within no more plies.
pub fn bounds()
    ensures there { (rules : RuleLines) (value : Board → Value) → HasSmallLags value →
        (side : Colour) (p : Board) → Member rules.groups p → (b : Bound)
        × IsBoundAt rules value side p b }
    ensures one { (rules : RuleLines) (value : Board → Value) (side : Colour) (p : Board)
        (b c : Bound) →
        IsBoundAt rules value side p b → IsBoundAt rules value side p c → b ≡ c }
    ensures opposed { (rules : RuleLines) (value : Board → Value) (side : Colour) (p : Board)
        (n : ℕ) (c : Bound) →
        IsBoundAt rules value side p (Wins n) → IsBoundAt rules value (other_of side) p c →
        (m : ℕ) × (m ≤ n) × (c ≡ Fails m) }
{}
