//! What bounds and tables mean in chess.

ghost use Rattle.std.specs.Prelude.{ℕ, List};
ghost use Rattle.frz_board.specs.declared.man.Colour.{Colour};
ghost use Rattle.frz_board.specs.Men.{other_of};
ghost use Rattle.frz_board.specs.Boards.{Board};
ghost use Rattle.frz_sets.specs.declared.exit.Value.{Value};
ghost use Rattle.frz_sets.specs.Views.{RuleLines};
ghost use Rattle.frz_index.specs.Members.{Member};
ghost use Rattle.frz_arena.specs.declared.bound.Bound.{Bound};
ghost use Rattle.frz_game.specs.Bounds.{IsBoundAt, IsTableOf};
ghost use Rattle.frz_game.specs.Meaning.{Means, WinsAlone, TableMeans};

/// The bound of a side at a position of the set says of chess what `Means` states. Where one side's
/// bound is a win, the other's is a failure within no more plies.
pub fn bounds_mean()
    ensures bound { (rules : RuleLines) (value : Board → Value) (side : Colour) (p : Board)
        (b : Bound) →
        Member rules.groups p → IsBoundAt rules value side p b → Means rules value side p b }
    ensures alone { (rules : RuleLines) (value : Board → Value) (side : Colour) (p : Board)
        (b c : Bound) →
        IsBoundAt rules value side p b → IsBoundAt rules value (other_of side) p c → WinsAlone b c }
{}

/// The table of a side says of chess, number by number, what `TableMeans` states.
pub fn tables_mean()
    ensures { (rules : RuleLines) (value : Board → Value) (side : Colour) (codes : List ℕ) →
        IsTableOf rules value side codes → TableMeans rules value side codes }
{}
