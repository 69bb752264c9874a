//! What values from several tables say of chess. Each law is the contract of a function that does
//! nothing.
ghost use Rattle.std.specs.Prelude.{◌≡◌, ℕ, List, [], All, true};
ghost use Rattle.frz_board.specs.Boards.{Board};
ghost use Rattle.frz_board.specs.declared.man.Colour.{Colour};
ghost use Rattle.frz_sets.specs.Views.{RuleLines};
ghost use Rattle.frz_exits.specs.Books.{value_by};
ghost use Rattle.frz_arena.specs.Exits.{AllNumbered};
ghost use Rattle.frz_chain.specs.Bounds.{IsTableOf};
ghost use Rattle.frz_chain.specs.Games.{game_of};
ghost use Rattle.frz_chain.specs.ExactTables.{AreDecidedOutside};
ghost use Rattle.frz_chain.specs.Values.{AreTrueExits, IsTrueValue};
ghost use Rattle.frz_chain.specs.Books.{or_else};
ghost use Rattle.frz_chain.specs.Transfer.{TellsChess};
ghost use Rattle.frz_backs.specs.Behind.{value_behind};
ghost use Rattle.frz_backs.specs.Counts.{count_for, counts_of, lines_count};
ghost use Rattle.frz_backs.specs.Decided.{AreLinesOrTables, HasBothOutcomes};
ghost use Rattle.frz_backs.specs.LinkPlies.{MatesOver, MatesThrough, OwnWinsNumbered};
ghost use Rattle.frz_backs.specs.Books.{Back};
ghost use Rattle.frz_backs.specs.Links.{AreExact, AreTrueLines, Link, backs_of};
ghost use Rattle.frz_backs.specs.Values.{atlas_value, back_value, own_value};

pub mod exact_over;

/// With no table behind them the exit lines give the value, those behind `exit unknown if always`
/// too.
pub fn few_tables()
    ensures { (rules : RuleLines) (q : Board) →
        atlas_value rules [] q ≡ or_else (value_by rules q) (value_behind rules q) }
{}

/// If each table is exact, over those before it where it leans on them, and the exit lines of each
/// are true where they are asked, then all that the tables tell is true, plies too.
pub fn tables_tell_true()
    ensures { (links : List Link) → AreExact links → AreTrueLines links → (q : Board) →
        All (λ back. IsTrueValue (back_value (counts_of (backs_of links)) back q) q)
        (backs_of links) }
{}

/// Over such tables, the values of the exits of rules are true, where the exit lines of these rules
/// are true.
pub fn exits_over_tables_true()
    ensures { (rules : RuleLines) (links : List Link) → AreExact links → AreTrueLines links →
        AreTrueExits rules (own_value rules (backs_of links)) →
        AreTrueExits rules (atlas_value rules (backs_of links)) }
{}

/// The codes of a table over such tables say of chess what `TellsChess` states of wins and holds,
/// where the exit lines of its own rules are true too.
pub fn codes_over_tables_tell()
    ensures { (rules : RuleLines) (links : List Link) → AreExact links → AreTrueLines links →
        AreTrueExits rules (own_value rules (backs_of links)) → (side : Colour) (codes : List ℕ) →
        IsTableOf rules (atlas_value rules (backs_of links)) side codes →
        TellsChess rules (atlas_value rules (backs_of links)) side codes }
{}

/// Let the exit lines of a table over such tables be true too. Let the side's wins count in all of
/// these, and its own lines by which the side wins give their plies. Then a win within n by the
/// table forces mate within n plies. Where they do not count in all, let the lines of these by which
/// the side wins give their plies too. Then the plies of the longest way through them come on top.
pub fn plies_over_tables()
    ensures mates { (rules : RuleLines) (links : List Link) → AreExact links → (side : Colour) →
        MatesOver rules links side }
    ensures longest { (rules : RuleLines) (links : List Link) → AreExact links → (side : Colour) →
        MatesThrough rules links side }
    ensures numbered { (rules : RuleLines) (backs : List Back) (side : Colour) →
        count_for side backs ≡ true → OwnWinsNumbered rules backs side →
        AllNumbered (game_of rules (atlas_value rules backs)) side }
    ensures lines { (rules : RuleLines) (backs : List Back) (side : Colour) →
        lines_count side rules.exits ≡ true → OwnWinsNumbered rules backs side }
{}

/// If the outcomes in the tables are those of chess, and each way out of the set is decided by an
/// exit line or lies in the set of one of the tables, then each value outside decides the game.
pub fn tables_decide()
    ensures { (rules : RuleLines) (links : List Link) → AreExact links →
        All HasBothOutcomes links → AreLinesOrTables rules links →
        AreDecidedOutside rules (atlas_value rules (backs_of links)) }
{}
