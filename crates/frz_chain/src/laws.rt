//! What values told by a second table say of chess, and which back tables are exact. Each law is
//! the contract of a function that does nothing.
ghost use Rattle.std.specs.Prelude.{◌≡◌, ◌+◌, ℕ, List, true, false, Option, Some, Err};
ghost use Rattle.frz_board.specs.Boards.{Board};
ghost use Rattle.frz_board.specs.declared.man.Colour.{Colour};
ghost use Rattle.frz_sets.specs.declared.exit.Value.{Value};
ghost use Rattle.frz_sets.specs.Views.{RuleLines};
ghost use Rattle.frz_exits.specs.Books.{value_by};
ghost use Rattle.frz_arena.specs.declared.bound.Bound.TheVariants.{Wins};
ghost use Rattle.frz_arena.specs.Chess.{ForcesMate};
ghost use Rattle.frz_arena.specs.Exits.{AllNumbered};
ghost use Rattle.frz_game.specs.Bounds.{IsTableOf, IsBoundAt};
ghost use Rattle.frz_game.specs.Games.{chess, game_of};
ghost use Rattle.frz_game.specs.ExactTables.{HasExactOutcomes, AreDecidedOutside};
ghost use Rattle.frz_board.specs.declared.man.Colour.TheVariants.{White, Black};
ghost use Rattle.frz_chain.specs.DecidedBacks.{AreLinesOrBehind};
ghost use Rattle.frz_chain.specs.ChainPlies.{MatesOnBack};
ghost use Rattle.frz_game.specs.Values.{AreTrueExits, IsTrueValue};
ghost use Rattle.frz_game.specs.declared.wrong.Wrong.{Wrong};
ghost use Rattle.frz_table.specs.declared.fault.TableFault.{TableFault};
ghost use Rattle.frz_table.specs.declared.kind.FileKind.TheVariants.{Plain};
ghost use Rattle.frz_table.specs.Opening.{Contents, opened, table_format};
ghost use Rattle.frz_build.specs.Verdict.TheVariants.{Exact};
ghost use Rattle.frz_chain.specs.Backs.{HasWrong, IsBackJudged};
ghost use Rattle.frz_chain.specs.Books.{Back, back_value, chain_value};
ghost use Rattle.frz_chain.specs.ExactBacks.{is_exact};
ghost use Rattle.frz_chain.specs.FileOn.{IsExactBack};
ghost use Rattle.frz_chain.specs.Transfer.{TellsChess};

/// What an exact table tells of a position is true, if the values of its own exits are true.
pub fn pair_value_true()
    ensures { (rules : RuleLines) (value : Board → Value) (back : Back) →
        IsExactBack rules value back →
        AreTrueExits rules value → (q : Board) → IsTrueValue (back_value back q) q }
{}

/// If the values of the rules' own exit lines are true, and those of the back table's exits too,
/// then the values of the exits by the exit lines and the back table behind them are true.
pub fn chained_exits_true()
    ensures { (rules backs : RuleLines) (value : Board → Value) (back : Back) →
        IsExactBack backs value back →
        AreTrueExits rules (value_by rules) → AreTrueExits backs value →
        AreTrueExits rules (chain_value rules back) }
{}

/// If the exit lines of the rules and those of the text of the back table are true, the codes of a
/// table over the back table say of chess what `TellsChess` states of wins and holds.
pub fn chained_tables_tell()
    ensures { (rules backs : RuleLines) (back : Back) → IsExactBack backs (value_by backs) back →
        AreTrueExits rules (value_by rules) → AreTrueExits backs (value_by backs) →
        (side : Colour) (codes : List ℕ) → IsTableOf rules (chain_value rules back) side codes →
        TellsChess rules (chain_value rules back) side codes }
{}

/// A file is an exact back table if the verdict on it is exact, and it is none if an entry is wrong
/// or the file is refused. What checking a table over it may cost depends on this.
pub fn exact_by_verdict()
    ensures exact { (bytes : List ℕ) (contents : Contents) → IsBackJudged bytes contents Exact →
        is_exact (Some bytes) ≡ true }
    ensures wrong { (held : Option (List ℕ)) (wrong : Wrong) → HasWrong held wrong →
        is_exact held ≡ false }
    ensures refused { (held : Option (List ℕ)) (fault : TableFault) →
        opened (table_format Plain) held ≡ Err fault → is_exact held ≡ false }
{}

/// If every win of the back table is within `most` plies, a win within `n` plies of a table over it
/// forces mate within `n + most` plies. The exits of both must have true values, and those that the
/// side wins by exit lines must have a number of plies.
pub fn plies_over_a_chain()
    ensures { (rules backs : RuleLines) (value : Board → Value) (back : Back) →
        IsExactBack backs value back → (side : Colour) →
        MatesOnBack rules backs value back side }
{}

/// If the outcomes of the back table are those of chess, and each exit is decided by an exit line
/// or lies in the set of the back table, then the value of each exit decides the game.
pub fn exact_backs()
    ensures { (rules backs : RuleLines) (value : Board → Value) (back : Back) →
        IsExactBack backs value back → HasExactOutcomes backs White back.white →
        HasExactOutcomes backs Black back.black → AreLinesOrBehind rules backs back →
        AreDecidedOutside rules (chain_value rules back) }
{}
