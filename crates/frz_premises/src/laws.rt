//! What the bases of exit lines say of chess. Each law is the contract of a function that does
//! nothing.
ghost use Rattle.std.specs.Prelude.{◌≡◌, ◌⊎◌, ◌↔◌, ℕ, Bool, List, true, false, Some, slice_get, slice_index};
ghost use Rattle.std.specs.List.{Contains};
ghost use Rattle.frz_board.specs.declared.man.Colour.{Colour};
ghost use Rattle.frz_board.specs.Boards.{Board};
ghost use Rattle.frz_sets.specs.declared.exit.Value.{Value};
ghost use Rattle.frz_sets.specs.Views.{ExitLine, RuleLines};
ghost use Rattle.frz_index.specs.Members.{Member, Num};
ghost use Rattle.frz_arena.specs.declared.bound.Bound.TheVariants.{Wins};
ghost use Rattle.frz_arena.specs.Codes.{code_of};
ghost use Rattle.frz_arena.specs.Exits.{IsExit};
ghost use Rattle.frz_arena.specs.WholeTruth.{MatesIn};
ghost use Rattle.frz_exits.specs.Books.{value_by};
ghost use Rattle.frz_game.specs.Bounds.{IsTableOf};
ghost use Rattle.frz_game.specs.ExactTables.{HasExactOutcomes};
ghost use Rattle.frz_game.specs.Games.{chess, game_of};
ghost use Rattle.frz_game.specs.Values.{AreTrueExits, IsTrueValue};
ghost use Rattle.frz_backs.specs.Links.{AreExact, AreTrueLines, Link, backs_of, own_over, value_over};
ghost use Rattle.frz_premises.specs.declared.basis.Basis.TheVariants.{Believed};
ghost use Rattle.frz_premises.specs.declared.sides.Strength.TheVariants.{Outcomes, Exact};
ghost use Rattle.frz_premises.specs.Bases.{basis_of, believed_of, is_believed};
ghost use Rattle.frz_premises.specs.Believing.{BeliefHolds, BeliefsHold, believed_in};
ghost use Rattle.frz_premises.specs.Deciding.{decides};
ghost use Rattle.frz_premises.specs.Needs.{NeedsBelief};
ghost use Rattle.frz_premises.specs.RestsOn.{RestsOn};
ghost use Rattle.frz_premises.specs.Sides.{exits_tell, strength_of};
ghost use Rattle.frz_premises.specs.WaysOut.{outside_of};

/// The exits of a set are the positions one legal move outside it.
pub fn exits_in_words()
    ensures { (rules : RuleLines) (value : Board → Value) (q : Board) →
        Contains (outside_of rules.groups) q ↔ IsExit (game_of rules value) q }
{}

/// The value of a position by the text's own lines is that of the line that decides it.
pub fn decided_values()
    ensures { (leans : Bool) (rules : RuleLines) (links : List Link) (q : Board) (i : ℕ)
        (line : ExitLine) → slice_get rules.exits i ≡ Some line →
        decides leans rules links i q ≡ true →
        own_over leans rules (backs_of links) q ≡ line.value }
{}

/// A line that is not believed is true at each exit that it decides, if the tables are exact and
/// their own exit lines are true.
pub fn lines_are_true()
    ensures { (leans : Bool) (rules : RuleLines) (links : List Link) → AreExact links → AreTrueLines links →
        (i : ℕ) (line : ExitLine) → slice_get rules.exits i ≡ Some line →
        is_believed (basis_of leans rules links i line) ≡ false →
        (q : Board) → IsExit (game_of rules (value_by rules)) q →
        decides leans rules links i q ≡ true → IsTrueValue line.value q }
{}

/// What each word on a line says of it, at every exit that the line decides.
pub fn lines_rest()
    ensures { (leans : Bool) (rules : RuleLines) (links : List Link) (i : ℕ) (line : ExitLine) →
        RestsOn leans rules links i line (basis_of leans rules links i line) }
{}

/// The exit that is told of a believed line is one that the line decides, and neither the men there
/// nor a table show what the line says.
pub fn believed_exits()
    ensures { (leans : Bool) (rules : RuleLines) (value : Board → Value) (links : List Link) (i : ℕ)
        (line : ExitLine) (q : Board) → basis_of leans rules links i line ≡ Believed q →
        NeedsBelief leans rules value links i line q }
{}

/// The exits are true where what is believed holds: by the exit lines alone, and with the tables
/// behind them.
pub fn true_where_belief_holds()
    ensures lines { (leans : Bool) (rules : RuleLines) (links : List Link) → AreExact links →
        AreTrueLines links → BeliefHolds leans rules links →
        AreTrueExits rules (own_over leans rules (backs_of links)) }
    ensures tables { (leans : Bool) (rules : RuleLines) (links : List Link) → AreExact links →
        AreTrueLines links → BeliefHolds leans rules links →
        AreTrueExits rules (value_over leans rules (backs_of links)) }
{}

/// The lines of the tables are true where what is believed holds, of each table with those before
/// it.
pub fn tables_are_true()
    ensures { (links : List Link) → AreExact links → BeliefsHold links → AreTrueLines links }
{}

/// Where no line is believed, what is believed holds.
pub fn none_believed()
    ensures rules { (leans : Bool) (rules : RuleLines) (links : List Link) → believed_of leans rules links ≡ 0 →
        BeliefHolds leans rules links }
    ensures tables { (links : List Link) → believed_in links ≡ 0 → BeliefsHold links }
{}

/// What the strength of a side means, where the exits are true: with `Outcomes` and `Exact` the
/// outcomes of its table are those of chess, and with `Exact` the plies of a win are those of the
/// quickest mate.
pub fn sides_are_exact()
    ensures outcomes { (rules : RuleLines) (value : Board → Value) (side : Colour)
        (codes : List ℕ) → AreTrueExits rules value → IsTableOf rules value side codes →
        (believed : ℕ) →
        (strength_of rules believed (exits_tell rules value) side ≡ Outcomes)
        ⊎ (strength_of rules believed (exits_tell rules value) side ≡ Exact) →
        HasExactOutcomes rules side codes }
    ensures plies { (rules : RuleLines) (value : Board → Value) (side : Colour)
        (codes : List ℕ) → AreTrueExits rules value → IsTableOf rules value side codes →
        (believed : ℕ) → strength_of rules believed (exits_tell rules value) side ≡ Exact →
        (p : Board) (n : ℕ) → Member rules.groups p →
        (slice_index codes (Num rules.groups p) ≡ code_of (Wins n)) ↔ MatesIn chess side n p }
{}
