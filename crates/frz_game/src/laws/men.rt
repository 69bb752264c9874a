//! Laws of what the men on the board alone show.

ghost use Rattle.std.specs.Prelude.{◌≡◌, true};
ghost use Rattle.frz_board.specs.declared.man.Colour.{Colour};
ghost use Rattle.frz_board.specs.Boards.{Board};
ghost use Rattle.frz_board.specs.Men.{other_of};
ghost use Rattle.frz_fide.specs.Bare.{IsBare};
ghost use Rattle.frz_fide.specs.Valid.{IsValid};
ghost use Rattle.frz_sets.specs.declared.exit.Value.{Value};
ghost use Rattle.frz_sets.specs.Views.{RuleLines};
ghost use Rattle.frz_arena.specs.declared.class.Class.TheVariants.{Safe};
ghost use Rattle.frz_arena.specs.Chess.{NeverForcesMate};
ghost use Rattle.frz_graph.specs.Books.{value_by};
ghost use Rattle.frz_graph.specs.Values.{class_of};
ghost use Rattle.frz_game.specs.ExactTables.{AreDecidedOutside};
ghost use Rattle.frz_game.specs.Games.{chess};
ghost use Rattle.frz_game.specs.MenAlone.{HasDeadMen, IsTrueByMen, AreTrueByMen, IsDrawnOutside};
ghost use Rattle.frz_game.specs.TextsByMen.{are_true_by_men, are_drawn_by_men, HasNoOpenExit};
ghost use Rattle.frz_game.specs.Values.{IsTrueValue, AreTrueExits};
ghost use Rattle.frz_game.specs.WholeSets.{IsWholeSet};

/// A side with its king alone never forces mate. So where a value says draw, or that the opponent
/// of that side holds, the opponent is indeed never mated by force.
pub fn bare_kings()
    ensures never { (p : Board) (c : Colour) → IsValid p → IsBare p c → NeverForcesMate chess c p }
    ensures right { (v : Value) (q : Board) (side : Colour) → IsValid q →
        IsBare q (other_of side) → class_of v side ≡ Safe →
        NeverForcesMate chess (other_of side) q }
{}

/// With one bishop or knight at most on one side, and a bare king on the other, neither side forces
/// mate.
pub fn dead_men()
    ensures { (p : Board) → IsValid p → HasDeadMen p → (c : Colour) → NeverForcesMate chess c p }
{}

/// A value that is true by the men is true in chess.
pub fn true_by_men()
    ensures value { (v : Value) (q : Board) → IsValid q → IsTrueByMen v q → IsTrueValue v q }
    ensures exits { (rules : RuleLines) (value : Board → Value) → AreTrueByMen rules value →
        AreTrueExits rules value }
{}

/// Where each exit is drawn by the men, the exits are true, and their values decide the game.
pub fn drawn_outside()
    ensures exits { (rules : RuleLines) (value : Board → Value) → IsDrawnOutside rules value →
        AreTrueExits rules value }
    ensures decided { (rules : RuleLines) (value : Board → Value) → IsDrawnOutside rules value →
        AreDecidedOutside rules value }
{}

/// Two tests of the exit lines. Rules that pass `are_true_by_men` have true exits. Rules that pass
/// `are_drawn_by_men`, and whose exits are all valued, have only exits that are drawn by the men.
pub fn texts_by_men()
    ensures exits { (rules : RuleLines) → are_true_by_men rules ≡ true →
        AreTrueExits rules (value_by rules) }
    ensures drawn { (rules : RuleLines) → are_drawn_by_men rules ≡ true →
        HasNoOpenExit rules (value_by rules) → IsDrawnOutside rules (value_by rules) }
{}

/// Only captures leave a set without pawns whose groups allow their kinds on every square. Let each
/// group but the kings' be one that may be empty, or that an exit line covers where too few of its
/// men stand, and let all exit lines be draws by the men. Then each exit is drawn by the men.
pub fn whole_sets()
    ensures { (rules : RuleLines) → IsWholeSet rules → are_drawn_by_men rules ≡ true →
        IsDrawnOutside rules (value_by rules) }
{}
