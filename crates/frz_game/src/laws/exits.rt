//! What bounds say of chess, by the truth of the values outside the set.

ghost use Rattle.std.specs.Prelude.{◌≡◌, ◌≢◌, ℕ, false, []};
ghost use Rattle.frz_board.specs.declared.man.Colour.{Colour};
ghost use Rattle.frz_board.specs.Men.{other_of};
ghost use Rattle.frz_board.specs.Attacks.{is_in_check};
ghost use Rattle.frz_board.specs.Boards.{Board};
ghost use Rattle.frz_fide.specs.Listing.{legal_moves_of};
ghost use Rattle.frz_sets.specs.declared.exit.Value.{Value};
ghost use Rattle.frz_sets.specs.Views.{RuleLines};
ghost use Rattle.frz_index.specs.Members.{Member};
ghost use Rattle.frz_arena.specs.declared.bound.Bound.TheVariants.{Wins, Holds};
ghost use Rattle.frz_arena.specs.declared.class.Class.TheVariants.{Good};
ghost use Rattle.frz_arena.specs.Chess.{IsMated, ForcesMate, NeverForcesMate};
ghost use Rattle.frz_arena.specs.Exits.{TrueExits, AllNumbered, IsTrueAt};
ghost use Rattle.frz_graph.specs.Books.{value_by};
ghost use Rattle.frz_graph.specs.Values.{class_of};
ghost use Rattle.frz_game.specs.Games.{chess, game_of};
ghost use Rattle.frz_game.specs.Bounds.{ForcesWin, IsBoundAt};
ghost use Rattle.frz_game.specs.Values.{AreTrueExits, IsTrueValue};

/// Values and exits that are true in chess are true as `frz_arena` defines it.
pub fn true_values()
    ensures value { (rules : RuleLines) (value : Board → Value) (v : Value) (q : Board) →
        IsTrueValue v q → IsTrueAt (game_of rules value) v q }
    ensures exits { (rules : RuleLines) (value : Board → Value) →
        AreTrueExits rules value → TrueExits (game_of rules value) }
{}

/// A side whose bound is a win forces, within its plies, mate in chess or a position outside the
/// set whose value wins for it, be it an exit or one beyond an exit of another value. Where the
/// exits are true it forces mate, and within these plies where each value by which it wins names
/// its plies.
pub fn wins()
    ensures goals { (rules : RuleLines) (value : Board → Value) (side : Colour) (n : ℕ)
        (p : Board) →
        IsBoundAt rules value side p (Wins n) → ForcesWin rules value side n p }
    ensures mates { (rules : RuleLines) (value : Board → Value) → AreTrueExits rules value →
        (side : Colour) (n : ℕ) (p : Board) → IsBoundAt rules value side p (Wins n) →
        (k : ℕ) × ForcesMate chess side k p }
    ensures within { (rules : RuleLines) (value : Board → Value) → AreTrueExits rules value →
        (side : Colour) → AllNumbered (game_of rules value) side →
        (n : ℕ) (p : Board) → IsBoundAt rules value side p (Wins n) → ForcesMate chess side n p }
{}

/// Where the exits are true, a side that holds or wins is never mated by force.
pub fn holds()
    ensures hold { (rules : RuleLines) (value : Board → Value) → AreTrueExits rules value →
        (side : Colour) (p : Board) → Member rules.groups p → IsBoundAt rules value side p Holds →
        NeverForcesMate chess (other_of side) p }
    ensures win { (rules : RuleLines) (value : Board → Value) → AreTrueExits rules value →
        (side : Colour) (n : ℕ) (p : Board) → Member rules.groups p →
        IsBoundAt rules value side p (Wins n) → NeverForcesMate chess (other_of side) p }
{}

/// Without an exit line each value outside the set is unknown. So the exits are true, and no value
/// wins without naming its plies.
pub fn no_exit_line()
    ensures true_exits { (rules : RuleLines) → rules.exits ≡ []
        → AreTrueExits rules (value_by rules) }
    ensures numbered { (rules : RuleLines) → rules.exits ≡ [] →
        (side : Colour) → AllNumbered (game_of rules (value_by rules)) side }
{}

/// At a position where the mover is mated, each value by which the other side wins is true,
/// whatever plies it names. Where he is stalemated, each value by which nobody wins is true.
pub fn true_at_ends()
    ensures mate { (q : Board) (side : Colour) → IsMated chess (other_of side) q →
        (v : Value) → class_of v side ≡ Good → IsTrueValue v q }
    ensures stalemate { (q : Board) → legal_moves_of q ≡ [] → is_in_check q q.turn ≡ false →
        (v : Value) → ((side : Colour) → class_of v side ≢ Good) → IsTrueValue v q }
{}
