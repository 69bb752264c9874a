//! The laws of reports. Each is the contract of a function that does nothing.
ghost use Rattle.std.specs.Prelude.{true, ◌≡◌, ◌↔◌, ◌<◌, ℕ, List, Contains, AllPairs, length, sum_by};
ghost use Rattle.std.specs.List.{IsDistinct, list_any};
ghost use Rattle.std.specs.Str.{bytes_eq};
ghost use Rattle.frz_board.specs.declared.man.Colour.{Colour};
ghost use Rattle.frz_board.specs.declared.man.Colour.TheVariants.{White, Black};
ghost use Rattle.frz_board.specs.Boards.{Board};
ghost use Rattle.frz_sets.specs.declared.exit.Value.{Value};
ghost use Rattle.frz_sets.specs.Views.{GroupLine, RuleLines};
ghost use Rattle.frz_exits.specs.Books.{value_by};
ghost use Rattle.frz_game.specs.Bounds.{IsTableOf};
ghost use Rattle.frz_game.specs.ExactTables.{HasNoForbid, IsExactInChess};
ghost use Rattle.frz_game.specs.TextsByMen.{are_drawn_by_men, HasNoOpenExit};
ghost use Rattle.frz_game.specs.Values.{AreTrueExits};
ghost use Rattle.frz_report.specs.Squeezes.{Squeeze, IsSqueeze, squeezes, rank_at};
ghost use Rattle.frz_report.specs.Reports.{totals_of};
ghost use Rattle.frz_report.specs.Zugzwangs.{IsZugzwang};
ghost use Rattle.frz_report.specs.Census.{census, firsts};

pub mod zugzwangs;

/// The squeezes (mutual zugzwangs) of a report are exactly those of the set, each once, by
/// increasing number with White to move.
pub fn squeezes_in_words()
    ensures exact { (groups : List GroupLine) (codes : Colour → List ℕ) (s : Squeeze) →
        Contains (squeezes groups codes) s ↔ IsSqueeze groups codes s }
    ensures increasing { (groups : List GroupLine) (codes : Colour → List ℕ) →
        AllPairs (λ s t. s.white_to_move < t.white_to_move) (squeezes groups codes) }
{}

/// A census lists a class exactly if an exit has it, and lists it once; its counts add up to the
/// number of exits.
pub fn classes_in_words()
    ensures exact { (exits : List (List ℕ)) (class : List ℕ) →
        list_any (bytes_eq class) (firsts exits) ≡ list_any (bytes_eq class) exits }
    ensures once { (exits : List (List ℕ)) → IsDistinct bytes_eq (firsts exits) }
    ensures sum { (exits : List (List ℕ)) → sum_by (λ e. e.1) (census exits) ≡ length exits }
{}

/// If the values of the exits are true, a squeeze of the tables of both sides that shows a win is a
/// mutual zugzwang of chess: the side that wins forces mate if its opponent is to move, and does
/// not if it is to move itself.
pub fn squeezes_are_zugzwangs()
    ensures white { (rules : RuleLines) (value : Board → Value) → AreTrueExits rules value →
        (codes : Colour → List ℕ) →
        ((side : Colour) → IsTableOf rules value side (codes side)) →
        (s : Squeeze) (squeeze : IsSqueeze rules.groups codes s) →
        rank_at codes White s.black_to_move ≡ 2 →
        IsZugzwang White squeeze.other s.position }
    ensures black { (rules : RuleLines) (value : Board → Value) → AreTrueExits rules value →
        (codes : Colour → List ℕ) →
        ((side : Colour) → IsTableOf rules value side (codes side)) →
        (s : Squeeze) (squeeze : IsSqueeze rules.groups codes s) →
        rank_at codes Black s.white_to_move ≡ 2 →
        IsZugzwang Black s.position squeeze.other }
{}

/// If a report counts no open exit, no move out of the set leads to a position of unknown value.
/// If, further, each exit line is a draw by the men, the tables of the sides that no line forbids a
/// move are exact in chess.
pub fn none_unassigned()
    ensures closed { (rules : RuleLines) (value : Board → Value) (codes : Colour → List ℕ) →
        (totals_of rules value codes).unassigned ≡ 0 → HasNoOpenExit rules value }
    ensures exact { (rules : RuleLines) (codes : Colour → List ℕ) →
        are_drawn_by_men rules ≡ true →
        (totals_of rules (value_by rules) codes).unassigned ≡ 0 →
        (side : Colour) → HasNoForbid rules side →
        IsTableOf rules (value_by rules) side (codes side) →
        IsExactInChess rules side (codes side) }
{}
