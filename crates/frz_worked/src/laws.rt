//! Laws of worked texts. Each is the contract of a function that does nothing.

ghost use Rattle.std.specs.Prelude.{◌≡◌, ℕ, List, Ok, slice_index};
ghost use Rattle.frz_board.specs.Boards.{Board};
ghost use Rattle.frz_board.specs.declared.man.Colour.{Colour};
ghost use Rattle.frz_board.specs.declared.man.Colour.TheVariants.{White};
ghost use Rattle.frz_sets.specs.Views.{RuleLines};
ghost use Rattle.frz_rules.specs.Text.{rules_of};
ghost use Rattle.frz_index.specs.Members.{Member, Num};
ghost use Rattle.frz_arena.specs.declared.bound.Bound.TheVariants.{Wins};
ghost use Rattle.frz_arena.specs.Codes.{code_of};
ghost use Rattle.frz_exits.specs.Books.{value_by};
ghost use Rattle.frz_game.specs.Bounds.{IsTableOf};
ghost use Rattle.frz_game.specs.ExactTables.{HasExactOutcomes, IsExactInChess, HasWinsUpTo, IsLongestMate};
ghost use Rattle.frz_game.specs.KingAndPawn.{king_and_pawn, pawn_back};
ghost use Rattle.frz_game.specs.KingAndRook.{king_and_rook};
ghost use Rattle.frz_game.specs.RenouncedRook.{renounced_rook};
ghost use Rattle.frz_chain.specs.Books.{Back, chain_value};
ghost use Rattle.frz_chain.specs.FileOn.{IsExactBack};
ghost use Rattle.frz_worked.specs.FortressText.{fortress_text};
ghost use Rattle.frz_worked.specs.RookText.{rook_text, two_squares_text};
ghost use Rattle.frz_worked.specs.WorkedTexts.{IsUnconditional, pawn_back_text as back_text, pawn_text, corner_text, corner_back_text, blocked_text, wall_text};

/// The text of king and rook against king is accepted, and the table of its rules is exact in chess
/// for both sides. So the greatest code of a win of White tells the longest mate of the ending.
pub fn king_and_rook_text()
    ensures read { rules_of rook_text ≡ Ok king_and_rook }
    ensures exact { (rules : RuleLines) → rules_of rook_text ≡ Ok rules → (side : Colour)
        (codes : List ℕ) → IsTableOf rules (value_by rules) side codes →
        IsExactInChess rules side codes }
    ensures longest { (rules : RuleLines) → rules_of rook_text ≡ Ok rules → (codes : List ℕ) →
        IsTableOf rules (value_by rules) White codes → (p : Board) (n : ℕ) →
        Member rules.groups p → slice_index codes (Num rules.groups p) ≡ code_of (Wins n) →
        HasWinsUpTo codes n → IsLongestMate rules White n }
{}

/// The text of king and rook in which White renounces all moves but two of the rook's is accepted:
/// its rules are those of which `frz_game::laws::exactness` says that the bounds are not those of
/// chess.
pub fn two_squares_text()
    ensures { rules_of two_squares_text ≡ Ok renounced_rook }
{}

/// The text of king and pawn is accepted, and so is that of what the pawn may become, into whose
/// set each move out of the first one leads; the table of the second is exact in chess for both
/// sides.
pub fn pawn_back_text()
    ensures pawn { rules_of pawn_text ≡ Ok king_and_pawn }
    ensures read { rules_of back_text ≡ Ok pawn_back }
    ensures exact { (rules : RuleLines) → rules_of back_text ≡ Ok rules → (side : Colour)
        (codes : List ℕ) → IsTableOf rules (value_by rules) side codes →
        IsExactInChess rules side codes }
{}

/// A table of the text of king and pawn, over an exact table of the text of what the pawn may
/// become, has the outcomes of chess: a win, a loss and a draw there are those of chess.
pub fn pawn_over_back()
    ensures { (rules backs : RuleLines) → rules_of pawn_text ≡ Ok rules →
        rules_of back_text ≡ Ok backs → (back : Back) → IsExactBack backs (value_by backs) back →
        (side : Colour) (codes : List ℕ) → IsTableOf rules (chain_value rules back) side codes →
        HasExactOutcomes rules side codes }
{}

/// These worked texts are accepted, and their exits are true in chess: nothing that they say has to
/// be believed.
pub fn unconditional_texts()
    ensures rook { IsUnconditional rook_text }
    ensures fortress { IsUnconditional fortress_text }
    ensures pawn { IsUnconditional pawn_text }
    ensures pawn_back { IsUnconditional back_text }
    ensures corner { IsUnconditional corner_text }
    ensures corner_back { IsUnconditional corner_back_text }
    ensures blocked { IsUnconditional blocked_text }
    ensures wall { IsUnconditional wall_text }
{}
