//! Laws of the rules of chess, each the contract of a function that does nothing.

ghost use Rattle.std.specs.Prelude.{ℕ, ◌≡◌, ◌≢◌, ◌≤◌, ◌<◌, ◌+◌, true, false, None, [], Contains, length, ◌↔◌};
ghost use Rattle.std.specs.List.Sorted.{IsStrictlySortedBy};
ghost use Rattle.frz_board.specs.declared.man.Colour.{Colour};
ghost use Rattle.frz_board.specs.declared.man.Kind.{Kind};
ghost use Rattle.frz_board.specs.declared.man.Kind.TheVariants.{King, Queen, Rook, Bishop, Knight, Pawn};
ghost use Rattle.frz_board.specs.Shapes.{count_of};
ghost use Rattle.frz_board.specs.Attacks.{is_attacked, is_in_check};
ghost use Rattle.frz_board.specs.Boards.{Board};
ghost use Rattle.frz_board.specs.Moving.{Step, IsStep, step_cmp};
ghost use Rattle.frz_board.specs.Men.{other_of};
ghost use Rattle.frz_fide.specs.Bare.{IsBare, HasOneMinor};
ghost use Rattle.frz_fide.specs.Checks.{Attacker, Check};
ghost use Rattle.frz_fide.specs.Legal.{is_legal, after};
ghost use Rattle.frz_fide.specs.LegalMoves.{Legal};
ghost use Rattle.frz_fide.specs.Listing.{legal_moves_of};
ghost use Rattle.frz_fide.specs.Valid.{IsValid};

/// A square is attacked by a side exactly where some man of the side stands on the board and
/// attacks it (FIDE 3.1).
pub fn attack_in_words()
    ensures { (p : Board) (s : ℕ) (by : Colour) → (is_attacked p s by ≡ true) ↔ Attacker p by s }
{}

/// A side is in check exactly where some standing man of the other side attacks its king's square
/// (FIDE 3.9).
pub fn check_in_words()
    ensures { (p : Board) (c : Colour) → (is_in_check p c ≡ true) ↔ Check p c }
{}

/// Two different legal moves of one position lead to two different positions.
#[tactic(auto, using(crate::proofs::Different::same_move))]
pub fn different_moves()
    ensures { (p : Board) (m n : Step) → IsValid p → IsStep m → IsStep n → is_legal p m ≡ true
        → is_legal p n ≡ true → after p m ≡ after p n → m ≡ n }
{}

/// A legal move of a valid position leads to a valid position.
pub fn stays_valid()
    ensures { (p : Board) (m : Step) →
        IsValid p → IsStep m → is_legal p m ≡ true → IsValid (after p m) }
{}

/// The legal moves are listed in move order.
#[tactic(auto, using(crate::proofs::Listed::sorted))]
pub fn in_order()
    ensures { (p : Board) → IsStrictlySortedBy step_cmp (legal_moves_of p) }
{}

/// The list has exactly the legal moves.
pub fn all_listed()
    ensures { (p : Board) (m : Step)
        → Contains (legal_moves_of p) m ↔ (IsStep m × (is_legal p m ≡ true)) }
{}

/// The test `is_legal` holds exactly where the laws of chess allow the move, and then `after` is
/// the position that they give (FIDE 3.1 to 3.9).
pub fn moves_in_words()
    ensures { (p : Board) (m : Step) (q : Board) → IsValid p
        → Legal p m q ↔ (IsStep m × (is_legal p m ≡ true) × (q ≡ after p m)) }
{}

/// A valid position has at most 1,024 legal moves: a side has at most 16 men, and each of them has
/// at most 64 moves.
pub fn few_moves()
    ensures { (p : Board) → IsValid p → length (legal_moves_of p) ≤ 1024 }
{}

/// A side that has only its king never gives check in a valid position, and it has only its king
/// after each legal move.
pub fn bare_kings()
    ensures no_check { (p : Board) → IsValid p → IsBare p (other_of p.turn) →
        is_in_check p p.turn ≡ false }
    ensures stays { (p : Board) (m : Step) (c : Colour) → IsValid p → IsStep m →
        is_legal p m ≡ true → IsBare p c → IsBare (after p m) c }
{}

/// A king with one bishop or knight at most never mates a bare king: where the bare king is in
/// check, it has a legal move. A side that has no more than that has no more after each legal move.
pub fn one_minor()
    ensures no_mate { (p : Board) → IsValid p → HasOneMinor p (other_of p.turn) → IsBare p p.turn →
        is_in_check p p.turn ≡ true → legal_moves_of p ≢ [] }
    ensures stays { (p : Board) (m : Step) (c : Colour) → IsValid p → IsStep m →
        is_legal p m ≡ true → HasOneMinor p c → HasOneMinor (after p m) c }
{}

/// The counts of a side's men tell that it has only its king, or one bishop or knight at most
/// besides. A legal move that does not promote gives no side more men of any kind.
pub fn counted_men()
    ensures bare { (p : Board) (c : Colour) → IsValid p →
        ((k : Kind) → k ≢ King → count_of p c k ≡ 0) → IsBare p c }
    ensures minor { (p : Board) (c : Colour) → IsValid p → count_of p c Queen ≡ 0 →
        count_of p c Rook ≡ 0 → count_of p c Pawn ≡ 0 →
        count_of p c Bishop + count_of p c Knight ≤ 1 → HasOneMinor p c }
    ensures fall { (p : Board) (m : Step) (c : Colour) (k : Kind) → IsValid p → IsStep m →
        is_legal p m ≡ true → m.promo ≡ None → count_of (after p m) c k ≤ count_of p c k }
{}
