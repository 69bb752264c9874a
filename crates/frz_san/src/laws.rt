//! Laws of notation, each the contract of a function that does nothing.
ghost use Rattle.std.specs.Prelude.{◌≡◌, ◌↔◌, ℕ, List, [], true, false, codes};
ghost use Rattle.frz_board.specs.declared.man.Man.{Man};
ghost use Rattle.frz_board.specs.Squares.{file_of, rank_of};
ghost use Rattle.frz_board.specs.Boards.{Board, man_on};
ghost use Rattle.frz_board.specs.Moving.{Step, IsStep};
ghost use Rattle.frz_board.specs.Attacks.{is_in_check};
ghost use Rattle.frz_fide.specs.Legal.{is_legal};
ghost use Rattle.frz_fide.specs.Valid.{IsValid};
ghost use Rattle.frz_fide.specs.Ends.{IsMate, IsGoing};
ghost use Rattle.frz_san.specs.Notation.{IsSan, sign, has_rival, has_rival_on_file, has_rival_on_rank, is_capture};
ghost use Rattle.frz_san.specs.Rivals.{Rival};
ghost use Rattle.frz_san.specs.Leaving.{Leaves};

/// A text stands for at most one legal move of a position: if two legal moves have it, they are the
/// same move. This holds with the sign and without it.
pub fn one_move()
    ensures { (p : Board) (m n : Step) (text : List ℕ) → IsStep m → IsStep n
        → is_legal p m ≡ true → is_legal p n ≡ true → IsSan p m text → IsSan p n text → m ≡ n }
{}

/// The sign of a move tells check and mate: it is `#` where the side to move is mated, `+` where it
/// is in check and has a move, and nothing where it is not in check.
pub fn sign_in_words()
    ensures mate { (q : Board) → (sign q ≡ codes "#") ↔ IsMate q }
    ensures check { (q : Board) → (sign q ≡ codes "+")
        ↔ (IsGoing q × (is_in_check q q.turn ≡ true)) }
    ensures nothing { (q : Board) → (sign q ≡ []) ↔ (is_in_check q q.turn ≡ false) }
{}

/// The tests for rivals (other legal moves by the same kind of man to the same square) pass exactly
/// where there is one, where there is one on the same file, and where there is one on the same
/// rank.
pub fn rivals_in_words()
    ensures any { (p : Board) (m : Step) → (has_rival p m ≡ true) ↔ ((n : Step) × Rival p m n) }
    ensures file { (p : Board) (m : Step) → (has_rival_on_file p m ≡ true)
        ↔ ((n : Step) × Rival p m n × (file_of n.from ≡ file_of m.from)) }
    ensures rank { (p : Board) (m : Step) → (has_rival_on_rank p m ≡ true)
        ↔ ((n : Step) × Rival p m n × (rank_of n.from ≡ rank_of m.from)) }
{}

/// A legal move is written as a capture exactly where a man of the opponent leaves the board.
pub fn captures_in_words()
    ensures { (p : Board) (m : Step) (man : Man) → IsValid p → IsStep m → is_legal p m ≡ true
        → man_on p m.from ≡ Some man → (is_capture p man m ≡ true) ↔ Leaves p m }
{}
