//! What holds of moves with kings put on a board, whatever the code.

ghost use Rattle.std.specs.Prelude.{ℕ, ◌≡◌, ◌≢◌, ◌<◌, ◌↔◌, true, not, ◌⊎◌};
ghost use Rattle.frz_board.specs.Attacks.{is_attacked};
ghost use Rattle.frz_board.specs.Men.{other_of};
ghost use Rattle.frz_board.specs.Boards.{Board, holds, is_empty};
ghost use Rattle.frz_board.specs.declared.man.Colour.TheVariants.{White, Black};
ghost use Rattle.frz_board.specs.Moving.{Step, IsStep};
ghost use Rattle.frz_fide.specs.Legal.{after as board_after, can_go, is_legal};
ghost use Rattle.frz_king_planes.specs.Kings.{king_square, with_kings};
ghost use Rattle.frz_pair_moves.specs.Kings.{handed};
ghost use Rattle.frz_pair_moves.specs.Steps.{step_at, step_number};
ghost use Rattle.frz_pair_moves.specs.Moves.{IsKingMove, Makes, entered};
ghost use Rattle.frz_pair_moves.specs.Ways.{leave_way};

/// The moves of men that are no kings. A step of such a man is legal exactly where the man can go on
/// the board without kings, neither king stands on its way, and the kings make a valid position of
/// the board after it. That is the position after the move. If the step can go and the way is left, it
/// is legal exactly where the mover's king is not attacked afterwards.
pub fn moves_of_men()
    ensures legal { (p : Board) (m : Step) (a b : ℕ) → IsStep m → a < 64 → b < 64 →
        Makes p a b → holds p p.turn m.from ≡ true →
        (is_legal (with_kings p a b) m ≡ true)
        ↔ ((can_go p m ≡ true) × (leave_way m a b ≡ true) × Makes (board_after p m) a b) }
    ensures after { (p : Board) (m : Step) (a b : ℕ) → IsStep m → a < 64 → b < 64 →
        Makes p a b → can_go p m ≡ true → leave_way m a b ≡ true →
        board_after (with_kings p a b) m ≡ with_kings (board_after p m) a b }
    ensures safe { (p : Board) (m : Step) (a b : ℕ) → IsStep m → a < 64 → b < 64 →
        Makes p a b → can_go p m ≡ true → leave_way m a b ≡ true →
        is_legal (with_kings p a b) m
        ≡ not (is_attacked (with_kings (board_after p m) a b) (king_square p.turn a b)
        (other_of p.turn)) }
{}

/// The moves of White's king, with Black's king on `b`. A step is legal exactly where it is a
/// king's step to a square without a man of White's, and the kings make a valid position there of
/// what it leaves. That is the position after the move. A man of Black's on the square is captured.
pub fn moves_of_white_king()
    ensures legal { (p : Board) (m : Step) (b : ℕ) → IsStep m → b < 64 → p.turn ≡ White →
        Makes p m.from b →
        (is_legal (with_kings p m.from b) m ≡ true)
        ↔ (IsKingMove p m × Makes (entered p m.to) m.to b) }
    ensures after { (p : Board) (m : Step) (b : ℕ) → IsStep m → b < 64 → p.turn ≡ White →
        Makes p m.from b → IsKingMove p m → m.to ≢ b →
        board_after (with_kings p m.from b) m ≡ with_kings (entered p m.to) m.to b }
{}

/// The moves of Black's king, with White's king on `a`, likewise.
pub fn moves_of_black_king()
    ensures legal { (p : Board) (m : Step) (a : ℕ) → IsStep m → a < 64 → p.turn ≡ Black →
        Makes p a m.from →
        (is_legal (with_kings p a m.from) m ≡ true)
        ↔ (IsKingMove p m × Makes (entered p m.to) a m.to) }
    ensures after { (p : Board) (m : Step) (a : ℕ) → IsStep m → a < 64 → p.turn ≡ Black →
        Makes p a m.from → IsKingMove p m → m.to ≢ a →
        board_after (with_kings p a m.from) m ≡ with_kings (entered p m.to) a m.to }
{}

/// A legal move is one of the king of the side to move, or of a man on the board without kings.
pub fn movers()
    ensures { (p : Board) (m : Step) (a b : ℕ) → IsStep m → a < 64 → b < 64 → Makes p a b →
        is_legal (with_kings p a b) m ≡ true →
        (m.from ≡ king_square p.turn a b) ⊎ (holds p p.turn m.from ≡ true) }
{}

/// Each step has a number, below 20480.
pub fn step_numbers()
    ensures { (m : Step) → IsStep m →
        (step_number m < 20480) × (step_at (step_number m) ≡ m) }
{}

/// A king that goes to an empty square leaves the same men, with the other side to move.
pub fn quiet_king()
    ensures { (p : Board) (s : ℕ) → is_empty p s ≡ true → entered p s ≡ handed p }
{}
