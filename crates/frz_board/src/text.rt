//! The texts of moves, as `e2e4` or `e7e8q`.

ghost use Rattle.std.specs.Prelude.{ℕ, true, ◌≡◌, ◌+◌, ◌≤◌, ◌<◌, ◌↔◌, ◌++◌, ◌∷◌, [], length};
ghost use Rattle.arrayvec.specs.ArrayString.{array_string_len};
ghost use Rattle.frz_board.specs.Moving.{Step, IsStep, is_promotion};
ghost use Rattle.frz_board.specs.Texts.{text_of, file_letter, rank_digit, promotion_text};

use super::man::{Kind, TO_SMALL};
use super::square::Square;
use super::step::Move;
use arrayvec::ArrayString;

fn add(text: &mut ArrayString<5>, byte: u8)
    requires ascii { byte < 128 }
    requires room { array_string_len text.old < 5 }
    ensures { text.new.bytes ≡ text.old.bytes ++ byte ∷ [] }
{
    text.push(byte as char);
}

/// The text of a move, as `e2e4` or `e7e8q`.
pub fn move_text(m: Move) -> ArrayString<5>
    ensures { result.bytes ≡ text_of m }
{
    let mut text = ArrayString::new();
    add(&mut text, b'a' + m.from.file());
    add(&mut text, b'1' + m.from.rank());
    add(&mut text, b'a' + m.to.file());
    add(&mut text, b'1' + m.to.rank());
    if let Some(kind) = m.promo {
        add(&mut text, kind.letter() + TO_SMALL);
    }
    text
}

fn read_square(file: u8, rank: u8) -> Option<Square>
    ensures { (s : ℕ) → s < 64
        → (result ≡ Some s) ↔ ((file ≡ file_letter s) × (rank ≡ rank_digit s)) }
{
    if b'a' <= file && file <= b'h' && b'1' <= rank && rank <= b'8' {
        Some(Square::at(8 * (rank - b'1') + (file - b'a')))
    } else {
        None
    }
}

fn read_parts(a: u8, b: u8, c: u8, d: u8, promo: Option<Kind>) -> Option<Move>
    requires { is_promotion promo ≡ true }
    ensures { (m : Step) → IsStep m → (result ≡ Some m) ↔ ((a ∷ b ∷ c ∷ d ∷ []
        ≡ file_letter m.from ∷ rank_digit m.from ∷ file_letter m.to ∷ rank_digit m.to ∷ [])
        × (promo ≡ m.promo)) }
{
    let from = read_square(a, b)?;
    let to = read_square(c, d)?;
    Some(Move { from, to, promo })
}

fn read_promotion(byte: u8) -> Option<Kind>
    ensures kind { (k : Kind) → is_promotion (Some k) ≡ true
        → (result ≡ Some k) ↔ (byte ∷ [] ≡ promotion_text (Some k)) }
    ensures promotion { is_promotion result ≡ true }
{
    if byte < TO_SMALL {
        return None;
    }
    match Kind::of_letter(byte - TO_SMALL) {
        Some(Kind::King | Kind::Pawn) => None,
        kind => kind,
    }
}

/// The move whose text this is, exactly as `move_text` writes it, and `None` for any other text. No
/// position is asked, so the move need not be legal in any.
pub fn read_move(text: &[u8]) -> Option<Move>
    ensures { (m : Step) → (result ≡ Some m) ↔ (IsStep m × (text.now ≡ text_of m)) }
{
    match text {
        [a, b, c, d] => read_parts(*a, *b, *c, *d, None),
        [a, b, c, d, e] => {
            let promo = read_promotion(*e)?;
            read_parts(*a, *b, *c, *d, Some(promo))
        }
        _ => None,
    }
}
