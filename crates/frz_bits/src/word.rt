//! Words of 64 bits as sets of squares, read and written square by square.

ghost use Rattle.std.specs.Prelude.{ℕ, ◌≡◌, ◌&&◌, ◌||◌, not, ◌==◌, ◌+◌, ◌≤◌, ◌<◌, ◌^◌, MatchOption, if◌then◌else◌};
ghost use Rattle.frz_squares.specs.SquareSets.{has_square};
ghost use Rattle.frz_bits.specs.Words.{HasNoneFrom, IsNext};

use frz_board::Square;

/// Is the square in the set?
#[tactic(auto, using(std::proofs::lemmas::Nat::Bits::shr_and_one))]
pub fn contains(word: u64, s: Square) -> bool
    ensures there { result ≡ has_square word s }
    ensures on_board { s < 64 }
{
    (word >> s.number()) & 1 == 1
}

/// The word with square `s` put in, or left out. `s` must be above all squares of the word.
pub fn with_square(word: u64, s: Square, put_in: bool) -> u64
    requires { word < 2 ^ s }
    ensures { result ≡ word + (if put_in then 2 ^ s else 0) }
{
    if put_in {
        word + (1 << s.number())
    } else {
        word
    }
}

/// The word with square `s` put in or taken out, whether or not it was in the word before.
pub fn replaced(word: u64, s: Square, put_in: bool) -> u64
    ensures { (k : ℕ) → k < 64 →
        has_square result k ≡ (if k == s then put_in else has_square word k) }
{
    let bit = 1 << s.number();
    if put_in { word | bit } else { word & !bit }
}

/// The squares of the one word that are not in the other.
pub fn without(word: u64, other: u64) -> u64
    ensures { (k : ℕ) → k < 64 →
        has_square result k ≡ (has_square word k && not (has_square other k)) }
{
    word & !other
}

/// The squares that are in both words.
pub fn both(word: u64, other: u64) -> u64
    ensures { (k : ℕ) → k < 64 → has_square result k ≡ (has_square word k && has_square other k) }
{
    word & other
}

/// The squares that are in one of the words.
pub fn either(word: u64, other: u64) -> u64
    ensures { (k : ℕ) → k < 64 → has_square result k ≡ (has_square word k || has_square other k) }
{
    word | other
}

/// The first square of the word whose number is `n` or above, and `None` where there is none.
pub fn next_square(word: u64, n: u8) -> Option<Square>
    requires { n ≤ 64 }
    ensures { MatchOption result (HasNoneFrom word n) (IsNext word n) }
{
    if n == 64 {
        return None;
    }
    let rest = word >> n;
    if rest == 0 {
        return None;
    }
    Some(Square::at(n + rest.trailing_zeros() as u8))
}
