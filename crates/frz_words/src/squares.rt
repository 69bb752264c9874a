//! Squares and sets of squares, as the words of a rules text write them.

ghost use Rattle.std.specs.Prelude.{◌≡◌, ◌<◌, ◌^◌, ℕ, IfSome};
ghost use Rattle.frz_squares.specs.SquareSets.{has_square, set_of};
ghost use Rattle.frz_words.specs.Squares.{square_of, square_word, between, item_of, covers as covers_square, squares_of, is_square_of};

use crate::parts::cut;
use crate::words::is_word;
use frz_squares::{SquareSet, file, rank};

/// The squares of a rectangle, from its corner `first` to its corner `last`. The file and the rank
/// of `first` are at most those of `last`. Squares are numbered from a1 = 0 along the ranks to
/// h8 = 63.
#[derive(Clone, Copy)]
pub struct Rectangle {
    first: u8,
    last: u8,
}

fn square_at(letter: u8, digit: u8) -> Option<u8>
    ensures square { result ≡ square_of letter digit }
    ensures on_board { IfSome result (λ s. s < 64) }
{
    match (letter, digit) {
        (b'a'..=b'h', b'1'..=b'8') => Some(8 * (digit - b'1') + (letter - b'a')),
        _ => None,
    }
}

/// The number of the square that a word of a letter a to h and a digit 1 to 8 names, from a1 = 0
/// along the ranks to h8 = 63. None for any other word.
pub fn read_square(w: &[u8]) -> Option<u8>
    ensures square { result ≡ square_word w.now }
    ensures on_board { IfSome result (λ s. s < 64) }
{
    match w {
        [letter, digit] => square_at(*letter, *digit),
        _ => None,
    }
}

fn between_corners(first: Option<u8>, last: Option<u8>) -> Option<Rectangle>
    ensures { result ≡ between first last }
{
    let first = first?;
    let last = last?;
    if file(first) <= file(last) && rank(first) <= rank(last) {
        Some(Rectangle { first, last })
    } else {
        None
    }
}

/// Reads an item: a square, two corners with a hyphen between them, or `all`. None for any other
/// word, and where the first corner is on a higher file or rank than the last.
fn read_item(w: &[u8]) -> Option<Rectangle>
    ensures { result ≡ item_of w.now }
{
    match w {
        [f, r] => between_corners(square_at(*f, *r), square_at(*f, *r)),
        [_, _, _] if is_word(w, b"all") => between_corners(Some(0), Some(63)),
        [f, r, b'-', g, s] => between_corners(square_at(*f, *r), square_at(*g, *s)),
        _ => None,
    }
}

impl Rectangle {
    fn covers(self, s: u8) -> bool
        ensures { result ≡ covers_square self s }
    {
        (file(self.first) <= file(s) && file(s) <= file(self.last))
            && (rank(self.first) <= rank(s) && rank(s) <= rank(self.last))
    }

    /// The squares of the rectangle, bit s for square s.
    #[tactic(auto, using(crate::proofs::Gathering::bits))]
    fn squares(self) -> u64
        ensures { result ≡ set_of (covers_square self) }
    {
        let mut set = 0u64;
        for s in 0..64u8 {
            if self.covers(s) {
                set += bit(s);
            }
        }
        set
    }
}

#[tactic(auto, using(crate::proofs::Gathering::bits))]
fn bit(s: u8) -> u64
    requires { s < 64 }
    ensures { result ≡ 2 ^ s }
{
    1 << s
}

#[tactic(auto, using(crate::proofs::Sets::sets))]
fn union_of_items(w: &[u8]) -> Option<SquareSet>
    ensures { result ≡ squares_of w.now }
{
    let mut rest = w;
    let mut set = 0u64;
    while let Some((item, after)) = cut(rest, b',') {
        set |= read_item(item)?.squares();
        rest = after;
    }
    set |= read_item(rest)?.squares();
    Some(SquareSet(set))
}

/// The set of squares that a word writes: the union of its items, which stand between commas. An
/// item is a square (`e4`), a rectangle by two corners (`a1-c3`) or `all`. Items may overlap. None
/// where one of the parts is no item.
#[tactic(auto, using(crate::proofs::Members::members))]
pub fn read_squares(w: &[u8]) -> Option<SquareSet>
    ensures set { result ≡ squares_of w.now }
    ensures members { IfSome result (λ set. (s : ℕ) → s < 64
        → has_square set s ≡ is_square_of w.now s) }
{
    union_of_items(w)
}
