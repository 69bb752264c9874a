//! Reads single words of a rules text, each by its class.
ghost use Rattle.std.specs.Prelude.{◌≡◌, option_map};
ghost use Rattle.frz_rules.specs.Classes.{colour_of, kind_of, count_of, range_of, place_of};
ghost use Rattle.frz_words.specs.Numbers.{number_of};
ghost use Rattle.frz_words.specs.Squares.{square_word};

use frz_board::{Colour, Kind, Square};
use frz_sets::MOST_MEN;
use frz_words::{SquareSet, cut, is_word, read_number, read_square, read_squares};

/// `white` or `black`.
pub fn colour(w: &[u8]) -> Option<Colour>
    ensures { result ≡ colour_of w.now }
{
    if is_word(w, b"white") {
        Some(Colour::White)
    } else if is_word(w, b"black") {
        Some(Colour::Black)
    } else {
        None
    }
}

/// The kind of a word of one letter: K, Q, R, B, N or P.
pub fn kind(w: &[u8]) -> Option<Kind>
    ensures { result ≡ kind_of w.now }
{
    match w {
        [letter] => Kind::of_letter(*letter),
        _ => None,
    }
}

fn men(w: &[u8]) -> Option<u8>
    ensures { result ≡ number_of w.now MOST_MEN }
{
    match read_number(w, MOST_MEN) {
        None => None,
        Some(n) => Some(n as u8),
    }
}

/// A number of men up to 16, or two with a hyphen between them: the least and the most. One number
/// alone is both.
#[tactic(auto, using(crate::proofs::Parts::count_many))]
pub fn count(w: &[u8]) -> Option<(u8, u8)>
    ensures { result ≡ count_of w.now }
{
    match cut(w, b'-') {
        None => {
            let n = men(w)?;
            Some((n, n))
        }
        Some((least, rest)) => match cut(rest, b'-') {
            None => {
                let least = men(least)?;
                let most = men(rest)?;
                Some((least, most))
            }
            Some(_) => None,
        },
    }
}

/// A count whose first number is at most the second.
pub fn range(w: &[u8]) -> Option<(u8, u8)>
    ensures { result ≡ range_of w.now }
{
    let (least, most) = count(w)?;
    if least <= most {
        Some((least, most))
    } else {
        None
    }
}

/// The square of a word of two bytes, as `e4`.
pub fn square(w: &[u8]) -> Option<Square>
    ensures { result ≡ square_word w.now }
{
    let number = read_square(w)?;
    Some(Square::at(number))
}

/// A kind and its squares, with a colon between them.
#[tactic(auto, using(crate::proofs::Parts::place_many))]
pub fn place(w: &[u8]) -> Option<(Kind, SquareSet)>
    ensures { result ≡ place_of w.now }
{
    match cut(w, b':') {
        None => None,
        Some((k, rest)) => match cut(rest, b':') {
            None => {
                let kind = kind(k)?;
                let set = read_squares(rest)?;
                Some((kind, set))
            }
            Some(_) => None,
        },
    }
}
