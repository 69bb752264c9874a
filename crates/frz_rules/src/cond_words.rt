//! Reads the words of conditions, such as `!check` or `count:white:R:0`.
ghost use Rattle.std.specs.Prelude.{◌≡◌, ◌∷◌, []};
ghost use Rattle.frz_words.specs.Parts.{split};
ghost use Rattle.frz_words.specs.Squares.{square_word, squares_of};
ghost use Rattle.frz_rules.specs.Classes.{colour_of, kind_of, range_of, is_colon};
ghost use Rattle.frz_rules.specs.Conditions.{test_of, cond_of, count_test, on_test, distance_test, with_sign};

use crate::words::{colour, kind, range, square};
use frz_sets::{Cond, Test};
use frz_words::{cut, is_word, read_squares};

fn one_part(t: &[u8]) -> Option<Test>
    ensures { result ≡ test_of (t.now ∷ []) }
{
    if is_word(t, b"check") {
        Some(Test::Check)
    } else if is_word(t, b"always") {
        Some(Test::Always)
    } else {
        None
    }
}

fn two_parts(t: &[u8], c: &[u8]) -> Option<Test>
    ensures { result ≡ test_of (t.now ∷ c.now ∷ []) }
{
    if is_word(t, b"turn") {
        let colour = colour(c)?;
        Some(Test::Turn(colour))
    } else {
        None
    }
}

fn count_parts(c: &[u8], k: &[u8], r: &[u8]) -> Option<Test>
    ensures { result ≡ count_test (colour_of c.now) (kind_of k.now) (range_of r.now) }
{
    let colour = colour(c)?;
    let kind = kind(k)?;
    let (least, most) = range(r)?;
    Some(Test::Count(colour, kind, least, most))
}

fn on_parts(c: &[u8], k: &[u8], s: &[u8]) -> Option<Test>
    ensures { result ≡ on_test (colour_of c.now) (kind_of k.now) (squares_of s.now) }
{
    let colour = colour(c)?;
    let kind = kind(k)?;
    let set = read_squares(s)?;
    Some(Test::On(colour, kind, set))
}

fn distance_parts(c: &[u8], s: &[u8], r: &[u8]) -> Option<Test>
    ensures { result ≡ distance_test (colour_of c.now) (square_word s.now) (range_of r.now) }
{
    let colour = colour(c)?;
    let square = square(s)?;
    let (least, most) = range(r)?;
    Some(Test::Distance(colour, square, least, most))
}

fn four_parts(t: &[u8], c: &[u8], x: &[u8], r: &[u8]) -> Option<Test>
    ensures { result ≡ test_of (t.now ∷ c.now ∷ x.now ∷ r.now ∷ []) }
{
    if is_word(t, b"count") {
        count_parts(c, x, r)
    } else if is_word(t, b"on") {
        on_parts(c, x, r)
    } else if is_word(t, b"distance") {
        distance_parts(c, x, r)
    } else {
        None
    }
}

#[tactic(auto, using(crate::proofs::Parts::test_many))]
fn test(w: &[u8]) -> Option<Test>
    ensures { result ≡ test_of (split is_colon w.now) }
{
    match cut(w, b':') {
        None => one_part(w),
        Some((t, rest)) => match cut(rest, b':') {
            None => two_parts(t, rest),
            Some((c, rest)) => match cut(rest, b':') {
                None => None,
                Some((x, rest)) => match cut(rest, b':') {
                    None => four_parts(t, c, x, rest),
                    Some(_) => None,
                },
            },
        },
    }
}

fn signed(negated: bool, w: &[u8]) -> Option<Cond>
    ensures { result ≡ with_sign negated (test_of (split is_colon w.now)) }
{
    let test = test(w)?;
    Some(Cond { negated, test })
}

/// The condition of a word: a test, with or without `!` in front. `None` for any other word.
pub fn cond(w: &[u8]) -> Option<Cond>
    ensures { result ≡ cond_of w.now }
{
    match w {
        [] => None,
        [b'!', rest @ ..] => signed(true, rest),
        _ => signed(false, w),
    }
}
