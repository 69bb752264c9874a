//! The lines of a text.

ghost use Rattle.std.specs.Prelude.{◌≡◌, ◌<◌, ◌≤◌, ◌^◌, ◌+◌, ◌∷◌, ℕ, List, [], MatchOption, IfSome, length, option_map};
ghost use Rattle.std.specs.List.{AllByRecursion};
ghost use Rattle.frz_words.specs.Lines.{lines, numbered};
ghost use Rattle.frz_words.specs.Words.{words, word_at};

use crate::parts::cut;
use crate::words::{count_words, next_word};
use std::marker::Model;

/// A line of a text without its line feed, and its number; the first line has number 1.
#[derive(Clone, Copy, Drop)]
pub struct Line<'a> {
    pub number: u32,
    pub text: &'a [u8],
}

impl<'a> Line<'a> {
    /// How many words the line has.
    pub fn count(&self) -> u32
        requires { length self.now.text.now < 2 ^ 32 }
        ensures { result ≡ length (words self.now.text.now) }
    {
        count_words(self.text) as u32
    }

    /// The k-th word of the line, counted from 1, as a slice of the text. None where there is no
    /// such word, and for k = 0.
    #[tactic(auto, using(crate::proofs::Wording::word_at_zero))]
    pub fn word(&self, k: u32) -> Option<&'a [u8]>
        requires { length self.now.text.now < 2 ^ 32 }
        ensures { option_map (λ w. w.now) result ≡ word_at (words self.now.text.now) k }
    {
        let mut rest = self.text;
        let mut left = k;
        while left > 0 {
            let (word, after) = next_word(rest)?;
            if left == 1 {
                return Some(word);
            }
            rest = after;
            left -= 1;
        }
        None
    }
}

/// The lines of a text that are still to be read. Contracts see the list of their numbers and
/// texts.
#[derive(Drop)]
pub struct Lines<'a> {
    rest: &'a [u8],
    number: u32,
}

impl<'a> Model for Lines<'a> {
    ghost Value = { List (ℕ × List ℕ) };

    ghost view = { λ l. numbered (l.number + 1) (lines l.rest.now) };

    ghost invariant = { λ l. l.number + length l.rest.now < 2 ^ 32 };
}

impl<'a> Lines<'a> {
    /// The lines of a text of fewer than 2^32 bytes, from the first one on.
    #[tactic(auto, using(crate::proofs::Lining::lines_short))]
    pub fn new(text: &'a [u8]) -> Lines<'a>
        requires { length text.now < 2 ^ 32 }
        ensures lines { result ≡ numbered 1 (lines text.now) }
        ensures short { AllByRecursion (λ l. length l.1 ≤ length text.now) result }
    {
        Lines {
            rest: text,
            number: 0,
        }
    }

    /// The next line. None after the last.
    #[tactic(auto, using(crate::proofs::Lining::lining))]
    pub fn next(&mut self) -> Option<Line<'a>>
        ensures line { MatchOption result ((self.old ≡ []) × (self.new ≡ []))
            (λ l. self.old ≡ (l.number, l.text.now) ∷ self.new) }
        ensures short { IfSome result (λ l. length l.text.now < 2 ^ 32) }
    {
        if self.rest.is_empty() {
            return None;
        }
        let (text, rest) = first_line(self.rest);
        self.rest = rest;
        self.number += 1;
        Some(Line {
            number: self.number,
            text,
        })
    }
}

/// The first line of a text, and what follows its line feed.
#[tactic(auto, using(crate::proofs::Lining::lining))]
fn first_line(text: &[u8]) -> (&[u8], &[u8])
    requires { 0 < length text.now }
    ensures lines { lines text.now ≡ result.0.now ∷ lines result.1.now }
    ensures shorter { length result.1.now < length text.now }
    ensures short { length result.0.now ≤ length text.now }
{
    match cut(text, b'\n') {
        None => (text, &[]),
        Some(line) => line,
    }
}
