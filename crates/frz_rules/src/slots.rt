//! Reads the words of a line in turn, each of the class that its place asks for.
ghost use Rattle.std.specs.Prelude.{map};
ghost use Rattle.frz_words.specs.Words.{words};
ghost use Rattle.frz_words.specs.Squares.{squares_of};
ghost use Rattle.frz_rules.specs.Classes.{colour_of, kind_of, count_of, place_of};
ghost use Rattle.frz_rules.specs.Conditions.{cond_of};
ghost use Rattle.frz_rules.specs.Reading.{Gives, Leaves, slot, literal, one_or_more};

use crate::cond_words::cond;
use crate::stop::{Left, Stop};
use crate::words::{colour, count, kind, place};
use frz_board::{Colour, Kind};
use frz_sets::Cond;
use frz_words::{SquareSet, is_word, next_word, read_squares};
use std::alloc::Global;

/// The colour that the line begins with, and what follows it; else the whole line.
pub fn colour_at(line: &[u8]) -> Result<(Colour, &[u8]), Left<'_>>
    ensures { Leaves (λ x. (x.0, words x.1.now)) result (slot colour_of (words line.now)) }
{
    let (w, rest) = next_word(line).ok_or(Left(line))?;
    let colour = colour(w).ok_or(Left(line))?;
    Ok((colour, rest))
}

/// The kind that the line begins with, and what follows it; else the whole line.
pub fn kind_at(line: &[u8]) -> Result<(Kind, &[u8]), Left<'_>>
    ensures { Leaves (λ x. (x.0, words x.1.now)) result (slot kind_of (words line.now)) }
{
    let (w, rest) = next_word(line).ok_or(Left(line))?;
    let kind = kind(w).ok_or(Left(line))?;
    Ok((kind, rest))
}

/// The count that the line begins with, and what follows it; else the whole line.
pub fn count_at(line: &[u8]) -> Result<((u8, u8), &[u8]), Left<'_>>
    ensures { Leaves (λ x. (x.0, words x.1.now)) result (slot count_of (words line.now)) }
{
    let (w, rest) = next_word(line).ok_or(Left(line))?;
    let count = count(w).ok_or(Left(line))?;
    Ok((count, rest))
}

/// The squares that the line begins with, and what follows them; else the whole line.
pub fn squares_at(line: &[u8]) -> Result<(SquareSet, &[u8]), Left<'_>>
    ensures { Leaves (λ x. (x.0, words x.1.now)) result (slot squares_of (words line.now)) }
{
    let (w, rest) = next_word(line).ok_or(Left(line))?;
    let set = read_squares(w).ok_or(Left(line))?;
    Ok((set, rest))
}

/// What follows this very word at the front of the line; else the whole line.
pub fn literal_at<'a>(text: &[u8], line: &'a [u8]) -> Result<&'a [u8], Left<'a>>
    ensures { Leaves (λ x. words x.now) result (literal text.now (words line.now)) }
{
    match next_word(line) {
        Some((w, rest)) if is_word(w, text) => Ok(rest),
        _ => Err(Left(line)),
    }
}

/// One place or more, each a kind and its squares, to the end of the line.
#[tactic(auto, using(crate::proofs::Many::manying))]
pub fn places_at(alloc: Global, line: &[u8]) -> Result<Vec<(Kind, SquareSet)>, Stop<'_>>
    ensures { Gives (λ v. v.items) result
        (one_or_more place_of (words line.now)) }
{
    let mut found = Vec::new(alloc);
    let mut rest = line;
    while let Some((w, after)) = next_word(rest) {
        found.push(place(w).ok_or(Stop::At(rest))?)?;
        rest = after;
    }
    if found.is_empty() {
        return Err(Stop::At(rest));
    }
    Ok(found)
}

/// One condition or more, to the end of the line.
#[tactic(auto, using(crate::proofs::Many::manying))]
pub fn conds_at(alloc: Global, line: &[u8]) -> Result<Vec<Cond>, Stop<'_>>
    ensures { Gives (λ v. v.items) result (one_or_more cond_of (words line.now)) }
{
    let mut found = Vec::new(alloc);
    let mut rest = line;
    while let Some((w, after)) = next_word(rest) {
        found.push(cond(w).ok_or(Stop::At(rest))?)?;
        rest = after;
    }
    if found.is_empty() {
        return Err(Stop::At(rest));
    }
    Ok(found)
}
