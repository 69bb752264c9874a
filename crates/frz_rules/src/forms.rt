//! Reads what follows the first word of a group line, a forbid line and an exit line.
ghost use Rattle.std.specs.Prelude.{◌≡◌, map};
ghost use Rattle.frz_words.specs.Words.{words};
ghost use Rattle.frz_rules.specs.Lines.{wins as wins_of, holds as holds_of, wins_in as wins_in_of};
ghost use Rattle.frz_rules.specs.Reading.{Gives, Leaves, group_words, only_words, forbid_words, then_if, after_wins, after_colour, value_words, exit_words};

use crate::slots::{colour_at, conds_at, count_at, kind_at, literal_at, places_at, squares_at};
use crate::stop::{Left, Stop};
use crate::words::colour;
use frz_board::{Colour, Kind};
use frz_sets::{Cond, Forbid, MOST_LAG, Only, Value};
use frz_words::{SquareSet, is_word, next_word, read_number};
use std::alloc::Global;

/// Reads what follows the word `group`.
#[tactic(auto, unfolding(crate::specs::Reading::group_words))]
pub fn group_parts(
    alloc: Global,
    line: &[u8],
) -> Result<(Colour, (u8, u8), Vec<(Kind, SquareSet)>), Stop<'_>>
    ensures { Gives (λ x. (x.0, x.1, x.2.items)) result
        (group_words (words line.now)) }
{
    let (colour, rest) = colour_at(line)?;
    let (count, rest) = count_at(rest)?;
    let places = places_at(alloc, rest)?;
    Ok((colour, count, places))
}

fn only(line: &[u8]) -> Result<Only, Left<'_>>
    ensures { Leaves (λ x. x) result (only_words (words line.now)) }
{
    let Some((w, rest)) = next_word(line) else {
        return Ok(Only::Any);
    };
    if is_word(w, b"capture") {
        match next_word(rest) {
            None => Ok(Only::Capture),
            Some(_) => Err(Left(rest)),
        }
    } else if is_word(w, b"promotion") {
        match next_word(rest) {
            None => Ok(Only::Promotion),
            Some(_) => Err(Left(rest)),
        }
    } else {
        Err(Left(line))
    }
}

/// Reads what follows the word `forbid`.
#[tactic(auto, unfolding(crate::specs::Reading::forbid_words))]
pub fn forbid_parts(line: &[u8]) -> Result<Forbid, Left<'_>>
    ensures { Leaves (λ x. x) result (forbid_words (words line.now)) }
{
    let (colour, rest) = colour_at(line)?;
    let (kind, rest) = kind_at(rest)?;
    let rest = literal_at(b"from", rest)?;
    let (from, rest) = match squares_at(rest) {
        Ok(slot) => slot,
        Err(stop) => return Err(stop),
    };
    let rest = literal_at(b"to", rest)?;
    let (to, rest) = match squares_at(rest) {
        Ok(slot) => slot,
        Err(stop) => return Err(stop),
    };
    let only = only(rest)?;
    Ok(Forbid {
        colour,
        kind,
        from,
        to,
        only,
    })
}

fn value_if(v: Value, line: &[u8]) -> Result<(Value, &[u8]), Left<'_>>
    ensures { Leaves (λ x. (x.0, words x.1.now)) result (then_if v (words line.now)) }
{
    let rest = literal_at(b"if", line)?;
    Ok((v, rest))
}

fn wins(c: Colour) -> Value
    ensures { result ≡ wins_of c }
{
    match c {
        Colour::White => Value::WhiteWins,
        Colour::Black => Value::BlackWins,
    }
}

fn wins_in(c: Colour, n: u32) -> Value
    ensures { result ≡ wins_in_of c n }
{
    match c {
        Colour::White => Value::WhiteWinsIn(n),
        Colour::Black => Value::BlackWinsIn(n),
    }
}

fn holds(c: Colour) -> Value
    ensures { result ≡ holds_of c }
{
    match c {
        Colour::White => Value::WhiteHolds,
        Colour::Black => Value::BlackHolds,
    }
}

fn wins_at(c: Colour, line: &[u8]) -> Result<(Value, &[u8]), Left<'_>>
    ensures { Leaves (λ x. (x.0, words x.1.now)) result (after_wins c (words line.now)) }
{
    let Some((w, rest)) = next_word(line) else {
        return Err(Left(line));
    };
    if is_word(w, b"if") {
        return Ok((wins(c), rest));
    }
    match read_number(w, MOST_LAG) {
        None => Err(Left(line)),
        Some(n) => value_if(wins_in(c, n), rest),
    }
}

fn verb_at(c: Colour, line: &[u8]) -> Result<(Value, &[u8]), Left<'_>>
    ensures { Leaves (λ x. (x.0, words x.1.now)) result (after_colour c (words line.now)) }
{
    let Some((w, rest)) = next_word(line) else {
        return Err(Left(line));
    };
    if is_word(w, b"wins") {
        wins_at(c, rest)
    } else if is_word(w, b"holds") {
        value_if(holds(c), rest)
    } else {
        Err(Left(line))
    }
}

#[tactic(auto, unfolding(crate::specs::Reading::value_words))]
fn value(line: &[u8]) -> Result<(Value, &[u8]), Left<'_>>
    ensures { Leaves (λ x. (x.0, words x.1.now)) result (value_words (words line.now)) }
{
    let Some((w, rest)) = next_word(line) else {
        return Err(Left(line));
    };
    if is_word(w, b"draw") {
        return value_if(Value::Draw, rest);
    }
    if is_word(w, b"unknown") {
        return value_if(Value::Unknown, rest);
    }
    match colour(w) {
        None => Err(Left(line)),
        Some(c) => verb_at(c, rest),
    }
}

/// Reads what follows the word `exit`.
#[tactic(auto, unfolding(crate::specs::Reading::exit_words))]
pub fn exit_parts(alloc: Global, line: &[u8]) -> Result<(Value, Vec<Cond>), Stop<'_>>
    ensures { Gives (λ x. (x.0, x.1.items)) result (exit_words (words line.now)) }
{
    let (value, rest) = value(line)?;
    let conds = conds_at(alloc, rest)?;
    Ok((value, conds))
}
