//! The move that a line of the input says.
ghost use Rattle.std.specs.Prelude.{◌≡◌, ◌<◌, length, option_map, Some, IfSome};
ghost use Rattle.std.specs.Str.{bytes_eq};
ghost use Rattle.frz_board.specs.Texts.{text_of};
ghost use Rattle.frz_words.specs.Words.{words};
ghost use Rattle.frz_ways.specs.Reading.{only_of, place_by, place_said};

use frz_board::{Move, move_text};
use frz_graph::NextList;
use frz_words::next_word;

/// The word of a line that has just one.
fn only_word(line: &[u8]) -> Option<&[u8]>
    ensures { option_map (λ w. w.now) result ≡ only_of (words line.now) }
{
    let (word, rest) = next_word(line)?;
    match next_word(rest) {
        None => Some(word),
        Some(_) => None,
    }
}

/// Is the word the text of the move?
fn is_text(word: &[u8], m: Move) -> bool
    ensures { result ≡ bytes_eq word.now (text_of m) }
{
    word == move_text(m).as_str().as_bytes()
}

/// The place in the list of the first move whose text is the word.
fn place_in(word: &[u8], list: &NextList) -> Option<usize>
    ensures place { result ≡ place_by list.now.items (Some word.now) }
    ensures within { IfSome result (λ place. place < length list.now.items) }
{
    list.as_slice().iter().position(|arm| is_text(word, arm.mv))
}

/// The place in the list of the move that the line says. None where the line is not one word, or
/// the word is the text of no move in the list.
pub fn place_of(line: &[u8], list: &NextList) -> Option<usize>
    ensures place { result ≡ place_said list.now.items line.now }
    ensures within { IfSome result (λ place. place < length list.now.items) }
{
    match only_word(line) {
        None => None,
        Some(word) => place_in(word, list),
    }
}
