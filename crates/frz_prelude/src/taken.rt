//! The words after a command's name, where their number is right, and the position of a FEN.
ghost use Rattle.std.specs.Prelude.{◌≡◌, map, Ok, Err, IfOk, MatchResult};
ghost use Rattle.std.specs.String.{string_bytes};
ghost use Rattle.frz_answer.specs.Words.{one_word_of, two_words_of, three_words_of};
ghost use Rattle.frz_fide.specs.Valid.{IsValid};
ghost use Rattle.frz_prelude.specs.Taken.{counted, position_of};

use crate::refused::Refused;
use frz_answer::{Refusal, one_word, three_words, two_words};
use frz_board::Position;
use frz_fen::read_fen;

/// The word after the command's name. Any other number of words is refused.
pub fn take_one(words: &[String]) -> Result<&str, Refused>
    ensures { MatchResult result
        (λ word. counted (one_word_of (map string_bytes words.now)) ≡ Ok word.now)
        (λ why. counted (one_word_of (map string_bytes words.now)) ≡ Err why) }
{
    match one_word(words) {
        Some(word) => Ok(word),
        None => Err(Refused::Words(Refusal::Count)),
    }
}

/// The two words after the command's name. Any other number of words is refused.
pub fn take_two(words: &[String]) -> Result<(&str, &str), Refused>
    ensures { MatchResult result
        (λ both. counted (two_words_of (map string_bytes words.now))
        ≡ Ok (both.0.now, both.1.now))
        (λ why. counted (two_words_of (map string_bytes words.now)) ≡ Err why) }
{
    match two_words(words) {
        Some(both) => Ok(both),
        None => Err(Refused::Words(Refusal::Count)),
    }
}

/// The three words after the command's name. Any other number of words is refused.
pub fn take_three(words: &[String]) -> Result<(&str, &str, &str), Refused>
    ensures { MatchResult result
        (λ all. counted (three_words_of (map string_bytes words.now))
        ≡ Ok (all.0.now, all.1.now, all.2.now))
        (λ why. counted (three_words_of (map string_bytes words.now)) ≡ Err why) }
{
    match three_words(words) {
        Some(all) => Ok(all),
        None => Err(Refused::Words(Refusal::Count)),
    }
}

/// The position of a FEN, or the refusal with the FEN's first fault.
pub fn take_position(fen: &str) -> Result<Position, Refused>
    ensures found { MatchResult result (λ p. position_of fen.now ≡ Ok p)
        (λ why. position_of fen.now ≡ Err why) }
    ensures valid { IfOk result IsValid }
{
    match read_fen(fen.as_bytes()) {
        Ok(p) => Ok(p),
        Err(fault) => Err(Refused::Fen(fault)),
    }
}
