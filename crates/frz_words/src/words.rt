//! The words of a line: spaces, tabs and carriage returns separate them.

ghost use Rattle.std.specs.Prelude.{◌≡◌, ◌<◌, ◌≤◌, ◌∷◌, [], not, IsTrue, MatchOption, IfSome, length};
ghost use Rattle.std.specs.List.{position};
ghost use Rattle.std.specs.Str.{bytes_eq};
ghost use Rattle.frz_words.specs.Words.{words, begins_word, is_blank as is_blank_byte};

fn is_blank(b: u8) -> bool
    ensures { result ≡ is_blank_byte b }
{
    matches!(b, b' ' | b'\t' | b'\r')
}

fn word_start(line: &[u8]) -> Option<usize>
    ensures { result ≡ position (λ b. not (is_blank_byte b)) line.now }
{
    line.iter().position(|b| !is_blank(*b))
}

fn word_end(line: &[u8]) -> Option<usize>
    ensures { result ≡ position is_blank_byte line.now }
{
    line.iter().position(|b| is_blank(*b))
}

/// The first word of a line, and what follows the word and one blank. None where there is no word.
#[tactic(auto, using(crate::proofs::Wording::wording))]
pub fn next_word(line: &[u8]) -> Option<(&[u8], &[u8])>
    ensures word { MatchOption result (words line.now ≡ [])
        (λ r. words line.now ≡ r.0.now ∷ words r.1.now) }
    ensures shorter { IfSome result (λ r. length r.1.now < length line.now) }
{
    match word_start(line) {
        None => None,
        Some(start) => Some(first_word(&line[start..])),
    }
}

/// The word that a line begins with, and what follows the word and one blank.
#[tactic(auto, using(crate::proofs::Wording::wording))]
fn first_word(line: &[u8]) -> (&[u8], &[u8])
    requires { IsTrue (begins_word line.now) }
    ensures word { words line.now ≡ result.0.now ∷ words result.1.now }
    ensures shorter { length result.1.now < length line.now }
{
    match word_end(line) {
        None => (line, &[]),
        Some(end) => (&line[..end], &line[end + 1..]),
    }
}

/// How many words a line has.
pub fn count_words(line: &[u8]) -> usize
    ensures words { result ≡ length (words line.now) }
    ensures short { result ≤ length line.now }
{
    let mut rest = line;
    let mut count = 0;
    while let Some((_, after)) = next_word(rest) {
        rest = after;
        count += 1;
    }
    count
}

/// Is the word equal to this text?
pub fn is_word(w: &[u8], text: &[u8]) -> bool
    ensures { result ≡ bytes_eq w.now text.now }
{
    w == text
}
