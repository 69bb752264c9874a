//! The numbers of the exit lines of a rules text.
ghost use Rattle.std.specs.Prelude.{◌≡◌, ◌<◌, ◌^◌, length, IfOk};
ghost use Rattle.frz_words.specs.Words.{words};
ghost use Rattle.frz_exit_lines.specs.Numbers.{begins_exit, exit_numbers_of};

use frz_words::{Lines, is_word, next_word};
use std::alloc::{AllocError, Global};

/// Is the first word of the line `exit`?
fn is_exit_line(line: &[u8]) -> bool
    ensures { result ≡ begins_exit (words line.now) }
{
    match next_word(line) {
        None => false,
        Some((word, _)) => is_word(word, b"exit"),
    }
}

/// The numbers of the exit lines of a rules text, in order; the first line of a text has number 1.
/// The text need not be an accepted one: every line counts whose first word is `exit`.
#[tactic(auto, using(crate::proofs::Numbering::numbering), unfolding(crate::specs::Numbers::exit_numbers_of))]
pub fn exit_line_numbers(alloc: Global, text: &[u8]) -> Result<Vec<u32>, AllocError>
    requires { length text.now < 2 ^ 32 }
    ensures { IfOk result (λ numbers. numbers.items ≡ exit_numbers_of text.now) }
{
    let mut numbers = Vec::new(alloc);
    let mut lines = Lines::new(text);
    while let Some(line) = lines.next() {
        if is_exit_line(line.text) {
            numbers.push(line.number)?;
        }
    }
    Ok(numbers)
}
