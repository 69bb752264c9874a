//! The steps of kings, from all squares of a set at once.

ghost use Rattle.std.specs.Prelude.{◌≡◌};
ghost use Rattle.frz_squares.specs.SquareSets.{has_square, set_of};
ghost use Rattle.frz_squares.specs.Steps.{any_step};

const NOT_FILE_A: u64 = 0xfefe_fefe_fefe_fefe;

const NOT_FILE_H: u64 = 0x7f7f_7f7f_7f7f_7f7f;

/// The squares that a king on some square of the word attacks.
pub fn king_steps(word: u64) -> u64
    ensures { result ≡ set_of (λ s. any_step s (has_square word)) }
{
    let beside = ((word << 1) & NOT_FILE_A) | ((word >> 1) & NOT_FILE_H);
    let row = beside | word;
    beside | (row << 8) | (row >> 8)
}
