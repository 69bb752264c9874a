//! The lines, words, numbers and sets of squares of a rules text; lines and words are its slices.
#![tactic(auto)]

mod lines;
mod numbers;
mod parts;
mod squares;
mod words;

pub use frz_squares::SquareSet;
pub use lines::{Line, Lines};
pub use numbers::read_number;
pub use parts::cut;
pub use squares::{read_square, read_squares};
pub use words::{count_words, is_word, next_word};
