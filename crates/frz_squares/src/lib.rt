//! The numbers of squares, and sets of squares in 64 bits.
#![tactic(auto)]

mod king;
mod numbers;
mod set;
mod word;

pub use king::king_steps;
pub use numbers::{file, rank};
pub use set::SquareSet;
pub use word::first_from;
