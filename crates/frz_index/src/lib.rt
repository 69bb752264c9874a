//! Dense numbers of a set: each position of the set has a number below the set's size, and no two
//! have the same.
//! A state is a kind on a square, and its place is its index among the states of its group. A
//! group's digit is the number of the combination of places at which its men stand.
#![tactic(auto)]

mod across;
mod among;
mod beside;
mod chart;
mod digit;
mod digits;
mod fixed;
pub mod laws;
mod old;
mod placing;
mod plan;
mod quotient;
mod room;
mod set;
mod shares;
mod turn;

pub use across::Turned;
pub use old::{MOST_OLD_NUMBERS, old_number, old_size};
pub use set::Set;
