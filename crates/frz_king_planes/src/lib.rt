//! Boards without kings as planes: the pairs of squares on which a king is attacked, and those on
//! which the kings make a valid position.
#![tactic(auto)]

mod attack;
mod kings;
pub mod laws;
mod room;
#[cfg(test)]
mod tests;
mod turning;
mod valid;

pub use attack::attacked;
pub use kings::with_kings;
pub use turning::{column, turned};
pub use valid::valid_pairs;
