//! Moves from configuration to configuration: where a step leads on a board without kings, at all
//! pairs of kings' squares at once.
#![tactic(auto)]

mod binding;
mod crowning;
mod freely;
mod inner;
mod inside;
pub mod laws;
mod leading;
mod led;
mod men;
mod taking;
mod target;
#[cfg(test)]
mod tests;
mod touching;

pub use inner::{InnerMoves, inner_moves};
pub use inside::leading_inside;
pub use leading::{leading_pairs, leading_quietly, leading_to};
pub use led::leading_men;
pub use men::{ManArm, men_arms};
pub use taking::{KingArm, king_arms, leading_captures};
pub use target::target_of;
pub use touching::touches;
