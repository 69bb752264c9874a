//! Moves on boards without kings, at all pairs of kings' squares at once.
#![tactic(auto)]

mod aftermath;
mod kings;
pub mod laws;
mod men;
mod steps;
#[cfg(test)]
mod tests;
mod way;

pub use aftermath::after;
pub use kings::{arriving_pairs, stepping_pairs};
pub use men::{legal_pairs, safe_pairs};
pub use steps::{can_go, next_step, step_at};
pub use way::way_of;
