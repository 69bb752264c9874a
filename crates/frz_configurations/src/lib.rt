//! Configurations of a set: where all men but the kings stand, with the turn state. Each number of
//! the set is a configuration with the squares of both kings.
#![tactic(auto)]

mod configurations;
mod joined;
pub mod laws;
mod parts;
mod shares;
#[cfg(test)]
mod tests;

pub use configurations::{Configurations, Split};
pub use shares::Shares;
