//! Boards of configurations: all men of a position but the kings, and the pairs on which kings make
//! positions of the set.
#![tactic(auto)]

mod finding;
pub mod laws;
mod living;

pub use finding::{board_of, known_pairs};
pub use living::live_pairs;
