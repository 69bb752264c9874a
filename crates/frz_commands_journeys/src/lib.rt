//! The commands of the program `atlas` that play by a table over several others: `line` and `play`.
#![tactic(auto)]

mod ending;
mod journey;
pub mod laws;
mod line;
mod play;

pub use line::run_line;
pub use play::run_play;
