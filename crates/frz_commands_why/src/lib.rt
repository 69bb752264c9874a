//! The command `why TABLE FEN SIDE BACK ..` of tables over several others: why the bound of a side
//! is no better one.
#![tactic(auto)]

mod decider;
pub mod laws;
mod telling;
mod texts;
mod why;

pub use decider::{Decider, Deciding};
pub use why::run_why;
