//! All of the program `atlas` but the real objects outside: its top call `atlas`, the words of its commands,
//! and the laws on its calls.
#![tactic(auto)]

pub mod laws;
mod once;
pub mod sure;
mod top;
mod verb;

pub use once::run_once;
pub use top::atlas;
