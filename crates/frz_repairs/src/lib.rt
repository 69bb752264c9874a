//! What a text lacks where a move leaves its set and nothing values the position behind it.
#![tactic(auto)]

mod repairs;
mod texts;
mod victim;

pub use repairs::write_repairs;
