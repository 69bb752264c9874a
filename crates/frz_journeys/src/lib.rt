//! Lines and sessions over several tables. A side plays by the codes of a table; where it comes out
//! of the table's set into that of a table behind, it goes on there by that table's codes. So a win
//! is played to the mate.
#![tactic(auto)]

mod journey;
pub mod laws;
mod onward;
mod place;
mod stage;
mod texts;

pub use journey::play_journey;
pub use place::{Arrival, Place};
