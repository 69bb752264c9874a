//! What each exit line of a rules text rests on: on nothing, on the men alone, on what tables say,
//! or on the author's word.
#![tactic(auto)]

mod basis;
pub mod laws;
mod men;
mod premises;
mod saying;
mod sides;
mod silent;
mod trial;
mod walk;

pub use basis::{Basis, believed};
pub use premises::premises_of;
pub use saying::{counts_wins, says_as_much};
pub use sides::{ExitValues, Strength, exit_values, strength_of};
