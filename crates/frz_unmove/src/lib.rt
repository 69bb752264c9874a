//! Moves taken back: the predecessors of a number of a set, with the legal moves that lead to it.
#![tactic(auto)]

mod earlier;
mod gathering;
mod origins;
mod preds;
mod quiet;
mod targets;
mod unmoving;

pub use preds::{Pred, Preds};
pub use unmoving::unmoves;
