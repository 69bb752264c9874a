//! The commands that need no store: `moves`, `sans` and `move`.
#![tactic(auto)]

mod listing;
mod moving;
mod notation;

pub use listing::{run_moves, run_sans};
pub use moving::make_move;
