//! The commands that play by a table: `line` and `play`.
#![tactic(auto)]

mod ending;
pub mod laws;
mod line;
mod play;
mod side;
mod way;

pub use ending::end_of_session;
pub use line::run_line;
pub use play::run_play;
pub use side::{read_side, refuse_side};
