//! FEN, the text of a position (PGN specification, section 16.1), read and written.
#![tactic(auto)]

mod fault;
mod fields;
pub mod laws;
mod placement;
mod reading;
mod writing;

pub use fault::FenFault;
pub use reading::read_fen;
pub use writing::{cell_letter, write_fen};
