//! Algebraic notation of moves (FIDE appendix C, as PGN exports it): writes and reads it.
#![tactic(auto)]

pub mod laws;
mod origin;
mod reading;
mod sign;
mod text;
mod unsigned;
mod writing;

pub use reading::read_san;
pub use text::San;
pub use writing::{san, san_among};
