//! Which lines of a rules text are its exit lines.
#![tactic(auto)]

pub mod laws;
mod numbers;

pub use numbers::exit_line_numbers;
