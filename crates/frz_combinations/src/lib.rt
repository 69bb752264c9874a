//! Combinations: binomial numbers, and the ranks of combinations in colexicographic order.
#![tactic(auto)]

pub mod laws;
mod pascal;

pub use pascal::{Triangle, binomial};
