//! The solver by planes: forwards, ply by ply, all numbers of a configuration at once.
#![tactic(auto)]

mod fill;
mod marked;
mod passes;
mod plies;
mod reach;
mod settle;

pub use passes::solve;
