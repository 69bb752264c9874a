//! A slow solver of the restricted game: forwards, ply by ply, until nothing changes.
#![tactic(auto)]

mod one_side;
mod passes;
mod plies;
mod tables;
mod winning;

pub use tables::sweep;
