//! Planes: sets of pairs of squares, the places of both kings, in 64 words of 64 bits.
#![tactic(auto)]

mod joins;
mod masks;
mod plane;
mod steps;
mod walks;

pub use plane::Plane;
