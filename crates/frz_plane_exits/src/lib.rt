//! Steps that leave a set, at all pairs of kings' squares at once, and the values of the positions
//! to which they lead.
#![tactic(auto)]

mod asking;
mod exit_plane;
mod exits;
mod leaving;
mod left;
mod mover;
#[cfg(test)]
mod tests;

pub use exit_plane::ExitPlane;
pub use exits::exits_of;
