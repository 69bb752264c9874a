//! A restricted game as a solver by planes sees it: the numbers of each configuration are the pairs
//! of a plane.
#![tactic(auto)]

mod plane_game;
mod target;

pub use plane_game::PlaneGame;
pub use target::{Exits, Target};
