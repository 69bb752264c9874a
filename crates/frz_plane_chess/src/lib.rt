//! A set of chess positions as a game by planes: each number stands at a pair of the plane of its
//! configuration.
#![tactic(auto)]

mod both;
mod building;
pub mod laws;
mod leaving;
mod moving;
mod plane_chess;
mod row;
mod solving;
#[cfg(test)]
mod tests;
mod winning;

pub use both::BothCodes;
pub use plane_chess::PlaneChess;
pub use row::Row;
pub use solving::solve_planes;
