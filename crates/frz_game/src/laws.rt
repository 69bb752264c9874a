//! The laws of the game over numbers, by idea. Each is the
//! contract of a function that does nothing.

pub mod exactness;
pub mod exits;
pub mod meaning;
pub mod men;
pub mod numbers;
pub mod tables;

pub use frz_graph::laws::{filled, within};
