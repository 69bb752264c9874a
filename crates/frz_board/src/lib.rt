//! Squares, men, moves and positions of chess, and the texts of moves.
#![tactic(auto)]

mod counts;
pub mod laws;
mod man;
mod memory;
mod passing;
mod position;
mod ranks;
mod shape;
mod square;
mod step;
mod text;

pub use frz_squares::SquareSet;
pub use man::{Colour, Kind, Man, cell_of, man_of};
pub use memory::NoMemory;
pub use passing::target_in_place;
pub use position::Position;
pub use shape::Shape;
pub use square::Square;
pub use step::Move;
pub use text::{move_text, read_move};
