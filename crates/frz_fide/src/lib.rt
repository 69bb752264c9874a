//! Attack, validity, legal moves and play by the FIDE Laws of Chess, articles 1 to 5.
#![tactic(auto)]

mod aftermath;
mod attack;
mod exposing;
mod finish;
pub mod laws;
mod moves;
mod outcome;
mod playing;
mod validity;
mod ways;

pub use aftermath::beside;
pub use attack::{attacked, in_check};
pub use finish::ending;
pub use frz_bits::{
    Bitboards, both, changed, contains, next_square, replaced, with_square, without,
};
pub use moves::{MoveList, legal_moves, put_legal_moves};
pub use outcome::Ending;
pub use playing::{after, leads, play};
pub use validity::{Invalid, valid, valid_boards};
