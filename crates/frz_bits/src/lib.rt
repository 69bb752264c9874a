//! Sets of squares as words of 64 bits: bit s of a word stands for square s, from 0 for a1 to 63
//! for h8.
#![tactic(auto)]

mod bitboards;
mod lanes;
mod lines;
mod pawns;
mod rays;
mod reach;
mod sets;
mod shadows;
mod shape;
mod ways;
mod word;

pub use bitboards::{Bitboards, attackers, changed};
pub use rays::{bishop_rays, rook_rays};
pub use sets::{between, king_set, knight_set, pawn_set};
pub use ways::move_set;
pub use word::{both, contains, next_square, replaced, with_square, without};
