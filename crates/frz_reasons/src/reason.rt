//! Why a side has no bound.

use frz_board::Move;
use frz_game::Wrong;
use frz_sets::Value;

/// What stands at the end of the way on which a side fails.
#[derive(Clone, Copy, PartialEq, Eq)]
pub enum Reason {
    /// A kept code is not the local one.
    Wrong(Wrong),
    /// The side is mated.
    Mated,
    /// The side is to move, and renounces all its legal moves.
    Renounced,
    /// From this number, by this move, the game leaves the set, to a position of this value, which
    /// is a loss of the side or does not say that it holds.
    Left(u32, Move, Value),
}
