//! How a win is denied to a side that holds.

use frz_board::Move;

/// A move, and the reply to it that denies the side a win, if one is named.
#[derive(Clone, Copy, PartialEq, Eq)]
pub struct Denial {
    pub mv: Move,
    pub reply: Option<Move>,
}
