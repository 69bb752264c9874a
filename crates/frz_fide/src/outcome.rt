//! How a game stands for the side to move.

/// How a game stands for the side to move.
#[derive(Clone, Copy, PartialEq, Eq)]
pub enum Ending {
    /// No legal move, and the king is attacked (FIDE 5.1.1).
    Mate,
    /// No legal move, and the king is not attacked (FIDE 5.2.1).
    Stalemate,
    /// There is a legal move.
    Going,
}
