//! The kinds of positions in a graph.

use frz_board::Colour;

/// What a position or a number stands for, with the side to move.
#[derive(Clone, Copy, Debug, PartialEq, Eq)]
pub enum Node {
    /// No position of the set.
    Broken,
    /// The side to move is mated (FIDE 5.1.1).
    Mate(Colour),
    /// The side to move is stalemated (FIDE 5.2.1).
    Stalemate(Colour),
    /// The side to move has a legal move.
    Going(Colour),
}
