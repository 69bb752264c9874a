//! A forbid line: moves that a side renounces.
use frz_board::{Colour, Kind, SquareSet};

/// Which moves of its man between its squares a forbid line covers.
#[derive(Clone, Copy, PartialEq, Eq)]
pub enum Only {
    Any,
    /// Captures, en passant too.
    Capture,
    Promotion,
}

/// A forbid line: the colour renounces the moves of its men of this kind from a square of `from` to
/// a square of `to`, all of them or those that `only` names.
#[derive(Clone, Copy, PartialEq, Eq)]
pub struct Forbid {
    pub colour: Colour,
    pub kind: Kind,
    pub from: SquareSet,
    pub to: SquareSet,
    pub only: Only,
}
