//! Where moves are asked to lead.

use frz_board::Colour;
use frz_planes::Plane;

/// Exits of one worth to a side.
#[derive(Clone, Copy)]
pub enum Exits {
    /// The exits that win for the side within so many plies by their lags.
    Wins(u32),
    /// The exits that are bad for the side.
    Losses,
}

/// A number of these planes, one for each configuration, or an exit of this worth to the side.
#[derive(Clone, Copy)]
pub struct Target<'a> {
    pub planes: &'a [Plane],
    pub side: Colour,
    pub exits: Exits,
}
