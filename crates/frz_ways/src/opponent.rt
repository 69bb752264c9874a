//! Who plays a way: a side that goes by its codes, and who finds its opponent's plies.

use frz_board::Colour;

/// Who finds the plies of the opponent.
#[derive(Clone, Copy)]
pub enum Opponent {
    /// In a line: the codes of the side. A line from a hold is cut after `LINE_LIMIT` plies.
    Codes,
    /// In a session: the lines of an input.
    Input,
}

/// A side that plays by its codes, and its opponent.
#[derive(Clone, Copy)]
pub struct Player {
    pub side: Colour,
    pub opponent: Opponent,
}
