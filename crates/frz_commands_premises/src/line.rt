//! A line of the answer, as what it tells.

use frz_board::Colour;
use frz_premises::{Basis, Strength};

/// A line of the answer.
#[derive(Clone, Copy)]
pub enum Line {
    /// The lines behind it are of the table at this place; the first has place 0.
    Back(usize),
    /// The lines behind it are of RULES.
    Rules,
    /// What the exit line with this number in its text rests on.
    Exit(u32, Basis),
    /// How many exit lines are believed.
    Believed(usize),
    /// What the bounds of a side are in chess.
    Side(Colour, Strength),
}
