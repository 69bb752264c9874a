//! An entry that a check refuses.

use frz_board::Colour;

/// An entry of a table that is not its local code: the side, the number, the code that the table
/// keeps there (`kept`), and the local code (`given`).
#[derive(Clone, Copy, Debug, PartialEq, Eq)]
pub struct Wrong {
    pub side: Colour,
    pub number: u32,
    pub kept: u32,
    pub given: u64,
}
