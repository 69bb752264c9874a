//! The verdict of a check.

use frz_game::Wrong;

/// What a check says of the codes of both sides.
#[derive(Clone, Copy, PartialEq, Eq)]
pub enum Verdict {
    /// The codes are the tables of both sides.
    Exact,
    /// An entry is not its local code, the code that the codes one ply on give. Given is the first
    /// such entry, by number, and White's before Black's at one number.
    Wrong(Wrong),
}
