//! What can be wrong with a rules text.
use thiserror::Error;

/// How many bytes a rules text has at most.
pub const LONGEST_TEXT: usize = 65_536;

/// What is wrong with a rules text, or with a line of it.
#[derive(Clone, Copy, Debug, PartialEq, Eq)]
pub enum RulesCause {
    /// The text has more than 65,536 bytes.
    TooLong,
    /// The first line that counts is not `freezer 1`, or there is none.
    Header,
    /// The first word is none of `group`, `forbid` and `exit`.
    UnknownLine,
    /// The line has none of the forms. The number is the place, from 1, of the first word with
    /// which no line of a form goes on.
    Word(u32),
    /// The group has a pawn on rank 1 or 8.
    PawnSquare,
    /// The least number of men is above the most, or the most is 0 or above the number of states.
    Count,
    /// A group with kings has other kinds, or not exactly one man, or is the second of its
    /// colour; or a colour has no group with kings.
    KingGroup,
    /// The group shares a state with an earlier one of its colour.
    Overlap,
    /// The most men of each group of the colour so far sum up to more than 16.
    TooManyMen,
    /// The line is the 33rd group, the 65th forbid line or the 129th exit line, or it has a ninth
    /// condition.
    TooManyLines,
    /// The set has more than 134,217,728 numbers. The number is how many, capped at the greatest
    /// number of 64 bits.
    SetTooBig(u64),
}

/// The first bad line of a rules text, from 1, and its first cause. A cause of the whole text has
/// line 0.
#[derive(Clone, Copy, Debug, PartialEq, Eq)]
pub struct RulesFault {
    pub line: u32,
    pub cause: RulesCause,
}

/// Why a rules text gives no rules.
#[derive(Debug, Drop, Error)]
pub enum RulesError {
    #[error("the rules text is refused")]
    Bad(RulesFault),
    #[error("out of memory")]
    NoMemory,
}
