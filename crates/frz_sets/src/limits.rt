//! What sound rules have at most.

/// The most groups of a rules text.
pub const MOST_GROUPS: usize = 32;

/// The most forbid lines of a rules text.
pub const MOST_FORBIDS: usize = 64;

/// The most exit lines of a rules text.
pub const MOST_EXITS: usize = 128;

/// The most conditions of an exit line.
pub const MOST_CONDS: usize = 8;

/// The most men of a side, and of a group.
pub const MOST_MEN: u32 = 16;

/// The most states of a group: 64 squares for each of the six kinds.
pub const MOST_STATES: usize = 384;

/// The most plies that the value of an exit line names.
pub const MOST_LAG: u32 = 1000;

/// The most numbers of a set: 2^27.
pub const MOST_NUMBERS: u32 = 134_217_728;
