//! The rows of a plane from which a white king steps along his rank.

const ALL: u64 = u64::MAX;

/// All of a row behind the first file, and nothing on it.
pub const BEHIND_FILE_A: [u64; 64] = [
    0, ALL, ALL, ALL, ALL, ALL, ALL, ALL, 0, ALL, ALL, ALL, ALL, ALL, ALL, ALL, 0, ALL, ALL, ALL,
    ALL, ALL, ALL, ALL, 0, ALL, ALL, ALL, ALL, ALL, ALL, ALL, 0, ALL, ALL, ALL, ALL, ALL, ALL, ALL,
    0, ALL, ALL, ALL, ALL, ALL, ALL, ALL, 0, ALL, ALL, ALL, ALL, ALL, ALL, ALL, 0, ALL, ALL, ALL,
    ALL, ALL, ALL, ALL,
];

/// All of a row before the last file, and nothing on it.
pub const BEFORE_FILE_H: [u64; 64] = [
    ALL, ALL, ALL, ALL, ALL, ALL, ALL, 0, ALL, ALL, ALL, ALL, ALL, ALL, ALL, 0, ALL, ALL, ALL, ALL,
    ALL, ALL, ALL, 0, ALL, ALL, ALL, ALL, ALL, ALL, ALL, 0, ALL, ALL, ALL, ALL, ALL, ALL, ALL, 0,
    ALL, ALL, ALL, ALL, ALL, ALL, ALL, 0, ALL, ALL, ALL, ALL, ALL, ALL, ALL, 0, ALL, ALL, ALL, ALL,
    ALL, ALL, ALL, 0,
];
