//! A small ending that several crates test with.

/// The rules text of a king and a rook against a king in the corner. Its set has 8 numbers, of
/// which 2 and 3 are broken.
pub const TEXT: &str = "freezer 1
group white 1 K:b6
group white 1 R:h1,h8
group black 1 K:a8,b8
";

/// The codes of the table of `TEXT`: White's eight, then Black's.
pub const CODES: [u32; 16] = [4, 4, 0, 0, 6, 5, 2, 2, 5, 5, 0, 0, 7, 7, 3, 3];

/// Black is to move, its king in the corner, and White mates with its next move.
pub const CORNER: &str = "k7/8/1K6/8/8/8/8/7R b - - 0 1";

/// Black is to move, its king next to the corner, and can leave the set.
pub const NEXT_TO_IT: &str = "1k6/8/1K6/8/8/8/8/7R b - - 0 1";

/// The black king is on c8, which is no square of the set.
pub const OUTSIDE: &str = "2k5/8/1K6/8/8/8/8/7R b - - 0 1";
