//! Rules texts.

/// Four pawns a side that block each other.
pub use test_tables::blocked::TEXT as BLOCKED;

/// A rook on h1 or h8 and a king on b6 against a king on a8 or b8. A number is 4 where Black is to
/// move, plus 2 for a rook on h8, plus 1 for a king on b8.
pub use test_tables::rook::TEXT as ROOK;

/// The rook and king, where White mates at once when the black king leaves to c8.
pub const WIN: &str = "freezer 1
group white 1 K:b6
group white 1 R:h1,h8
group black 1 K:a8,b8
exit white wins if on:black:K:c8
";

/// The same, where White mates within 7 plies.
pub const LONG_WIN: &str = "freezer 1
group white 1 K:b6
group white 1 R:h1,h8
group black 1 K:a8,b8
exit white wins 7 if on:black:K:c8
";

/// The rook reaches neither h1 nor h8.
pub const SHORT_ROOK: &str = "freezer 1
group white 1 K:b6
group white 1 R:c1,c2
group black 1 K:a8,b8
";

/// The rook and king: White has moves and none is allowed.
pub const FORBIDDEN: &str = "freezer 1
group white 1 K:b6
group white 1 R:h1,h8
group black 1 K:a8,b8
forbid white K from all to all
forbid white R from all to all
";

/// No rook, one or two on h1 and h8.
pub const ROOKS: &str = "freezer 1
group white 1 K:b6
group white 0-2 R:h1,h8
group black 1 K:a8,b8
";

/// Each move out of the set draws.
pub const DRAWN_KINGS: &str = "freezer 1
group white 1 K:a1,b1
group black 1 K:g8,h8
exit draw if always
";

/// Black to move is stalemated.
pub const STALEMATE: &str = "freezer 1
group white 1 K:b6
group white 1 Q:c7
group black 1 K:a8
";

/// A pawn on e5 or d6, and a black one that may have passed d6.
pub const TARGET: &str = "freezer 1
group white 1 K:a1
group black 1 K:h8
group white 1 P:e5,d6
group black 0-1 P:d5
";

/// Two white groups with rooks.
pub const TWO_GROUPS: &str = "freezer 1
group white 1 R:a1-d1
group white 0-1 R:e1-h1 Q:e1-h1
group white 1 K:a3,b3
group black 1 K:a6,b6
";

/// Up to two knights.
pub const KNIGHTS: &str = "freezer 1
group white 1 K:a1-c3
group black 1 K:a8,h8
group white 0-2 N:b1,g1,f3,c3
";

/// Groups of several kinds.
pub const MIXED: &str = "freezer 1
group white 1-3 Q:d1 R:a1,h1 B:c1,f1
group white 1 K:e1,g1
group black 1 K:e8,c8
group black 0-2 N:b8,g8 P:e7,d7
";

/// Targets for both sides.
pub const BOTH_TARGETS: &str = "freezer 1
group white 1 K:a1,h1
group black 1 K:a8,h8
group white 1-3 P:e4,c5,d5,e5
group black 0-2 P:d4,f4,d5,e5
";

/// Kings that may stand on one square.
pub const CROWD: &str = "freezer 1
group white 1 K:a1-d4
group black 1 K:a1-d4
group white 0-1 Q:b2,c3
";

/// A black group first.
pub const BLACK_FIRST: &str = "freezer 1
group black 1 K:g7,h8
group white 2 R:a1,a2,b1 B:c1
group white 1 K:e1,f2
group black 0-2 P:a5,b5,c5,h4
group white 1-2 P:b5,d5,g4
";

/// Up to three knights.
pub const THREE: &str = "freezer 1
group white 1-3 N:a1-c2
group white 1 K:d4,e4
group black 1 K:h7,h8
";

/// A pawn of each side anywhere on six columns.
pub const PAWNS: &str = "freezer 1
group white 1 K:h1
group black 1 K:h8
group white 0-1 P:a2-c7
group black 0-1 P:a2-c7
";

/// A pawn may become any of four men, and capture on its last rank.
pub const PROMOTING: &str = "freezer 1
group white 1 K:a1,b1
group black 1 K:h6,h7
group white 1 P:d6,d7,e7 Q:d8,e8 R:d8,e8 B:d8,e8 N:d8,e8
group black 0-1 R:e8,d8
";

/// A rook anywhere: it may be captured, and a king may leave its squares.
pub const EXITS: &str = "freezer 1
group white 1 K:a4-d8
group white 1 R:all
group black 1 K:a7-c8
exit draw if count:white:R:0
exit white wins 7 if on:black:K:d8 turn:white
exit black holds if !check distance:black:d5:0-2
";

/// A queen on the d-file or a rook on e1, and none, one or both of two knights.
pub const KINDS: &str = "freezer 1
group white 1 K:a1
group white 1 Q:d1-d8 R:e1
group white 0-2 N:b1,g1
group black 1 K:h8
";

/// Two kinds in one group, and a pawn of each side.
pub const NUMBERING: &str = "freezer 1
group white 1 K:e1,g1
group black 1 K:e8
group white 1-2 R:a1,h1 B:c1
group black 0-1 P:d4
group white 1 P:e4
";
