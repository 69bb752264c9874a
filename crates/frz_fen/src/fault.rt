//! The faults of a FEN text.

use frz_fide::Invalid;

/// Why a text is not an accepted FEN. For a text with several faults it is the first in this order.
#[derive(Clone, Copy, Debug, PartialEq, Eq)]
pub enum FenFault {
    /// There are neither four nor six fields.
    Fields,
    /// The first rank from 8 down whose text is not right or is missing, and 0 where more than
    /// eight texts stand in the placement.
    Placement(u8),
    /// The side to move is neither `w` nor `b`.
    Turn,
    /// The castling rights are not `-`.
    Castling,
    /// The target is neither `-` nor a square of rank 6 with White to move, of rank 3 with Black.
    EpSquare,
    /// The halfmove clock or the fullmove number is not one to four digits.
    Clock,
    /// The position is not valid.
    Invalid(Invalid),
}
