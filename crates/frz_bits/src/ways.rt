//! The squares to which a man may go on some board.

ghost use Rattle.std.specs.Prelude.{◌≡◌, ◌||◌};
ghost use Rattle.frz_board.specs.Lines.{is_rook_line, is_bishop_line};
ghost use Rattle.frz_squares.specs.SquareSets.{set_of};
ghost use Rattle.frz_bits.specs.Reaching.{is_in_reach};
ghost use Rattle.frz_bits.specs.Ways.{is_pawn_way, may_go};

use super::pawns::{BLACK_PAWN_WAYS, WHITE_PAWN_WAYS};
use super::sets::{bishop_lines, king_set, knight_set, rook_lines};
use frz_board::{Colour, Kind, Man, Square};

#[tactic(auto, using(crate::proofs::Tables::white_pawn_way_at, crate::proofs::Tables::black_pawn_way_at))]
fn pawn_ways(c: Colour, s: Square) -> u64
    ensures { result ≡ set_of (λ b. is_pawn_way c s b) }
{
    match c {
        Colour::White => WHITE_PAWN_WAYS[s.number() as usize],
        Colour::Black => BLACK_PAWN_WAYS[s.number() as usize],
    }
}

pub(crate) fn queen_lines(s: Square) -> u64
    ensures { result ≡ set_of (λ b. is_rook_line s b || is_bishop_line s b) }
{
    rook_lines(s) | bishop_lines(s)
}

/// The squares on a line with this one, or a knight's jump away: no man attacks it from elsewhere.
pub(crate) fn reaching_set(s: Square) -> u64
    ensures { result ≡ set_of (λ a. is_in_reach s a) }
{
    queen_lines(s) | knight_set(s)
}

/// The squares to which the man may go from `s` on some board: those of its lines, steps or jumps,
/// and for a pawn those that it advances to or captures on.
pub fn move_set(man: Man, s: Square) -> u64
    ensures { result ≡ set_of (λ b. may_go man.colour man.kind s b) }
{
    match man.kind {
        Kind::King => king_set(s),
        Kind::Queen => queen_lines(s),
        Kind::Rook => rook_lines(s),
        Kind::Bishop => bishop_lines(s),
        Kind::Knight => knight_set(s),
        Kind::Pawn => pawn_ways(man.colour, s),
    }
}
