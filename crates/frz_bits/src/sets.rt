//! The squares that men attack on an empty board, and the squares between two squares.

ghost use Rattle.std.specs.Prelude.{◌≡◌, ◌*◌, ◌+◌, ◌^◌};
ghost use Rattle.frz_board.specs.Lines.{is_knight_jump, is_king_step, is_rook_line, is_bishop_line, is_between};
ghost use Rattle.frz_board.specs.Attacks.{pawn_reaches};
ghost use Rattle.frz_squares.specs.SquareSets.{set_of};

use super::lines::{BETWEEN_HIGH, BETWEEN_LOW};
use super::pawns::PAWN;
use super::reach::{BISHOP, KING, KNIGHT, ROOK};
use super::shadows::{HIDDEN_HIGH, HIDDEN_LOW};
use frz_board::{Colour, Square};

/// The squares that a knight on `s` attacks.
#[tactic(auto, using(crate::proofs::Tables::knight_at))]
pub fn knight_set(s: Square) -> u64
    ensures { result ≡ set_of (λ b. is_knight_jump s b) }
{
    KNIGHT[s.number() as usize]
}

/// The squares that a king on `s` attacks.
#[tactic(auto, using(crate::proofs::Tables::king_at))]
pub fn king_set(s: Square) -> u64
    ensures { result ≡ set_of (λ b. is_king_step s b) }
{
    KING[s.number() as usize]
}

/// The squares that a pawn of the side on `s` attacks.
#[tactic(auto, using(crate::proofs::Tables::white_pawn_at, crate::proofs::Tables::black_pawn_at))]
pub fn pawn_set(c: Colour, s: Square) -> u64
    ensures { result ≡ set_of (λ b. pawn_reaches c s b) }
{
    match c {
        Colour::White => PAWN[s.number() as usize + 16],
        Colour::Black => PAWN[s.number() as usize],
    }
}

/// The other squares of the same rank or file.
#[tactic(auto, using(crate::proofs::Tables::rook_at))]
pub(crate) fn rook_lines(s: Square) -> u64
    ensures { result ≡ set_of (λ b. is_rook_line s b) }
{
    ROOK[s.number() as usize]
}

/// The other squares of the same diagonals.
#[tactic(auto, using(crate::proofs::Tables::bishop_at))]
pub(crate) fn bishop_lines(s: Square) -> u64
    ensures { result ≡ set_of (λ b. is_bishop_line s b) }
{
    BISHOP[s.number() as usize]
}

fn joined(high: u32, low: u32) -> u64
    ensures { result ≡ high * 2 ^ 32 + low }
{
    u64::from(high) * 0x1_0000_0000 + u64::from(low)
}

/// The squares strictly between two squares of one line, and none where the two share no line.
#[tactic(auto, using(crate::proofs::Tables::between_at))]
pub fn between(a: Square, b: Square) -> u64
    ensures { result ≡ set_of (λ s. is_between a s b) }
{
    let i = 64 * a.number() as usize + b.number() as usize;
    joined(BETWEEN_HIGH[i], BETWEEN_LOW[i])
}

/// The squares that a man on `m` hides from `a`: those behind him on the line from `a` to him, and
/// none where the two share no line.
pub(crate) fn hidden(a: Square, m: Square) -> u64
    ensures { result ≡ set_of (λ b. is_between a m b) }
{
    let i = 64 * a.number() as usize + m.number() as usize;
    joined(HIDDEN_HIGH[i], HIDDEN_LOW[i])
}
