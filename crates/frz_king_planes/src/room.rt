//! The squares for kings on a board without kings.

ghost use Rattle.std.specs.Prelude.{ℕ, ◌≡◌, ◌<◌};
ghost use Rattle.frz_board.specs.Boards.{is_empty};
ghost use Rattle.frz_squares.specs.SquareSets.{has_square};
ghost use Rattle.frz_king_planes.specs.Room.{is_room};

use frz_bits::{Bitboards, replaced};

/// The empty squares.
pub(crate) fn empty_squares(p: &Bitboards) -> u64
    ensures { (s : ℕ) → s < 64 → has_square result s ≡ is_empty p.now s }
{
    !p.occupied()
}

/// The squares for kings: those that are empty, without the target and the square behind it.
pub(crate) fn room(p: &Bitboards) -> u64
    ensures { (s : ℕ) → s < 64 → has_square result s ≡ is_room p.now s }
{
    let empty = empty_squares(p);
    let turn = p.turn();
    match p.ep() {
        Some(target) if target.is_passing_rank(turn.other()) => {
            replaced(replaced(empty, target, false), target.ahead(turn), false)
        }
        _ => empty,
    }
}
