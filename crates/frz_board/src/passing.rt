//! Pawns that have just passed over a square, and the target: the square where such a pawn may be
//! captured en passant.

ghost use Rattle.std.specs.Prelude.{◌≡◌, ◌<◌, ◌≤◌, ◌+◌, ◌-◌, ◌&&◌, nat_lt};
ghost use Rattle.frz_board.specs.Boards.{has};
ghost use Rattle.frz_board.specs.Squares.{file_of};
ghost use Rattle.frz_board.specs.declared.man.Kind.TheVariants.{Pawn};
ghost use Rattle.frz_board.specs.EnPassant.{has_pawn_beside, is_target, has_passed, has_target_in_place};

use super::man::{Colour, Kind};
use super::position::Position;
use super::square::Square;

impl Position {
    /// Does a pawn of this side stand beside the square, on the same rank?
    pub fn has_pawn_beside(&self, c: Colour, s: Square) -> bool
        ensures { result ≡ has_pawn_beside self.now c s }
    {
        has_pawn_before(self, c, s) || has_pawn_after(self, c, s)
    }

    /// Is the square the target of the position?
    pub fn is_target(&self, s: Square) -> bool
        ensures { result ≡ is_target self.now.ep s }
    {
        match self.ep() {
            None => false,
            Some(t) => t == s,
        }
    }

    /// Does the board look as if a pawn of this side has just advanced two squares and passed over
    /// `t`? So it does where `t` is on the rank that such pawns pass over, the pawn stands one rank
    /// ahead of `t`, and `t` and the square behind it are empty.
    pub fn has_passed(&self, c: Colour, t: Square) -> bool
        ensures { result ≡ has_passed self.now c t }
    {
        if !t.is_passing_rank(c) {
            return false;
        }
        (self.cell(t) == 0 && self.cell(t.ahead(c.other())) == 0)
            && self.has(c, Kind::Pawn, t.ahead(c))
    }
}

/// Is the target in place? The opponent's pawn must have passed over it, as `has_passed` tells, and
/// a pawn of the side to move must stand beside that pawn. A position without a target passes.
#[tactic(auto, unfolding(crate::specs::EnPassant::has_target_in_place))]
pub fn target_in_place(p: &Position) -> bool
    ensures { result ≡ has_target_in_place p.now }
{
    match p.ep() {
        None => true,
        Some(t) => {
            let passer = p.turn().other();
            p.has_passed(passer, t) && p.has_pawn_beside(passer.other(), t.ahead(passer))
        }
    }
}

/// Does a pawn of this side stand on the next square towards the a-file?
fn has_pawn_before(p: &Position, c: Colour, s: Square) -> bool
    ensures { result ≡ (nat_lt 0 (file_of s) && has p.now c Pawn (s - 1)) }
{
    s.file() > 0 && p.has(c, Kind::Pawn, Square::at(s.number() - 1))
}

/// Does a pawn of this side stand on the next square towards the h-file?
fn has_pawn_after(p: &Position, c: Colour, s: Square) -> bool
    ensures { result ≡ (nat_lt (file_of s) 7 && has p.now c Pawn (s + 1)) }
{
    s.file() < 7 && p.has(c, Kind::Pawn, Square::at(s.number() + 1))
}
