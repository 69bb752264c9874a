//! The ranks as a side sees them: ahead, home, passing and last rank, and the attack of a pawn.

ghost use Rattle.std.specs.Prelude.{◌≡◌, ◌<◌, ◌≤◌, true, IsTrue};
ghost use Rattle.frz_board.specs.Ranks.{is_forward, ahead, is_home, is_passing_rank, is_last};
ghost use Rattle.frz_board.specs.Attacks.{pawn_reaches};

use super::man::Colour;
use super::square::Square;

impl Square {
    /// The square one rank ahead, as the side sees it.
    pub fn ahead(self, c: Colour) -> Square
        requires low { 8 ≤ self }
        requires high { self < 56 }
        ensures { result ≡ ahead c self }
    {
        match c {
            Colour::White => Square::at(self.number() + 8),
            Colour::Black => Square::at(self.number() - 8),
        }
    }

    /// Is the other square `ranks` ranks forward of this one, as the side sees it? Files do not
    /// matter.
    pub fn is_forward(self, c: Colour, ranks: u8, other: Square) -> bool
        requires { ranks < 8 }
        ensures { result ≡ is_forward c ranks self other }
    {
        match c {
            Colour::White => other.rank() == self.rank() + ranks,
            Colour::Black => self.rank() == other.rank() + ranks,
        }
    }

    /// Does a pawn of the side on this square attack the other (FIDE 3.7.3)?
    pub fn is_pawn_attack(self, c: Colour, other: Square) -> bool
        ensures { result ≡ pawn_reaches c self other }
    {
        self.files_apart(other) == 1 && self.is_forward(c, 1, other)
    }

    /// Is the square on the rank where the side's pawns begin (FIDE 2.3)?
    pub fn is_home_rank(self, c: Colour) -> bool
        ensures { result ≡ is_home c self }
    {
        match c {
            Colour::White => self.rank() == 1,
            Colour::Black => self.rank() == 6,
        }
    }

    /// Is the square on the rank that the side's pawns pass over when they advance two squares
    /// (FIDE 3.7.2)? If so, there are squares ahead of it and behind it.
    pub fn is_passing_rank(self, c: Colour) -> bool
        ensures rank { result ≡ is_passing_rank c self }
        ensures low { IsTrue result → 8 ≤ self }
        ensures high { IsTrue result → self < 56 }
    {
        match c {
            Colour::White => self.rank() == 2,
            Colour::Black => self.rank() == 5,
        }
    }

    /// Is the square on the last rank of the side's pawns (FIDE 3.7.3.3)?
    pub fn is_last_rank(self, c: Colour) -> bool
        ensures { result ≡ is_last c self }
    {
        match c {
            Colour::White => self.rank() == 7,
            Colour::Black => self.rank() == 0,
        }
    }
}
