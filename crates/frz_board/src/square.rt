//! Squares, and how two of them lie to each other.

ghost use Rattle.std.specs.Prelude.{◌≡◌, ◌<◌, ℕ, ◌↔◌, IsSome, IfSome};
ghost use Rattle.frz_board.specs.Squares.{file_of, rank_of, files_apart, ranks_apart, distance, is_beside};

use std::marker::Model;

/// A square, which contracts see as its number: 0 is a1, 1 is b1, 7 is h1, 63 is h8. Squares are
/// ordered as their numbers.
#[derive(Clone, Copy, Debug, PartialEq, Eq, PartialOrd, Ord)]
pub struct Square(u8);

impl Model for Square {
    ghost Value = { ℕ };

    ghost view = { λ s. s.0 };

    ghost invariant = { λ s. s.0 < 64 };

    ghost inverse = { λ n. record { 0 = n } };
}

impl Square {
    /// The square of a number, and `None` exactly for a number above 63.
    pub fn new(n: u8) -> Option<Square>
        ensures there { IsSome result ↔ (n < 64) }
        ensures same { IfSome result (λ s. s ≡ n) }
    {
        if n < 64 { Some(Square(n)) } else { None }
    }

    /// The square of a number below 64.
    pub fn at(n: u8) -> Square
        requires { n < 64 }
        ensures { result ≡ n }
    {
        Square(n)
    }

    /// The number, from 0 to 63.
    pub fn number(self) -> u8
        ensures number { result ≡ self }
        ensures on_board { result < 64 }
    {
        self.0
    }

    /// The file, from 0 for a to 7 for h.
    pub fn file(self) -> u8
        ensures file { result ≡ file_of self }
        ensures below { result < 8 }
    {
        frz_squares::file(self.0)
    }

    /// The rank, from 0 for rank 1 to 7 for rank 8.
    pub fn rank(self) -> u8
        ensures rank { result ≡ rank_of self }
        ensures below { result < 8 }
    {
        frz_squares::rank(self.0)
    }

    /// How many files the squares are apart: 0 on the same file, 7 from the a-file to the h-file.
    pub fn files_apart(self, other: Square) -> u8
        ensures apart { result ≡ files_apart self other }
        ensures below { result < 8 }
    {
        self.file().abs_diff(other.file())
    }

    /// How many ranks the squares are apart: 0 on the same rank, 7 from rank 1 to rank 8.
    pub fn ranks_apart(self, other: Square) -> u8
        ensures apart { result ≡ ranks_apart self other }
        ensures below { result < 8 }
    {
        self.rank().abs_diff(other.rank())
    }

    /// How many moves a king needs from one square to the other on an empty board: the greater of
    /// the files and the ranks that they are apart.
    pub fn distance(self, other: Square) -> u8
        ensures distance { result ≡ distance self other }
        ensures below { result < 8 }
    {
        self.files_apart(other).max(self.ranks_apart(other))
    }

    /// Do the squares stand side by side on one rank?
    pub fn is_beside(self, other: Square) -> bool
        ensures { result ≡ is_beside self other }
    {
        self.ranks_apart(other) == 0 && self.files_apart(other) == 1
    }
}
