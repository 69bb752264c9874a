//! Planes, and single pairs and rows of them.

ghost use Rattle.std.specs.Prelude.{ℕ, ◌≡◌, ◌<◌, ◌==◌, ◌&&◌, ◌||◌, not, true, false, if◌then◌else◌};
ghost use Rattle.frz_squares.specs.SquareSets.{has_square};
ghost use Rattle.frz_planes.specs.Planes.{has_pair, IsPlaneOf};

use std::marker::Model;

/// A set of pairs of squares: the place of a white king and that of a black one. Contracts see it
/// as the list of its rows. Row a, a word of 64 bits, has the squares of the black king where the
/// white one stands on square a. Squares are numbered from 0, a1, along the ranks to 63, h8.
#[derive(Clone, Copy, Debug, PartialEq, Eq)]
pub struct Plane(pub [u64; 64]);

impl Model for Plane {
    ghost use Rattle.std.specs.Prelude.{ℕ, List};

    ghost Value = { List ℕ };

    ghost view = { λ plane. plane.0 };

    ghost inverse = { λ rows. record { 0 = rows } };
}

/// The squares of the black king, where the white one on square `i` is among the white squares.
pub(crate) fn row_for(white: u64, black: u64, i: usize) -> u64
    requires { i < 64 }
    ensures { result ≡ (if has_square white i then black else 0) }
{
    if (white >> i) & 1 == 1 { black } else { 0 }
}

impl Plane {
    /// The plane without a pair.
    pub fn empty() -> Plane
        ensures { IsPlaneOf result (λ a b. false) }
    {
        Plane([0; 64])
    }

    /// The plane of all pairs.
    pub fn full() -> Plane
        ensures { IsPlaneOf result (λ a b. true) }
    {
        Plane([u64::MAX; 64])
    }

    /// The pairs whose white king stands on a square of the one word, and whose black king stands
    /// on a square of the other.
    pub fn product(white: u64, black: u64) -> Plane
        ensures { IsPlaneOf result (λ a b. has_square white a && has_square black b) }
    {
        let mut rows = [0; 64];
        for (i, row) in rows.iter_mut().enumerate() {
            *row = row_for(white, black, i);
        }
        Plane(rows)
    }

    /// The squares of the black king beside a white one on `a`.
    pub fn row(&self, a: u8) -> u64
        requires { a < 64 }
        ensures { (b : ℕ) → b < 64 → has_square result b ≡ has_pair self.now a b }
    {
        self.0[a as usize]
    }

    /// Gives the plane these squares of the black king beside a white one on `a`.
    pub fn set_row(&mut self, a: u8, row: u64)
        requires { a < 64 }
        ensures { IsPlaneOf self.new
            (λ x y. if x == a then has_square row y else has_pair self.old x y) }
    {
        self.0[a as usize] = row;
    }

    /// Is the pair in the plane?
    pub fn has(&self, a: u8, b: u8) -> bool
        requires white { a < 64 }
        requires black { b < 64 }
        ensures { result ≡ has_pair self.now a b }
    {
        (self.0[a as usize] >> b) & 1 == 1
    }

    /// Adds a pair.
    pub fn put(&mut self, a: u8, b: u8)
        requires white { a < 64 }
        requires black { b < 64 }
        ensures { IsPlaneOf self.new (λ x y. (x == a && y == b) || has_pair self.old x y) }
    {
        self.0[a as usize] |= 1 << b;
    }

    /// Drops a pair.
    pub fn remove(&mut self, a: u8, b: u8)
        requires white { a < 64 }
        requires black { b < 64 }
        ensures { IsPlaneOf self.new (λ x y. not (x == a && y == b) && has_pair self.old x y) }
    {
        self.0[a as usize] &= !(1 << b);
    }
}
