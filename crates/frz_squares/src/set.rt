//! Sets of squares.

ghost use Rattle.std.specs.Prelude.{◌≡◌, ◌<◌};
ghost use Rattle.frz_squares.specs.SquareSets.{has_square};

use std::marker::Model;

/// A set of squares in 64 bits, which contracts see as one number: square s is in the set where bit
/// s is set. Squares are numbered from 0, a1, along the ranks to 63, h8.
#[derive(Clone, Copy, PartialEq, Eq)]
pub struct SquareSet(pub u64);

impl Model for SquareSet {
    ghost use Rattle.std.specs.Prelude.{ℕ};

    ghost Value = { ℕ };

    ghost view = { λ set. set.0 };

    ghost inverse = { λ bits. record { 0 = bits } };
}

impl SquareSet {
    /// Is the square of this number in the set?
    pub fn has(&self, s: u8) -> bool
        requires { s < 64 }
        ensures { result ≡ has_square self.now s }
    {
        self.0 / (1 << s) % 2 == 1
    }
}
