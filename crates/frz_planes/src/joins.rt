//! What joins and cuts planes, row by row.

ghost use Rattle.std.specs.Prelude.{◌≡◌, ◌&&◌, ◌||◌, not};
ghost use Rattle.frz_squares.specs.SquareSets.{has_square};
ghost use Rattle.frz_planes.specs.Planes.{has_pair, IsPlaneOf};

use crate::plane::{Plane, row_for};

impl Plane {
    /// Adds the pairs of the other plane.
    pub fn union_with(&mut self, other: &Plane)
        ensures { IsPlaneOf self.new (λ a b. has_pair self.old a b || has_pair other.now a b) }
    {
        for (i, row) in self.0.iter_mut().enumerate() {
            *row |= other.0[i];
        }
    }

    /// Keeps the pairs of the other plane.
    pub fn cut_with(&mut self, other: &Plane)
        ensures { IsPlaneOf self.new (λ a b. has_pair self.old a b && has_pair other.now a b) }
    {
        for (i, row) in self.0.iter_mut().enumerate() {
            *row &= other.0[i];
        }
    }

    /// Drops the pairs of the other plane.
    pub fn without(&mut self, other: &Plane)
        ensures { IsPlaneOf self.new
            (λ a b. has_pair self.old a b && not (has_pair other.now a b)) }
    {
        for (i, row) in self.0.iter_mut().enumerate() {
            *row ^= *row & other.0[i];
        }
    }

    /// Has the pairs instead that it had not.
    pub fn complement(&mut self)
        ensures { IsPlaneOf self.new (λ a b. not (has_pair self.old a b)) }
    {
        for row in &mut self.0 {
            *row ^= u64::MAX;
        }
    }

    /// Adds the pairs that two planes have in common.
    pub fn join_common(&mut self, one: &Plane, other: &Plane)
        ensures { IsPlaneOf self.new (λ a b. has_pair self.old a b
            || (has_pair one.now a b && has_pair other.now a b)) }
    {
        for (i, row) in self.0.iter_mut().enumerate() {
            *row |= one.0[i] & other.0[i];
        }
    }

    /// Keeps the pairs whose white king stands on a square of the one word, and whose black king
    /// stands on a square of the other.
    pub fn keep(&mut self, white: u64, black: u64)
        ensures { IsPlaneOf self.new (λ a b. has_pair self.old a b
            && (has_square white a && has_square black b)) }
    {
        for (i, row) in self.0.iter_mut().enumerate() {
            *row &= row_for(white, black, i);
        }
    }

    /// Adds the pairs of the other plane whose white king stands on a square of the one word, and
    /// whose black king stands on a square of the other.
    pub fn join_kept(&mut self, other: &Plane, white: u64, black: u64)
        ensures { IsPlaneOf self.new (λ a b. has_pair self.old a b
            || (has_pair other.now a b && (has_square white a && has_square black b))) }
    {
        for (i, row) in self.0.iter_mut().enumerate() {
            *row |= other.0[i] & row_for(white, black, i);
        }
    }
}
