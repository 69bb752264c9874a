//! The steps of either king.

ghost use Rattle.std.specs.Prelude.{◌≡◌, ◌<◌, ◌+◌, ◌-◌, ◌==◌, ◌&&◌, ◌||◌, not, nat_le};
ghost use Rattle.frz_squares.specs.Squares.{distance, file_of, rank_of};
ghost use Rattle.frz_squares.specs.SquareSets.{set_of};
ghost use Rattle.frz_squares.specs.Steps.{any_step};
ghost use Rattle.frz_planes.specs.Planes.{has_pair, IsPlaneOf};

use crate::masks::{BEFORE_FILE_H, BEHIND_FILE_A};
use crate::plane::Plane;
use frz_squares::king_steps;

/// The squares that are neither square `a` nor beside it.
fn apart_from(a: usize) -> u64
    requires { a < 64 }
    ensures { result ≡ set_of (λ b. nat_le 2 (distance a b)) }
{
    let king = 1 << a;
    !(king | king_steps(king))
}

impl Plane {
    /// Adds the pairs whose white king stands one file on from a pair of the other plane.
    fn join_file_on(&mut self, other: &Plane)
        ensures { IsPlaneOf self.new (λ a b. has_pair self.old a b
            || (not (file_of a == 0) && has_pair other.now (a - 1) b)) }
    {
        for i in 1..64 {
            self.0[i] |= other.0[i - 1] & BEHIND_FILE_A[i];
        }
    }

    /// Adds the pairs whose white king stands one file back from a pair of the other plane.
    fn join_file_back(&mut self, other: &Plane)
        ensures { IsPlaneOf self.new (λ a b. has_pair self.old a b
            || (not (file_of a == 7) && has_pair other.now (a + 1) b)) }
    {
        for i in 0..63 {
            self.0[i] |= other.0[i + 1] & BEFORE_FILE_H[i];
        }
    }

    /// Adds the pairs whose white king stands one rank up from a pair of the other plane.
    fn join_rank_on(&mut self, other: &Plane)
        ensures { IsPlaneOf self.new (λ a b. has_pair self.old a b
            || (not (rank_of a == 0) && has_pair other.now (a - 8) b)) }
    {
        for i in 8..64 {
            self.0[i] |= other.0[i - 8];
        }
    }

    /// Adds the pairs whose white king stands one rank down from a pair of the other plane.
    fn join_rank_back(&mut self, other: &Plane)
        ensures { IsPlaneOf self.new (λ a b. has_pair self.old a b
            || (not (rank_of a == 7) && has_pair other.now (a + 8) b)) }
    {
        for i in 0..56 {
            self.0[i] |= other.0[i + 8];
        }
    }

    /// The pairs whose white king is a step from a pair of this plane.
    pub fn step_white(&self) -> Plane
        ensures { IsPlaneOf result (λ a b. any_step a (λ c. has_pair self.now c b)) }
    {
        let mut beside = Plane::empty();
        beside.join_file_on(self);
        beside.join_file_back(self);
        let mut row = beside;
        row.union_with(self);
        beside.join_rank_on(&row);
        beside.join_rank_back(&row);
        beside
    }

    /// The pairs whose black king is a step from a pair of this plane.
    pub fn step_black(&self) -> Plane
        ensures { IsPlaneOf result (λ a b. any_step b (λ c. has_pair self.now a c)) }
    {
        let mut rows = [0; 64];
        for (i, row) in rows.iter_mut().enumerate() {
            *row = king_steps(self.0[i]);
        }
        Plane(rows)
    }

    /// The pairs whose kings stand apart: neither on one square nor on adjoining ones.
    pub fn apart() -> Plane
        ensures { IsPlaneOf result (λ a b. nat_le 2 (distance a b)) }
    {
        let mut rows = [0; 64];
        for (i, row) in rows.iter_mut().enumerate() {
            *row = apart_from(i);
        }
        Plane(rows)
    }
}
