//! Binomial numbers, and rows of Pascal's triangle that are kept.
ghost use Rattle.std.specs.Prelude.{◌≡◌, ◌<◌, ◌≤◌, ◌+◌, ℕ, IfOk};
ghost use Rattle.frz_combinations.specs.Binomials.{choose, capped, IsRow};

use std::alloc::{AllocError, Global};
use std::marker::Model;

/// The length of a row, which has the numbers C(n, 0) to C(n, 16).
const WIDTH: usize = 17;

fn first_row() -> [u64; WIDTH]
    ensures { IsRow 0 result }
{
    let mut row = [0; WIDTH];
    row[0] = 1;
    row
}

fn next_row(row: &[u64; WIDTH]) -> [u64; WIDTH]
    ensures { (n : ℕ) → IsRow n row.now → IsRow (n + 1) result }
{
    let mut next = [1; WIDTH];
    for k in 1..WIDTH {
        next[k] = row[k].saturating_add(row[k - 1]);
    }
    next
}

/// C(n, k), or the greatest number of 64 bits where C(n, k) is greater. It takes n up to 384 and k
/// up to 16, and computes all rows up to n.
pub fn binomial(n: u32, k: u32) -> u64
    requires n { n ≤ 384 }
    requires k { k ≤ 16 }
    ensures { result ≡ capped (choose n k) }
{
    let mut row = first_row();
    for _ in 0..n {
        row = next_row(&row);
    }
    row[k as usize]
}

/// The first rows of Pascal's triangle. Contracts see it as the number of rows.
///
/// It gives the numbers of `binomial` without computing them again.
pub struct Triangle {
    rows: Vec<[u64; WIDTH]>,
}

impl Drop for Triangle {
    fn drop(self) {
        let Triangle { rows: _ } = self;
    }
}

impl Model for Triangle {
    ghost use Rattle.std.specs.Prelude.{ℕ, length};
    ghost use Rattle.frz_combinations.specs.Binomials.{AreRows};

    ghost Value = { ℕ };

    ghost view = { λ t. length t.rows.items };

    ghost invariant = { λ t. AreRows t.rows.items };
}

impl Triangle {
    /// The rows from 0 to `last`. The only error is want of memory.
    pub fn new(alloc: Global, last: u32) -> Result<Triangle, AllocError>
        ensures { IfOk result (λ t. t ≡ last + 1) }
    {
        let mut rows = Vec::new(alloc);
        let mut row = first_row();
        for _ in 0..last {
            rows.push(row)?;
            row = next_row(&row);
        }
        rows.push(row)?;
        Ok(Triangle { rows })
    }

    /// C(n, k), or the greatest number of 64 bits where C(n, k) is greater. The row n must be one
    /// of those that are kept, and k at most 16.
    pub fn binomial(&self, n: u32, k: u32) -> u64
        requires n { n < self.now }
        requires k { k ≤ 16 }
        ensures { result ≡ capped (choose n k) }
    {
        if k == 1 {
            return u64::from(n);
        }
        self.rows[n as usize][k as usize]
    }
}
