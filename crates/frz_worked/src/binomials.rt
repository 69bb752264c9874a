//! Binomial numbers against a printed table.
ghost use Rattle.std.specs.Prelude.{◌≡◌};

use crate::expect::{expect_equal, expect_holds};
use frz_combinations::{Triangle, binomial};
use std::alloc::AllocError;
use std::process::Abort;

/// Values from a printed table of Pascal's triangle.
const KNOWN: &[(u32, u32, u64)] = &[
    (0, 0, 1),
    (0, 1, 0),
    (5, 2, 10),
    (10, 5, 252),
    (15, 16, 0),
    (16, 16, 1),
    (40, 1, 40),
    (64, 3, 41664),
    (64, 16, 488526937079580),
    (384, 2, 73536),
    (384, 16, 18446744073709551615),
];

/// Both ways give the value of the row, which is no larger than the triangle.
fn check_value(rt: &impl Abort, triangle: &Triangle, row: &(u32, u32, u64))
    requires { triangle.now ≡ 385 }
{
    let (n, k, _) = *row;
    if n <= 384 && k <= 16 {
        expect_equal(rt, &(n, k, binomial(n, k)), row, "a row");
        expect_equal(rt, &(n, k, triangle.binomial(n, k)), row, "of the triangle");
    } else {
        expect_holds(rt, false, row);
    }
}

#[test]
fn binomials(rt: HostRuntime) -> Result<(), AllocError> {
    let triangle = Triangle::new(rt.alloc(), 384)?;
    for row in KNOWN {
        check_value(&rt, &triangle, row);
    }
    Ok(())
}
