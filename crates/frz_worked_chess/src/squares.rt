//! A square's file, rank and place in a set.
use crate::expect::{expect_equal, expect_holds};
use frz_squares::{SquareSet, file, rank};

#[test]
fn b2_and_h8(rt: HostRuntime) {
    let set = SquareSet(1 << 9 | 1 << 63);
    expect_equal(&rt, &(file(9), rank(9)), &(1, 1));
    expect_equal(&rt, &(file(63), rank(63)), &(7, 7));
    expect_holds(&rt, set.has(9) && set.has(63));
    expect_holds(&rt, !set.has(8) && !set.has(62));
}
