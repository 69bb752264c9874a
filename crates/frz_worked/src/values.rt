//! Values as each side sees them.
use crate::expect::{expect_equal, expect_holds};
use frz_board::Colour::{self, Black, White};
use frz_exits::{Class, class, lag};
use frz_sets::Value;

/// A value, a side, and what the value is for it.
const CLASSES: &[(Value, Colour, Class)] = &[
    (Value::WhiteWinsIn(7), White, Class::Good),
    (Value::WhiteWins, Black, Class::Bad),
    (Value::Draw, Black, Class::Safe),
    (Value::BlackHolds, Black, Class::Safe),
    (Value::BlackHolds, White, Class::Bad),
    (Value::Unknown, White, Class::Bad),
];

#[test]
fn values_of_both_sides(rt: HostRuntime) {
    for (value, side, wanted) in CLASSES {
        expect_holds(&rt, class(*value, *side) == *wanted, &(*value, *side));
    }
    let lags = [lag(Value::BlackWinsIn(12)), lag(Value::BlackWins)];
    expect_equal(&rt, &lags, &[12, 0], "lags");
}
