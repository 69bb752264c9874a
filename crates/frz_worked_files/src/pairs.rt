//! What the codes of both sides say together.
use crate::expect::expect_equal;
use frz_chain::pair_value;
use frz_sets::Value;

/// The codes of both sides, White's first, and what they say of chess.
const PAIRS: &[(u32, u32, Value)] = &[
    (4, 5, Value::WhiteWins),
    (3, 2, Value::BlackWins),
    (1, 1, Value::Draw),
    (1, 7, Value::WhiteHolds),
    (9, 1, Value::BlackHolds),
    (5, 7, Value::Unknown),
    (4, 1, Value::Unknown),
    (0, 0, Value::Unknown),
];

#[test]
fn pairs_of_codes(rt: HostRuntime) {
    for (white, black, value) in PAIRS {
        let given = (*white, *black, pair_value(*white, *black));
        expect_equal(&rt, &given, &(*white, *black, *value), "a pair");
    }
}
