//! Looks at values, each proved once for all tests.
use std::fmt::Debug;
use std::process::Abort;

/// The values are equal.
pub(crate) fn expect_equal<T: PartialEq + Debug>(rt: &impl Abort, given: &T, wanted: &T) {
    assert_eq!(rt; given, wanted);
}

/// The fact holds.
pub(crate) fn expect_holds(rt: &impl Abort, holds: bool) {
    assert!(rt; holds);
}
