//! Looks at values, each proved once for all tests. A case names what is looked at.
use std::fmt::Debug;
use std::process::Abort;

/// The value of the case is the one that is wanted.
pub(crate) fn expect_equal<T: PartialEq + Debug>(
    rt: &impl Abort,
    given: &T,
    wanted: &T,
    case: &str,
) {
    assert_eq!(rt; given, wanted, "{case}");
}

/// The fact holds of the case.
pub(crate) fn expect_holds<C: Debug>(rt: &impl Abort, holds: bool, case: &C) {
    assert!(rt; holds, "{case:?}");
}
