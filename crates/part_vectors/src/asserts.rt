//! Comparisons that are functions: a call costs the prover a twentieth of a second, and an `assert_eq!` one or two.

use std::fmt::Debug;
use std::process::Abort;

/// What was found is what was wanted.
pub(crate) fn same<T: PartialEq + Debug + Drop>(rt: &impl Abort, found: T, wanted: T) {
    assert_eq!(rt; found, wanted);
}

/// What was found in a case is what was wanted.
pub(crate) fn same_at<T: PartialEq + Debug + Drop>(
    rt: &impl Abort,
    case: impl Debug + Drop,
    found: T,
    wanted: T,
) {
    assert_eq!(rt; found, wanted, "at {case:?}");
}
