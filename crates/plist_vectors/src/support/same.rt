//! Checks of two values. The panic names what was compared, and in which case, and prints both.

use std::fmt::Debug;
use std::process::Abort;

// Checks that two values are equal.
pub(crate) fn same<T: PartialEq + Debug>(rt: &impl Abort, what: &str, found: &T, wanted: &T) {
    if *found != *wanted {
        panic!(rt; "{what}: {found:?} instead of {wanted:?}");
    }
}

// Checks that two values are equal in the case with this number.
pub(crate) fn same_at<T: PartialEq + Debug>(
    rt: &impl Abort,
    what: &str,
    case: u64,
    found: &T,
    wanted: &T,
) {
    if *found != *wanted {
        panic!(rt; "{what} {case}: {found:?} instead of {wanted:?}");
    }
}

// Checks that a condition is true in the case with this number.
pub(crate) fn that(rt: &impl Abort, what: &str, case: u64, holds: bool) {
    if !holds {
        panic!(rt; "not so: {what} {case}");
    }
}
