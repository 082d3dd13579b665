//! A check of two values. The panic names what was compared, and prints both.

use std::fmt::Debug;
use std::process::Abort;

// Checks that two values are equal.
pub(crate) fn same<T: PartialEq + Debug>(rt: &impl Abort, what: &str, found: &T, wanted: &T) {
    if *found != *wanted {
        panic!(rt; "{what}: {found:?} instead of {wanted:?}");
    }
}
