//! Files of the binary format, in hexadecimal.

use crate::support::must;
use plist_support::file_of_object;
use std::process::Abort;

// Returns the file of `true`.
pub(crate) fn file_of_true(rt: &(impl Abort + AllocGlobal)) -> Vec<u8> {
    must(rt, file_of_object(rt.alloc(), "09"))
}
