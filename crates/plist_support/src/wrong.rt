//! The error of an example that doesn't find what it expects.

use plist_base::Error;
use std::alloc::{AllocError, Global};
use std::io::ErrorKind;

/// A difference from what an example expects.
#[derive(Debug, Drop)]
pub enum Wrong {
    /// An allocation failed.
    OutOfMemory,
    /// The result isn't an error, but should be.
    NoFault,
    /// The error, which wasn't expected, with its offset and, if it is an I/O error, its kind.
    OtherFault(Option<u64>, Option<ErrorKind>),
    /// An I/O error has a message that wasn't expected.
    OtherMessage,
    /// Anything else, in words.
    Words(String),
}

impl From<AllocError> for Wrong {
    fn from(_error: AllocError) -> Wrong {
        Wrong::OutOfMemory
    }
}

/// Fails with the given words, or with `OutOfMemory` if they couldn't be allocated.
pub fn fail<T>(text: Result<String, AllocError>) -> Result<T, Wrong> {
    Err(Wrong::Words(text?))
}

/// Returns the value of a result that must not be an error.
pub fn expect_ok<T>(alloc: Global, answer: Result<T, Error>) -> Result<T, Wrong> {
    match answer {
        Ok(value) => Ok(value),
        Err(error) => fail(error.to_string(alloc)),
    }
}

/// Checks that both strings are equal.
pub fn expect_same(alloc: Global, found: &str, wanted: &str) -> Result<(), Wrong> {
    if found == wanted {
        return Ok(());
    }
    fail(format!(in alloc; "{found} instead of {wanted}"))
}

/// Checks that the bytes are the expected ones.
pub fn expect_bytes(alloc: Global, found: &[u8], wanted: &[u8]) -> Result<(), Wrong> {
    if found == wanted {
        return Ok(());
    }
    let found = hex::encode(alloc, found)?;
    fail(format!(in alloc; "the bytes {found} were found"))
}

/// Checks that a condition is true. If it isn't, the error contains the text.
pub fn expect_that(alloc: Global, holds: bool, text: &str) -> Result<(), Wrong> {
    if holds {
        return Ok(());
    }
    fail(format!(in alloc; "not so: {text}"))
}
