//! What the tests share. A test panics if it doesn't find what it expects.

mod file;
mod same;
mod words;

pub(crate) use file::file_of_true;
pub(crate) use same::{same, same_at, that};
use std::fmt::Debug;
use std::process::Abort;
pub(crate) use words::{
    expect_answers, expect_value, text_of, value_of, words_of_value, write_all,
};

// Returns the value of a result that must not be an error.
pub(crate) fn must<T, E: Debug>(rt: &impl Abort, answer: Result<T, E>) -> T {
    match answer {
        Ok(value) => value,
        Err(error) => panic!(rt; "{error:?}"),
    }
}

// Returns whether something is there.
pub(crate) fn is_there<T: Drop>(found: Option<T>) -> bool {
    found.is_some()
}

// Returns the content of an option that must not be `None`.
pub(crate) fn some<T>(rt: &impl Abort, what: &str, found: Option<T>) -> T {
    match found {
        Some(content) => content,
        None => panic!(rt; "{what}: nothing is there"),
    }
}
