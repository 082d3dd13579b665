//! What the tests share. A test panics if it doesn't find what it expects.

mod devices;
mod files;
mod runs;
mod same;
mod watched;

pub(crate) use devices::{Stuck, broken_file, expect_taken, failing, sound};
pub(crate) use files::{RECURSIVE, expect_holds, expect_missing, path_of, put, remove};
use plist::{Builder, Value};
use plist_support::write_all;
pub(crate) use runs::{expect_done, expect_fault, expect_given, expect_run, run};
pub(crate) use same::same;
use std::fmt::Debug;
use std::ops::Range;
use std::process::Abort;
pub(crate) use watched::{FailingCall, Stage, Watched};

// Returns the value of a result that must not be an error.
pub(crate) fn must<T, E: Debug>(rt: &impl Abort, answer: Result<T, E>) -> T {
    match answer {
        Ok(value) => value,
        Err(error) => panic!(rt; "{error:?}"),
    }
}

// Returns the value with the events of these words.
pub(crate) fn value_of(rt: &(impl Abort + AllocGlobal), words: &str) -> Value {
    let mut builder = Builder::new(rt.alloc());
    must(rt, write_all(rt.alloc(), &mut builder, words));
    must(rt, builder.finish())
}

// Returns whether a result is `Ok`.
pub(crate) fn is_done<T: Drop, E: Drop>(answer: Result<T, E>) -> bool {
    answer.is_ok()
}

// Returns the content of an option that must not be `None`.
pub(crate) fn some<T>(rt: &impl Abort, what: &str, found: Option<T>) -> T {
    match found {
        Some(content) => content,
        None => panic!(rt; "{what}: nothing is there"),
    }
}

// Appends a text this often.
pub(crate) fn add_times(rt: &impl Abort, all: &mut String, text: &str, times: u32) {
    for _ in 0..times {
        must(rt, all.push_str(text));
    }
}

// Appends a text for each of these numbers. The number replaces each `#` in the text.
pub(crate) fn add_numbered(
    rt: &(impl Abort + AllocGlobal),
    all: &mut String,
    text: &str,
    numbers: Range<u32>,
) {
    for number in numbers {
        let digits = must(rt, number.to_string(rt.alloc()));
        let part = must(rt, text.replace(rt.alloc(), "#", digits.as_str()));
        must(rt, all.push_str(part.as_str()));
    }
}
