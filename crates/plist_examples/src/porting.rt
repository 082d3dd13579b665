//! Calls that take a file's name and limits, values that are taken apart, and the numbers of reals.

use crate::rows::{Row, limits_given, unreadable};
use crate::words::{value_of, words_of_answer};
use plist::{RealBits, Value};
use plist_support::{Wrong, expect_same};
use std::alloc::Global;
use std::rt::Files;

// Returns the words of a file under limits. The input consists of the limits and the file's name.
fn words_in_file<R: Files>(rt: &R, alloc: Global, given: &str) -> Result<String, Wrong> {
    let (limits, path) = limits_given(alloc, given)?;
    let answer = Value::from_file_with_limits(rt, alloc, path, limits);
    Ok(words_of_answer(alloc, answer)?)
}

// Takes the string out of a value that is one.
fn text_in(alloc: Global, words: &str) -> Result<String, Wrong> {
    match value_of(alloc, words)? {
        Value::String(text) => Ok(text),
        other => Ok(words_of_answer(alloc, Ok(other))?),
    }
}

// Returns the text of a real of four bytes.
fn real_text(alloc: Global, digits: &str) -> Result<String, Wrong> {
    match u32::from_str_radix(digits, 16) {
        Ok(bits) => Ok(format!(in alloc; "{}", RealBits::Four(bits.to_be_bytes()).to_f64())?),
        Err(_) => unreadable(alloc, digits),
    }
}

/// Runs an example of a call that a program written for the Rust crate makes.
pub(crate) fn run<R: Files>(rt: &R, alloc: Global, row: Row<'_>) -> Result<(), Wrong> {
    let text = match row.check {
        "file under limits" => words_in_file(rt, alloc, row.given),
        "taken apart" => text_in(alloc, row.given),
        "text of four bytes" => real_text(alloc, row.given),
        _ => unreadable(alloc, row.check),
    };
    expect_same(alloc, text?.as_str(), row.wanted)
}
