//! The value of words, and the words of a value or of its error.

use plist::{Builder, Value};
use plist_base::Error;
use plist_support::{Wrong, expect_ok, words_of_events, write_all};
use std::alloc::{AllocError, Global};

// Returns the value that a builder makes of the events of these words.
fn built(alloc: Global, builder: &mut Builder, words: &str) -> Result<Value, Wrong> {
    write_all(alloc, builder, words)?;
    expect_ok(alloc, builder.finish())
}

/// Returns the value with the events of these words.
pub(crate) fn value_of(alloc: Global, words: &str) -> Result<Value, Wrong> {
    let mut builder = Builder::new(alloc);
    let value = built(alloc, &mut builder, words);
    drop(builder);
    value
}

/// Returns the words of a value.
pub(crate) fn words_of_value(alloc: Global, value: &Value) -> Result<String, AllocError> {
    words_of_events(alloc, value.events(alloc))
}

/// Returns the words of a result's value, or the text of its error.
pub(crate) fn words_of_answer(
    alloc: Global,
    answer: Result<Value, Error>,
) -> Result<String, AllocError> {
    match answer {
        Ok(value) => {
            let words = words_of_value(alloc, &value);
            drop(value);
            words
        }
        Err(error) => error.to_string(alloc),
    }
}
