//! Events written as words, and checks of their values and writers.

use crate::support::{must, same};
use plist::{Builder, Value};
use plist_base::{Error, Writer};
use plist_support::words_of_events;
use std::process::Abort;

// Returns the value with the events of these words.
pub(crate) fn value_of(rt: &(impl Abort + AllocGlobal), words: &str) -> Value {
    let mut builder = Builder::new(rt.alloc());
    write_all(rt, &mut builder, words);
    let value = must(rt, builder.finish());
    drop(builder);
    value
}

// Returns the words of a value's events.
pub(crate) fn words_of_value(rt: &(impl Abort + AllocGlobal), value: &Value) -> String {
    must(rt, words_of_events(rt.alloc(), value.events(rt.alloc())))
}

// Returns the text of a result: `ok`, or that of the error.
pub(crate) fn text_of(rt: &(impl Abort + AllocGlobal), answer: Result<(), Error>) -> String {
    let text = match answer {
        Ok(()) => String::from_str(rt.alloc(), "ok"),
        Err(error) => error.to_string(rt.alloc()),
    };
    must(rt, text)
}

// Checks the events of a value, or the text of the error in its place.
pub(crate) fn expect_value(
    rt: &(impl Abort + AllocGlobal),
    found: Result<Value, Error>,
    wanted: &str,
) {
    let words = match found {
        Ok(value) => {
            let words = words_of_value(rt, &value);
            drop(value);
            words
        }
        Err(error) => must(rt, error.to_string(rt.alloc())),
    };
    same(rt, "the value", &words.as_str(), &wanted);
}

// Writes the events of these words to a writer, which must accept them.
pub(crate) fn write_all<W: Writer>(rt: &(impl Abort + AllocGlobal), writer: &mut W, words: &str) {
    must(rt, plist_support::write_all(rt.alloc(), writer, words));
}

// Checks what a writer returns for the events of these words.
pub(crate) fn expect_answers<W: Writer>(
    rt: &(impl Abort + AllocGlobal),
    writer: &mut W,
    words: &str,
    answers: &str,
) {
    must(
        rt,
        plist_support::expect_answers(rt.alloc(), writer, words, answers),
    );
}
