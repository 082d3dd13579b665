//! Values: what is read as one, which are equal, and what is built from events.

use crate::rows::{Row, bytes_given, first_number, limits_given, unreadable};
use crate::words::{value_of, words_of_answer};
use plist::{Builder, Dialect, Value};
use plist_base::{Error, ErrorKind, Event};
use plist_support::{
    Device, Wrong, add_words, event_of, expect_answers, expect_bytes, expect_io, expect_ok,
    expect_same, expect_that,
};
use std::alloc::{AllocError, Global};
use std::io;

// Checks the events of a result's value, or its error.
fn expect(alloc: Global, answer: Result<Value, Error>, wanted: &str) -> Result<(), Wrong> {
    expect_same(alloc, words_of_answer(alloc, answer)?.as_str(), wanted)
}

// Checks the result of a device that may fail at this call: if it fails, the error is `Io` with the
// offset of the read, and that call is the last. Returns whether it failed.
fn expect_answer(
    alloc: Global,
    device: &Device,
    answer: Result<Value, Error>,
    wanted: &str,
    call: u64,
) -> Result<bool, Wrong> {
    if device.failures == 0 {
        expect(alloc, answer, wanted)?;
        expect_that(alloc, device.calls <= call, "the call is made")?;
        return Ok(false);
    }
    expect_io(answer, io::ErrorKind::Interrupted, Some(device.place))?;
    let is_last = device.failures == 1 && device.calls == call.saturating_add(1);
    expect_that(alloc, is_last, "one failure, at the last call")?;
    Ok(true)
}

// Checks what is read from a device that fails at this call. Returns whether it failed.
fn expect_on_device(alloc: Global, bytes: &[u8], wanted: &str, call: u64) -> Result<bool, Wrong> {
    let mut device = Device::new(Vec::from_slice(alloc, bytes)?, call);
    let answer = Value::from_reader(alloc, &mut device);
    expect_answer(alloc, &device, answer, wanted, call)
}

// Checks the value of these bytes, or the error, in memory and over devices.
fn expect_read(alloc: Global, bytes: &[u8], wanted: &str) -> Result<(), Wrong> {
    expect(alloc, Value::from_reader(alloc, bytes), wanted)?;
    for call in 0..1000 {
        if !expect_on_device(alloc, bytes, wanted, call)? {
            return Ok(());
        }
    }
    expect_that(alloc, false, "the device stops failing")
}

// Checks the value of a text, or the error.
fn expect_ascii(alloc: Global, bytes: &[u8], wanted: &str) -> Result<(), Wrong> {
    expect(alloc, Value::from_reader_ascii(alloc, bytes), wanted)
}

// Checks the value of a text in a dialect, or the error.
fn expect_dialect(
    alloc: Global,
    dialect: Dialect,
    bytes: &[u8],
    wanted: &str,
) -> Result<(), Wrong> {
    let answer = Value::from_reader_ascii_with_dialect(alloc, bytes, dialect);
    expect(alloc, answer, wanted)
}

// Checks that a value is written as this file.
pub(crate) fn expect_written(alloc: Global, value: Value, bytes: &[u8]) -> Result<(), Wrong> {
    let mut found = Vec::new(alloc);
    let answer = value.to_writer_binary(alloc, &mut found);
    drop(value);
    expect_ok(alloc, answer)?;
    expect_bytes(alloc, found.as_slice(), bytes)
}

// Checks that the value of these bytes is written as this file.
fn expect_converted(alloc: Global, bytes: &[u8], wanted: &str) -> Result<(), Wrong> {
    let file = bytes_given(alloc, wanted)?;
    let value = expect_ok(alloc, Value::from_reader(alloc, bytes))?;
    expect_written(alloc, value, file.as_slice())
}

// Checks the value under limits. The input consists of the limits and the bytes.
fn expect_limited(alloc: Global, row: Row<'_>) -> Result<(), Wrong> {
    let (limits, rest) = limits_given(alloc, row.given)?;
    let bytes = bytes_given(alloc, rest)?;
    let answer = Value::from_reader_with_limits(alloc, bytes.as_slice(), limits);
    expect(alloc, answer, row.wanted)
}

// Checks the value within a budget of bytes, which precedes the file in the input.
fn expect_within(alloc: Global, row: Row<'_>) -> Result<(), Wrong> {
    let (limits, rest) = limits_given(alloc, row.given)?;
    let (most, rest) = first_number(alloc, rest)?;
    let bytes = bytes_given(alloc, rest)?;
    let answer = Value::from_reader_within(alloc, bytes.as_slice(), limits, most);
    expect(alloc, answer, row.wanted)
}

// Returns whether a value equals that of these words.
fn is_value_of(alloc: Global, first: &Value, words: &str) -> Result<bool, Wrong> {
    let second = value_of(alloc, words)?;
    let is_equal = *first == second;
    drop(second);
    Ok(is_equal)
}

// Checks whether two values are equal.
fn expect_equal(alloc: Global, row: Row<'_>, equal: bool) -> Result<(), Wrong> {
    let first = value_of(alloc, row.given)?;
    let found = is_value_of(alloc, &first, row.wanted);
    drop(first);
    expect_that(alloc, found? == equal, row.check)
}

// Returns for each accessor whether it returns something, and the word that names it in a row.
fn kinds_of(value: &Value) -> [(bool, &'static str); 10] {
    [
        (value.as_array().is_some(), "array"),
        (value.as_dictionary().is_some(), "dictionary"),
        (value.as_boolean().is_some(), "boolean"),
        (value.as_data().is_some(), "data"),
        (value.as_date().is_some(), "date"),
        (value.as_real().is_some(), "real"),
        (value.as_signed_integer().is_some(), "signed"),
        (value.as_unsigned_integer().is_some(), "unsigned"),
        (value.as_string().is_some(), "string"),
        (value.as_uid().is_some(), "uid"),
    ]
}

fn kind_words(alloc: Global, value: &Value) -> Result<String, AllocError> {
    let mut words = String::new(alloc);
    for (answers, kind) in kinds_of(value) {
        if answers {
            add_words(&mut words, " ", kind)?;
        }
    }
    Ok(words)
}

// Checks that only the accessors of a value's own kind return something.
fn expect_kinds(alloc: Global, words: &str, wanted: &str) -> Result<(), Wrong> {
    let value = value_of(alloc, words)?;
    let found = kind_words(alloc, &value);
    drop(value);
    expect_same(alloc, found?.as_str(), wanted)
}

// Returns the item of a word. `!` is an item that is an error.
fn item_of<'a>(alloc: Global, word: &'a str) -> Result<Result<Event<'a>, Error>, Wrong> {
    match word {
        "!" => Ok(Err(ErrorKind::InvalidMagic.with_byte_offset(0))),
        other => Ok(Ok(event_of(alloc, other)?)),
    }
}

// Appends the items of these words.
fn add_items<'a>(
    alloc: Global,
    items: &mut Vec<Result<Event<'a>, Error>>,
    words: &'a str,
) -> Result<(), Wrong> {
    for word in words.split(' ') {
        let item = item_of(alloc, word)?;
        if items.push(item).is_err() {
            return Err(Wrong::OutOfMemory);
        }
    }
    Ok(())
}

// Checks what the items of these words are collected to.
fn expect_collected(alloc: Global, words: &str, wanted: &str) -> Result<(), Wrong> {
    let mut items = Vec::new(alloc);
    let added = add_items(alloc, &mut items, words);
    let found = words_of_answer(alloc, Value::from_events(alloc, items));
    added?;
    expect_same(alloc, found?.as_str(), wanted)
}

// Checks what a builder returns for the events of these words, and then the value that it built.
fn expect_built(alloc: Global, words: &str, wanted: &str) -> Result<(), Wrong> {
    let Some((answers, value)) = wanted.split_once(" => ") else {
        return unreadable(alloc, wanted);
    };
    let mut builder = Builder::new(alloc);
    let answered = expect_answers(alloc, &mut builder, words, answers);
    let found = words_of_answer(alloc, builder.finish());
    drop(builder);
    answered?;
    expect_same(alloc, found?.as_str(), value)
}

// Runs a check of what is read from bytes.
fn run_read(alloc: Global, check: &str, bytes: &[u8], wanted: &str) -> Result<(), Wrong> {
    match check {
        "value" => expect_read(alloc, bytes, wanted),
        "value of ascii" => expect_ascii(alloc, bytes, wanted),
        "value of lax" => expect_dialect(alloc, Dialect::Lax, bytes, wanted),
        "value of tight" => expect_dialect(alloc, Dialect::Tight, bytes, wanted),
        "converted" => expect_converted(alloc, bytes, wanted),
        _ => unreadable(alloc, check),
    }
}

/// Runs an example of values.
pub(crate) fn run(alloc: Global, row: Row<'_>) -> Result<(), Wrong> {
    match row.check {
        "equal" => expect_equal(alloc, row, true),
        "unequal" => expect_equal(alloc, row, false),
        "kind" => expect_kinds(alloc, row.given, row.wanted),
        "collected" => expect_collected(alloc, row.given, row.wanted),
        "built" => expect_built(alloc, row.given, row.wanted),
        "value under limits" => expect_limited(alloc, row),
        "value within" => expect_within(alloc, row),
        _ => {
            let bytes = bytes_given(alloc, row.given)?;
            run_read(alloc, row.check, bytes.as_slice(), row.wanted)
        }
    }
}
