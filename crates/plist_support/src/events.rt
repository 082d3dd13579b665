//! Parses events that are written as words, and checks what a writer returns for them.

use crate::words::add_words;
use crate::wrong::{Wrong, expect_ok, fail};
use hex::FromHex;
use plist_base::{Date, Event, Integer, RealBits, Uid, Writer};
use std::alloc::Global;
use std::borrow::{CowSlice, CowStr};

// Fails because a word isn't an event.
fn no_event<T>(alloc: Global, word: &str) -> Result<T, Wrong> {
    fail(format!(in alloc; "no event is {word}"))
}

// Returns the text between two marks, or `None` if the word doesn't begin and end with them.
fn between(word: &str, first: char, last: char) -> Option<&str> {
    match word.strip_prefix(first) {
        None => None,
        Some(rest) => rest.strip_suffix(last),
    }
}

fn number_of(alloc: Global, digits: &str) -> Result<u64, Wrong> {
    match digits.parse::<u64>() {
        Ok(number) => Ok(number),
        Err(_) => no_event(alloc, digits),
    }
}

// Returns the length after a bracket, or `None` if nothing follows it.
fn length_of(alloc: Global, digits: &str) -> Result<Option<u64>, Wrong> {
    if digits.is_empty() {
        return Ok(None);
    }
    Ok(Some(number_of(alloc, digits)?))
}

fn eight_bytes(alloc: Global, digits: &str) -> Result<[u8; 8], Wrong> {
    match <[u8; 8] as FromHex>::from_hex(digits) {
        Ok(bytes) => Ok(bytes),
        Err(_) => no_event(alloc, digits),
    }
}

fn real_of(alloc: Global, digits: &str) -> Result<RealBits, Wrong> {
    match <[u8; 4] as FromHex>::from_hex(digits) {
        Ok(bytes) => Ok(RealBits::Four(bytes)),
        Err(_) => Ok(RealBits::Eight(eight_bytes(alloc, digits)?)),
    }
}

fn date_of(alloc: Global, content: &str) -> Result<Date, Wrong> {
    let found = match content.split_once('/') {
        Some((_, digits)) => Date::from_plist_real(eight_bytes(alloc, digits)?).ok(),
        None => match content.parse::<i64>() {
            Ok(second) => Date::from_plist_secs(second),
            Err(_) => None,
        },
    };
    match found {
        Some(date) => Ok(date),
        None => no_event(alloc, content),
    }
}

// Returns the event of a kind and a content that are separated by a colon.
fn named(alloc: Global, kind: &str, content: &str) -> Result<Event<'static>, Wrong> {
    match kind {
        "uid" => Ok(Event::Uid(Uid::new(number_of(alloc, content)?))),
        "real" => Ok(Event::Real(real_of(alloc, content)?)),
        "date" => Ok(Event::Date(date_of(alloc, content)?)),
        _ => no_event(alloc, kind),
    }
}

fn data_of(alloc: Global, digits: &str) -> Result<Event<'static>, Wrong> {
    match hex::decode(alloc, digits) {
        Ok(bytes) => Ok(Event::Data(CowSlice::Owned(bytes))),
        Err(_) => no_event(alloc, digits),
    }
}

// Returns the event of a word without marks.
fn plain(alloc: Global, word: &str) -> Result<Event<'static>, Wrong> {
    match word {
        "end" => Ok(Event::EndCollection),
        "true" => Ok(Event::Boolean(true)),
        "false" => Ok(Event::Boolean(false)),
        digits => match digits.parse::<Integer>() {
            Ok(number) => Ok(Event::Integer(number)),
            Err(_) => no_event(alloc, digits),
        },
    }
}

/// Returns the event that a word denotes, or an error if it denotes none.
pub fn event_of<'a>(alloc: Global, word: &'a str) -> Result<Event<'a>, Wrong> {
    if let Some(text) = between(word, '\'', '\'') {
        return Ok(Event::String(CowStr::Borrowed(text)));
    }
    if let Some(digits) = between(word, '<', '>') {
        return data_of(alloc, digits);
    }
    if let Some(digits) = word.strip_prefix('[') {
        return Ok(Event::StartArray(length_of(alloc, digits)?));
    }
    if let Some(digits) = word.strip_prefix('{') {
        return Ok(Event::StartDictionary(length_of(alloc, digits)?));
    }
    match word.split_once(':') {
        Some((kind, content)) => named(alloc, kind, content),
        None => plain(alloc, word),
    }
}

/// Writes the events of the given words to a writer, and fails if it returns an error.
pub fn write_all<W: Writer>(alloc: Global, writer: &mut W, words: &str) -> Result<(), Wrong> {
    for word in words.split(' ') {
        let event = event_of(alloc, word)?;
        expect_ok(alloc, writer.write(event))?;
    }
    Ok(())
}

// Appends what a writer returns for the event of a word: `ok` or the text of the error.
fn add_answer<W: Writer>(
    alloc: Global,
    writer: &mut W,
    word: &str,
    all: &mut String,
) -> Result<(), Wrong> {
    let event = event_of(alloc, word)?;
    match writer.write(event) {
        Ok(()) => add_words(all, "; ", "ok")?,
        Err(error) => add_words(all, "; ", error.to_string(alloc)?.as_str())?,
    }
    Ok(())
}

/// Checks that a writer returns the given answers for the events of the given words. An answer is
/// `ok` or the text of the error, and answers are separated by `; `.
pub fn expect_answers<W: Writer>(
    alloc: Global,
    writer: &mut W,
    words: &str,
    answers: &str,
) -> Result<(), Wrong> {
    let mut all = String::new(alloc);
    for word in words.split(' ') {
        add_answer(alloc, writer, word, &mut all)?;
    }
    if all.as_str() != answers {
        return fail(format!(in alloc; "for {words}: {all} instead of {answers}"));
    }
    Ok(())
}
