//! Events as words, which are separated by spaces.
//!
//! `[2` and `{2` are starts with a length, `[` and `{` are starts without one, and `end` is an end.
//! `true`, `false` and numbers are written as they are. `'a'` is a string, `<00ff>` is data in
//! hexadecimal, `uid:4` is a Uid, and `real:3fc00000` is a real by its bytes. `date:-5` is a date
//! by its second; for a date with a fraction, as in `date:0/3fe0000000000000`, its bytes follow.

ghost use Rattle.std.specs.Iterator.{IsFinite};

use plist_base::{Date, Error, Event, OwnedEvent, RealBits};
use std::alloc::{AllocError, Global};

fn start(alloc: Global, bracket: char, length: Option<u64>) -> Result<String, AllocError> {
    match length {
        None => format!(in alloc; "{bracket}"),
        Some(length) => format!(in alloc; "{bracket}{length}"),
    }
}

fn date_word(alloc: Global, date: Date) -> Result<String, AllocError> {
    let second = date.plist_secs();
    if !date.has_fraction() {
        return format!(in alloc; "date:{second}");
    }
    let digits = hex::encode(alloc, date.to_plist_real())?;
    format!(in alloc; "date:{second}/{digits}")
}

fn real_word(alloc: Global, bits: RealBits) -> Result<String, AllocError> {
    let digits = match bits {
        RealBits::Four(bytes) => hex::encode(alloc, bytes)?,
        RealBits::Eight(bytes) => hex::encode(alloc, bytes)?,
    };
    format!(in alloc; "real:{digits}")
}

/// Returns the word of an event.
pub fn word_of(alloc: Global, event: &Event<'_>) -> Result<String, AllocError> {
    match event {
        Event::StartArray(length) => start(alloc, '[', *length),
        Event::StartDictionary(length) => start(alloc, '{', *length),
        Event::EndCollection => String::from_str(alloc, "end"),
        Event::Boolean(value) => format!(in alloc; "{value}"),
        Event::Data(bytes) => {
            let digits = hex::encode(alloc, bytes.as_slice())?;
            format!(in alloc; "<{digits}>")
        }
        Event::Date(date) => date_word(alloc, *date),
        Event::Integer(value) => format!(in alloc; "{value}"),
        Event::Real(bits) => real_word(alloc, *bits),
        Event::String(text) => format!(in alloc; "'{}'", text.as_str()),
        Event::Uid(uid) => format!(in alloc; "uid:{}", uid.get()),
    }
}

// Returns the text of an error and, if it is an I/O error, that of the I/O error after a colon.
fn word_of_fault(alloc: Global, error: &Error) -> Result<String, AllocError> {
    match error.as_io() {
        Some(failure) => format!(in alloc; "{error}: {failure}"),
        None => error.to_string(alloc),
    }
}

// Appends an item's word, or the text of its error.
fn add_item(
    alloc: Global,
    all: &mut String,
    item: &Result<Event<'_>, Error>,
) -> Result<(), AllocError> {
    let word = match item {
        Ok(event) => word_of(alloc, event)?,
        Err(error) => word_of_fault(alloc, error)?,
    };
    add_words(all, " ", word.as_str())
}

/// Appends words. If they aren't the first, the given mark separates them from those before.
pub fn add_words(all: &mut String, mark: &str, words: &str) -> Result<(), AllocError> {
    if !all.is_empty() {
        all.push_str(mark)?;
    }
    all.push_str(words)
}

/// Returns the words of a reader's items.
pub fn words_of<I: Iterator<Item = Result<OwnedEvent, Error>> + Drop>(
    alloc: Global,
    reader: I,
) -> Result<String, AllocError>
    requires asked { I.can_next reader }
    requires ends { IsFinite (I.remaining reader) }
{
    let mut all = String::new(alloc);
    for item in reader {
        add_item(alloc, &mut all, &item)?;
    }
    Ok(all)
}

/// Returns the words of a value's events.
pub fn words_of_events<'a, I: Iterator<Item = Result<Event<'a>, Error>> + Drop>(
    alloc: Global,
    events: I,
) -> Result<String, AllocError>
    requires asked { I.can_next events }
    requires ends { IsFinite (I.remaining events) }
{
    let mut all = String::new(alloc);
    for item in events {
        add_item(alloc, &mut all, &item)?;
    }
    Ok(all)
}
