//! Events: their ten kinds, and the calls on one.

ghost use Rattle.std.specs.Iterator.{IsFinite};

use crate::traits::is_debug;
use plist_base::{Date, Error, Event, EventKind, Integer, OwnedEvent, RealBits, Uid};
use std::alloc::Global;
use std::borrow::{CowSlice, CowStr};
use std::fmt;
use std::io::Write;

// Returns the event at this index, of an array in which all ten kinds of events occur.
pub fn event_at(number: u8) -> Option<Event<'static>> {
    match number {
        0 => Some(Event::StartArray(Some(9))),
        1 => Some(Event::StartDictionary(None)),
        2 => Some(Event::String(CowStr::Borrowed("k"))),
        3 => Some(Event::Boolean(true)),
        4 => Some(Event::EndCollection),
        5 => Some(Event::Data(CowSlice::Borrowed(b"\x00\xff"))),
        6 => match Date::from_plist_secs(0) {
            Some(date) => Some(Event::Date(date)),
            None => None,
        },
        7 => Some(Event::Integer(Integer::from(5_i64))),
        8 => Some(Event::Real(RealBits::Four([0x3f, 0xc0, 0, 0]))),
        9 => Some(Event::Uid(Uid::new(4))),
        10 => Some(Event::EndCollection),
        _ => None,
    }
}

// Prints a blank, a mark and a content.
fn print_word<W: Write, T: fmt::Display>(
    out: &mut W,
    mark: &str,
    content: &T,
) -> Result<(), Error> {
    Ok(write!(out, " {mark}{content}")?)
}

// Prints an event after a blank.
pub fn print_event<W: Write>(out: &mut W, event: &Event<'_>) -> Result<(), Error> {
    match event {
        Event::StartArray(Some(length)) => print_word(out, "[", length),
        Event::StartArray(None) => print_word(out, "[", &""),
        Event::StartDictionary(Some(length)) => print_word(out, "{", length),
        Event::StartDictionary(None) => print_word(out, "{", &""),
        Event::EndCollection => print_word(out, "end", &""),
        Event::Boolean(flag) => print_word(out, "", flag),
        Event::Data(bytes) => print_word(out, "data:", &bytes.as_slice().len()),
        Event::Date(date) => print_word(out, "date:", &date.plist_secs()),
        Event::Integer(number) => print_word(out, "", number),
        Event::Real(bits) => print_word(out, "real:", &bits.to_f64()),
        Event::String(text) => Ok(write!(out, " {:?}", text.as_str())?),
        Event::Uid(uid) => print_word(out, "uid:", &uid.get()),
    }
}

// Prints an event, or an error, after a blank.
fn print_item<W: Write>(out: &mut W, item: &Result<OwnedEvent, Error>) -> Result<(), Error> {
    match item {
        Ok(event) => print_event(out, event),
        Err(error) => print_word(out, "", error),
    }
}

// Prints a line with a name and items.
pub fn print_items<W: Write, I: Iterator<Item = Result<OwnedEvent, Error>> + Drop>(
    out: &mut W,
    name: &str,
    mut items: I,
) -> Result<(), Error>
    requires can { I.can_next items }
    requires ends { IsFinite (I.remaining items) }
{
    write!(out, "{name}:")?;
    for _ in 0..20 {
        let item: Option<Result<OwnedEvent, Error>> = items.next();
        match item {
            Some(item) => {
                let printed = print_item(out, &item);
                drop(item);
                printed?;
            }
            None => break,
        }
    }
    writeln!(out)?;
    Ok(())
}

pub fn event_calls(event: &Event<'_>, other: &Event<'_>) -> bool {
    is_debug(event);
    let _kind: EventKind = EventKind::of_event(event);
    *event == *other
}

pub fn event_copied(alloc: Global, event: &Event<'_>) -> Result<OwnedEvent, Error> {
    event.clone(alloc)
}

pub fn event_owned(alloc: Global, event: Event<'_>) -> Result<OwnedEvent, Error> {
    event.into_owned(alloc)
}
