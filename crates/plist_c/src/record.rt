//! The events of records.

ghost use Rattle.std.specs.Prelude.{◌≡◌, ◌+◌, ◌<◌, ℕ, List, None, IfErr, IfOk, IfSome, false, length};
ghost use Rattle.std.specs.Int.{from_bool};
ghost use Rattle.std.specs.Str.{IsUtf8};
ghost use Rattle.plist_base.specs.Events.{ScalarEvent, event_of as plain_of};
ghost use Rattle.plist_base.specs.Sources.{LiesAt};
ghost use Rattle.plist_base.specs.Trees.{Date as DateScalar};
ghost use Rattle.plist_c.specs.Records.{HasFlaw, IsRecordOf, is_boolean_sound, is_integer_sound, is_real_sound, is_start_sound};
ghost use Rattle.plist_c.specs.Flat.{flat as record_of, flat_integer, flat_of, flat_real, flat_start};

use crate::flat::FlatEvent;
use plist_base::{Date, Event, Integer, RealBits, Uid};
use std::borrow::{CowSlice, CowStr};

/// Why a record isn't that of an event.
#[derive(Clone, Copy)]
pub(crate) enum Flaw {
    /// It has an unknown kind.
    Kind,
    /// Its number or its size isn't one that a record of its kind has.
    Number,
    /// Its string or data doesn't lie within the bytes.
    Range,
    /// Its string isn't UTF-8.
    Text,
    /// Its date is infinite, a NaN, or outside the range of dates.
    Date,
}

// Returns the bytes of a string or of data, or `None` if they don't lie within the bytes of all.
fn content_of<'a>(flat: &FlatEvent, bytes: &'a [u8]) -> Option<&'a [u8]>
    ensures content { IfSome result (λ content. LiesAt bytes.now flat.now.number content.now) }
    ensures size { IfSome result (λ content. length content.now ≡ flat.now.size) }
    ensures outside { result ≡ None → length bytes.now < flat.now.number + flat.now.size }
{
    let end = flat.number.checked_add(flat.size)?;
    if end > bytes.len() as u64 {
        return None;
    }
    Some(&bytes[flat.number as usize..end as usize])
}

// Returns the length that the record of a start has, or `None` if its numbers are wrong.
fn length_of(flat: &FlatEvent) -> Option<Option<u64>>
    ensures length { IfSome result (λ length. flat.now ≡ flat_start flat.now.kind length) }
    ensures wrong { result ≡ None → is_start_sound flat.now.number flat.now.size ≡ false }
{
    match (flat.size, flat.number) {
        (1, length) => Some(Some(length)),
        (0, 0) => Some(None),
        _ => None,
    }
}

// Returns the Boolean of a record, or `None` if its numbers are wrong.
fn boolean_of(flat: &FlatEvent) -> Option<bool>
    ensures value { IfSome result (λ value. flat.now ≡ record_of flat.now.kind (from_bool value) 0) }
    ensures wrong { result ≡ None → is_boolean_sound flat.now.number flat.now.size ≡ false }
{
    match (flat.size, flat.number) {
        (0, 0) => Some(false),
        (0, 1) => Some(true),
        _ => None,
    }
}

// Returns the integer of a record, or `None` if its numbers are wrong.
fn integer_of(flat: &FlatEvent) -> Option<Integer>
    requires { flat.now.kind ≡ 7 }
    ensures value { IfSome result (λ value. flat.now ≡ flat_integer value) }
    ensures wrong { result ≡ None → is_integer_sound flat.now.number flat.now.size ≡ false }
{
    if flat.size == 0 {
        return Some(Integer::from(flat.number));
    }
    if flat.size == 1 && flat.number >= 1 << 63 {
        return Some(Integer::from(flat.number.cast_signed()));
    }
    None
}

// Returns the real of a record, or `None` if its numbers are wrong.
fn real_of(flat: &FlatEvent) -> Option<RealBits>
    requires { flat.now.kind ≡ 8 }
    ensures value { IfSome result (λ bits. flat.now ≡ flat_real bits) }
    ensures wrong { result ≡ None → is_real_sound flat.now.number flat.now.size ≡ false }
{
    if flat.size == 8 {
        return Some(RealBits::Eight(flat.number.to_be_bytes()));
    }
    if flat.size == 4 && flat.number < 1 << 32 {
        return Some(RealBits::Four((flat.number as u32).to_be_bytes()));
    }
    None
}

// Returns the date of a record, or why it has none.
fn date_of(flat: &FlatEvent) -> Result<Date, Flaw>
    requires { flat.now.kind ≡ 6 }
    ensures date { IfOk result (λ date. flat.now ≡ flat_of 0 (ScalarEvent (DateScalar date))) }
    ensures flaw { (bytes : List ℕ) → IfErr result (HasFlaw bytes flat.now) }
{
    if flat.size != 0 || flat.number == 1 << 63 {
        return Err(Flaw::Number);
    }
    match Date::from_plist_real(flat.number.to_be_bytes()) {
        Ok(date) => Ok(date),
        Err(_) => Err(Flaw::Date),
    }
}

// Returns the string of a record, or why it has none.
fn text_of<'a>(flat: &FlatEvent, bytes: &'a [u8]) -> Result<&'a str, Flaw>
    requires { flat.now.kind ≡ 9 }
    ensures content { IfOk result (λ text. LiesAt bytes.now flat.now.number text.now) }
    ensures size { IfOk result (λ text. length text.now ≡ flat.now.size) }
    ensures utf8 { IfOk result (λ text. IsUtf8 text.now) }
    ensures flaw { IfErr result (HasFlaw bytes.now flat.now) }
{
    let Some(content) = content_of(flat, bytes) else {
        return Err(Flaw::Range);
    };
    match std::str::from_utf8(content) {
        Ok(text) => Ok(text),
        Err(_) => Err(Flaw::Text),
    }
}

/// Returns the event of a record, or why it is that of no event. Strings and data are borrowed.
pub(crate) fn event_of<'a>(flat: &FlatEvent, bytes: &'a [u8]) -> Result<Event<'a>, Flaw>
    ensures event { IfOk result (λ event. IsRecordOf bytes.now flat.now (plain_of event)) }
    ensures flaw { IfErr result (HasFlaw bytes.now flat.now) }
{
    match flat.kind {
        1 => match length_of(flat) {
            Some(length) => Ok(Event::StartArray(length)),
            None => Err(Flaw::Number),
        },
        2 => match length_of(flat) {
            Some(length) => Ok(Event::StartDictionary(length)),
            None => Err(Flaw::Number),
        },
        3 => match (flat.number, flat.size) {
            (0, 0) => Ok(Event::EndCollection),
            _ => Err(Flaw::Number),
        },
        4 => match boolean_of(flat) {
            Some(value) => Ok(Event::Boolean(value)),
            None => Err(Flaw::Number),
        },
        5 => match content_of(flat, bytes) {
            Some(content) => Ok(Event::Data(CowSlice::Borrowed(content))),
            None => Err(Flaw::Range),
        },
        6 => match date_of(flat) {
            Ok(date) => Ok(Event::Date(date)),
            Err(flaw) => Err(flaw),
        },
        7 => match integer_of(flat) {
            Some(value) => Ok(Event::Integer(value)),
            None => Err(Flaw::Number),
        },
        8 => match real_of(flat) {
            Some(bits) => Ok(Event::Real(bits)),
            None => Err(Flaw::Number),
        },
        9 => match text_of(flat, bytes) {
            Ok(text) => Ok(Event::String(CowStr::Borrowed(text))),
            Err(flaw) => Err(flaw),
        },
        10 => match flat.size {
            0 => Ok(Event::Uid(Uid::new(flat.number))),
            _ => Err(Flaw::Number),
        },
        _ => Err(Flaw::Kind),
    }
}
