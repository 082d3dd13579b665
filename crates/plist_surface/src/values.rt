//! Values: their nine kinds, the conversions into them, and how they are read and written.

use crate::events::print_items;
use crate::scalars::print_answer;
use crate::traits::{is_debug, is_eq};
use crate::writers::{built, print_bytes};
use plist::{Dictionary, Events, Value, kind_of_value, write_value};
use plist_ascii::Dialect;
use plist_base::{Date, Error, Event, EventKind, Integer, RealBits, Source, Uid, Writer};
use plist_binread::Limits;
use std::alloc::Global;
use std::io::{Read, Write};

// Returns the kind of a value, by a match over all kinds.
pub fn kind_of(value: &Value) -> EventKind {
    match value {
        Value::Array(items) => {
            let _items: &Vec<Value> = items;
            EventKind::StartArray
        }
        Value::Dictionary(pairs) => {
            let _pairs: &Dictionary = pairs;
            EventKind::StartDictionary
        }
        Value::Boolean(flag) => {
            let _flag: &bool = flag;
            EventKind::Boolean
        }
        Value::Data(bytes) => {
            let _bytes: &Vec<u8> = bytes;
            EventKind::Data
        }
        Value::Date(date) => {
            let _date: &Date = date;
            EventKind::Date
        }
        Value::Real(bits) => {
            let _bits: &RealBits = bits;
            EventKind::Real
        }
        Value::Integer(number) => {
            let _number: &Integer = number;
            EventKind::Integer
        }
        Value::String(text) => {
            let _text: &String = text;
            EventKind::String
        }
        Value::Uid(uid) => {
            let _uid: &Uid = uid;
            EventKind::Uid
        }
    }
}

pub fn is_true(value: Value) -> bool {
    matches!(value, Value::Boolean(true))
}

pub fn text_in(value: Result<Value, Error>) -> Option<String> {
    if let Ok(Value::String(text)) = value {
        return Some(text);
    }
    None
}

pub fn lent(value: &Value) {
    is_debug(value);
    is_eq(value);
    let _array: Option<&Vec<Value>> = value.as_array();
    let _dictionary: Option<&Dictionary> = value.as_dictionary();
    let _boolean: Option<bool> = value.as_boolean();
    let _bytes: Option<&[u8]> = value.as_data();
    let _date: Option<Date> = value.as_date();
    let _real: Option<RealBits> = value.as_real();
    let _signed: Option<i64> = value.as_signed_integer();
    let _unsigned: Option<u64> = value.as_unsigned_integer();
    let _text: Option<&str> = value.as_string();
    let _uid: Option<&Uid> = value.as_uid();
    let _kind: EventKind = kind_of_value(value);
}

pub fn lent_mut(value: &mut Value) {
    let _array: Option<&mut Vec<Value>> = value.as_array_mut();
    let _dictionary: Option<&mut Dictionary> = value.as_dictionary_mut();
}

pub fn array_of(value: Value) -> Option<Vec<Value>> {
    value.into_array()
}

pub fn dictionary_of(value: Value) -> Option<Dictionary> {
    value.into_dictionary()
}

pub fn data_of(value: Value) -> Option<Vec<u8>> {
    value.into_data()
}

pub fn string_of(value: Value) -> Option<String> {
    value.into_string()
}

pub fn uid_of(value: Value) -> Option<Uid> {
    value.into_uid()
}

pub fn of_array(items: Vec<Value>) -> Value {
    Value::from(items)
}

pub fn of_dictionary(pairs: Dictionary) -> Value {
    Value::from(pairs)
}

pub fn of_string(text: String) -> Value {
    Value::from(text)
}

pub fn of_scalars(flag: bool, date: Date) -> [Value; 4] {
    [
        Value::from(flag),
        Value::from(&flag),
        Value::from(date),
        Value::from(&date),
    ]
}

pub fn of_numbers() -> [Value; 8] {
    [
        Value::from(1_i64),
        Value::from(1_i32),
        Value::from(1_i16),
        Value::from(1_i8),
        Value::from(1_u64),
        Value::from(1_u32),
        Value::from(1_u16),
        Value::from(1_u8),
    ]
}

pub fn of_lent_numbers() -> [Value; 8] {
    [
        Value::from(&1_i64),
        Value::from(&1_i32),
        Value::from(&1_i16),
        Value::from(&1_i8),
        Value::from(&1_u64),
        Value::from(&1_u32),
        Value::from(&1_u16),
        Value::from(&1_u8),
    ]
}

pub fn read<R: Source>(alloc: Global, source: R) -> Result<Value, Error> {
    Value::from_reader(alloc, source)
}

pub fn read_within<R: Source>(alloc: Global, source: R) -> Result<Value, Error> {
    Value::from_reader_with_limits(alloc, source, Limits { depth: 2, items: 5 })
}

pub fn read_ascii<R: Read + Drop>(alloc: Global, reader: R) -> Result<Value, Error> {
    Value::from_reader_ascii(alloc, reader)
}

pub fn read_tight<R: Read + Drop>(alloc: Global, reader: R) -> Result<Value, Error> {
    Value::from_reader_ascii_with_dialect(alloc, reader, Dialect::Tight)
}

pub fn again(alloc: Global, value: &Value) -> Result<Value, Error> {
    let events: Events<'_> = value.events(alloc);
    Value::from_events(alloc, events)
}

pub fn first_event(alloc: Global, value: &Value) -> Option<Result<Event<'_>, Error>> {
    let mut events: Events<'_> = value.events(alloc);
    events.next()
}

pub fn written<W: Write>(alloc: Global, value: &Value, out: &mut W) -> Result<(), Error> {
    value.to_writer_binary(alloc, out)
}

pub fn sent<W: Writer>(alloc: Global, value: &Value, writer: &mut W) -> Result<(), Error> {
    write_value(alloc, value, writer)
}

pub fn copied(alloc: Global, value: &Value) -> Result<Value, Error> {
    value.clone(alloc)
}

pub fn of_text(alloc: Global, text: &str) -> Result<Value, Error> {
    Value::try_from_str(alloc, text)
}

fn described(_value: Value) -> &'static str {
    "a value"
}

// Prints the result of reading an ASCII property list under limits.
fn print_within<W: Write>(alloc: Global, out: &mut W, limits: Limits) -> Result<(), Error> {
    let text: &[u8] = b"((a))";
    write!(out, "((a)) within depth {}", limits.depth)?;
    let answer = Value::from_reader_with_limits(alloc, text, limits);
    print_answer(out, &answer.map(described))
}

// Returns the file of a value.
fn file_of(alloc: Global, value: Value) -> Result<Vec<u8>, Error> {
    let mut file = Vec::new(alloc);
    let done = written(alloc, &value, &mut file);
    drop(value);
    done?;
    Ok(file)
}

// Prints the bytes of a value's file.
fn print_file<W: Write>(alloc: Global, out: &mut W, name: &str, value: Value) -> Result<(), Error> {
    let file = file_of(alloc, value)?;
    print_bytes(out, name, file.as_slice())
}

pub fn print<W: Write>(alloc: Global, out: &mut W) -> Result<(), Error> {
    let file = file_of(alloc, built(alloc)?)?;
    print_items(out, "built", plist::Reader::new(alloc, file))?;
    let row: &[u8] = b"(a, a)";
    print_file(alloc, out, "(a, a)", read(alloc, row)?)?;
    print_within(alloc, out, Limits { depth: 1, items: 9 })?;
    print_within(alloc, out, Limits { depth: 2, items: 5 })
}
