//! Integers, Uids, reals, dates and data, each with its texts.

use crate::traits::{is_copy, is_debug, is_display, is_eq, is_error, is_hash, is_ord};
use plist_base::{
    Data, Date, Error, ErrorKind, Integer, InvalidInteger, InvalidXmlData, InvalidXmlDate,
    RealBits, Uid,
};
use std::alloc::Global;
use std::fmt;
use std::io::Write;

const NUMBERS: [&str; 7] = [
    "18446744073709551615",
    "18446744073709551616",
    "-9223372036854775809",
    "0x0x10",
    "+5",
    "0x",
    "",
];

const DATES: [&str; 5] = [
    "2001-01-01T00:00:00+01:00",
    "1900-02-29T00:00:00Z",
    "2000-01-01T23:59:60Z",
    "9999-12-31T23:59:59-00:01",
    "0000-01-01T00:00:00+00:01",
];

const REALS: [[u8; 8]; 3] = [
    [0xc1, 0xc2, 0x76, 0, 0x65, 0, 0, 0],
    [0x3f, 0xe0, 0, 0, 0, 0, 0, 0],
    [0x7f, 0xf0, 0, 0, 0, 0, 0, 0],
];

// Returns an integer of each primitive type.
pub fn integers() -> [Integer; 8] {
    [
        Integer::from(1_i64),
        Integer::from(1_i32),
        Integer::from(1_i16),
        Integer::from(1_i8),
        Integer::from(1_u64),
        Integer::from(1_u32),
        Integer::from(1_u16),
        Integer::from(1_u8),
    ]
}

pub fn integer_calls(number: Integer, text: &str) -> Result<Integer, InvalidInteger> {
    is_copy(number);
    is_eq(&number);
    is_ord(&number);
    is_hash(&number);
    is_debug(&number);
    is_display(&number);
    let _signed: Option<i64> = number.as_signed();
    let _unsigned: Option<u64> = number.as_unsigned();
    Integer::from_str(text)
}

pub fn invalid_integer(error: InvalidInteger) {
    is_copy(error);
    is_eq(&error);
    is_debug(&error);
    is_display(&error);
    let InvalidInteger = error;
}

pub fn uid_calls(uid: Uid) -> u64 {
    is_copy(uid);
    is_eq(&uid);
    is_hash(&uid);
    is_debug(&uid);
    let again: Uid = Uid::new(4);
    let _same: bool = again == uid;
    uid.get()
}

// Returns the bytes of a real as a big-endian number, by a match over its two widths.
pub fn bytes_of_real(bits: RealBits) -> u64 {
    is_copy(bits);
    is_eq(&bits);
    is_hash(&bits);
    is_debug(&bits);
    match bits {
        RealBits::Four(bytes) => u64::from(u32::from_be_bytes(bytes)),
        RealBits::Eight(bytes) => u64::from_be_bytes(bytes),
    }
}

pub fn date_calls(date: Date) -> Option<Date> {
    is_copy(date);
    is_eq(&date);
    is_hash(&date);
    is_debug(&date);
    let plist_second: i64 = date.plist_secs();
    let unix_second: i64 = date.unix_secs();
    let _second: Date = date.start_of_second();
    let bytes: [u8; 8] = date.to_plist_real();
    let _again: Result<Date, ErrorKind> = Date::from_plist_real(bytes);
    let _same: Option<Date> = Date::from_plist_secs(plist_second);
    Date::from_unix_secs(unix_second)
}

pub fn invalid_date(error: InvalidXmlDate) -> Error {
    is_debug(&error);
    is_display(&error);
    is_error(&error);
    Error::from(error)
}

// Parses the text of a date, and returns the text of that date.
pub fn date_again(alloc: Global, text: &str) -> Result<String, Error> {
    let read: Result<Date, InvalidXmlDate> = Date::from_xml_format(text);
    read?.to_xml_format(alloc)
}

// Returns the text of the date with these bytes.
pub fn date_of_bytes(alloc: Global, bytes: [u8; 8]) -> Result<String, Error> {
    match Date::from_plist_real(bytes) {
        Ok(date) => date.to_xml_format(alloc),
        Err(kind) => Err(kind.without_position()),
    }
}

pub fn data_calls(mut data: Data) -> Result<Data, Error> {
    is_eq(&data);
    is_debug(&data);
    let _bytes: &[u8] = data.as_ref();
    let _lent: &mut [u8] = data.as_mut();
    data.clone()
}

pub fn bytes_of_data(bytes: Vec<u8>) -> Vec<u8> {
    let data: Data = Data::from(bytes);
    Vec::from(data)
}

pub fn data_of_text(alloc: Global, text: &str) -> Result<Data, InvalidXmlData> {
    Data::from_xml_format(alloc, text)
}

pub fn invalid_data(error: InvalidXmlData) -> Option<plist_base::DecodeError> {
    is_debug(&error);
    is_display(&error);
    is_error(&error);
    match error {
        InvalidXmlData::Decode(fault) => Some(fault),
        InvalidXmlData::OutOfMemory => None,
    }
}

// Returns the text of data of this many zero bytes.
pub fn zeros(alloc: Global, count: usize) -> Result<String, Error> {
    let data: Data = Data::new(vec![in alloc; 0; count]?);
    data.to_xml_format(alloc)
}

// Prints the end of a line: what was found, or the error.
pub fn print_answer<W: Write, T: fmt::Display, E: fmt::Display>(
    out: &mut W,
    answer: &Result<T, E>,
) -> Result<(), Error> {
    let printed = match answer {
        Ok(found) => writeln!(out, ": {found}"),
        Err(error) => writeln!(out, ": {error}"),
    };
    Ok(printed?)
}

fn print_integers<W: Write>(out: &mut W) -> Result<(), Error> {
    for text in NUMBERS {
        write!(out, "integer {text:?}")?;
        print_answer(out, &Integer::from_str(text))?;
    }
    Ok(())
}

// Prints the end of a line: the text, or the error.
fn print_text<W: Write>(out: &mut W, answer: Result<String, Error>) -> Result<(), Error> {
    let printed = print_answer(out, &answer);
    drop(answer);
    printed
}

fn print_dates<W: Write>(alloc: Global, out: &mut W) -> Result<(), Error> {
    for text in DATES {
        write!(out, "date {text}")?;
        print_text(out, date_again(alloc, text))?;
    }
    for bytes in REALS {
        write!(out, "date of bytes")?;
        print_text(out, date_of_bytes(alloc, bytes))?;
    }
    Ok(())
}

pub fn print<W: Write>(alloc: Global, out: &mut W) -> Result<(), Error> {
    print_integers(out)?;
    print_dates(alloc, out)?;
    Ok(writeln!(out, "data:\n{}", zeros(alloc, 52)?)?)
}
