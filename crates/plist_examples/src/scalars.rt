//! Integers, dates and data: their texts, and which texts are rejected.

ghost use Rattle.std.specs.Prelude.{◌≡◌, ◌↔◌, IsTrue};

use crate::rows::{Row, decoded, unreadable};
use hex::FromHex;
use plist_base::{Data, Date, Integer, InvalidInteger, InvalidXmlData};
use plist_support::{Wrong, bytes_of, expect_same};
use std::alloc::{AllocError, Global};

// Returns the number of a text, signed and unsigned.
fn integer_words(alloc: Global, text: &str) -> Result<String, AllocError> {
    match text.parse::<Integer>() {
        Ok(number) => {
            let (signed, unsigned) = (number.as_signed(), number.as_unsigned());
            format!(in alloc; "{signed:?} {unsigned:?}")
        }
        Err(InvalidInteger) => String::from_str(alloc, "none"),
    }
}

// Returns the second of a real's date, the real of that date, and whether it has a fraction.
fn real_words(alloc: Global, bytes: [u8; 8]) -> Result<String, AllocError> {
    match Date::from_plist_real(bytes) {
        Ok(date) => {
            let digits = hex::encode(alloc, date.to_plist_real())?;
            let (second, fraction) = (date.plist_secs(), date.has_fraction());
            format!(in alloc; "{second} {digits} {fraction}")
        }
        Err(kind) => kind.without_position().to_string(alloc),
    }
}

fn second_words(alloc: Global, date: Option<Date>) -> Result<String, AllocError> {
    match date {
        Some(date) => format!(in alloc; "{}", date.plist_secs()),
        None => String::from_str(alloc, "none"),
    }
}

// Returns whether two dates are equal, that is, whether their bytes are.
fn is_same(a: &Date, b: &Date) -> bool
    ensures { IsTrue result ↔ (a.now ≡ b.now) }
{
    *a == *b
}

// Returns the plist second of a Unix second's date, the Unix second of that date, and whether the
// date of that plist second is the same date.
fn unix_words(alloc: Global, unix: i64) -> Result<String, AllocError> {
    match Date::from_unix_secs(unix) {
        Some(date) => {
            let (second, again) = (date.plist_secs(), date.unix_secs());
            let is_again = match Date::from_plist_secs(second) {
                Some(other) => is_same(&other, &date),
                None => false,
            };
            format!(in alloc; "{second} {again} {is_again}")
        }
        None => String::from_str(alloc, "none"),
    }
}

// Returns the text of a date, which must be read back as that date, or the text of the error.
fn date_text(alloc: Global, date: &Date) -> Result<String, AllocError> {
    match date.to_xml_format(alloc) {
        Ok(written) => match Date::from_xml_format(written.as_str()) {
            Ok(read) if read == *date => Ok(written),
            _ => format!(in alloc; "{} isn't read back", written.as_str()),
        },
        Err(error) => error.to_string(alloc),
    }
}

// Parses a text as a date, and returns the second and the text of that date.
fn date_words(alloc: Global, text: &str) -> Result<String, AllocError> {
    match Date::from_xml_format(text) {
        Ok(date) => {
            let written = date_text(alloc, &date)?;
            format!(in alloc; "{} {}", date.plist_secs(), written.as_str())
        }
        Err(_) => String::from_str(alloc, "none"),
    }
}

// Returns the text of a real's date.
fn real_text(alloc: Global, bytes: [u8; 8]) -> Result<String, AllocError> {
    match Date::from_plist_real(bytes) {
        Ok(date) => date_text(alloc, &date),
        Err(_) => String::from_str(alloc, "none"),
    }
}

// Returns the text of the start of the second in which a real's date lies.
fn start_text(alloc: Global, bytes: [u8; 8]) -> Result<String, AllocError> {
    match Date::from_plist_real(bytes) {
        Ok(date) => date_text(alloc, &date.start_of_second()),
        Err(_) => String::from_str(alloc, "none"),
    }
}

// Returns the text of a second's date.
fn second_text(alloc: Global, second: i64) -> Result<String, AllocError> {
    match Date::from_plist_secs(second) {
        Some(date) => date_text(alloc, &date),
        None => String::from_str(alloc, "none"),
    }
}

// Parses a text as data, and returns its bytes in hexadecimal, or the text of the error.
fn data_words(alloc: Global, text: &str) -> Result<String, AllocError> {
    match Data::from_xml_format(alloc, text) {
        Ok(data) => hex::encode(alloc, data.as_ref()),
        Err(InvalidXmlData::OutOfMemory) => Err(AllocError),
        Err(refusal) => refusal.to_string(alloc),
    }
}

// Returns the text of data, which must be read back as that data.
fn data_text(alloc: Global, data: &Data) -> Result<String, AllocError> {
    match data.to_xml_format(alloc) {
        Ok(written) => match Data::from_xml_format(alloc, written.as_str()) {
            Ok(read) if read == *data => Ok(written),
            _ => format!(in alloc; "{} isn't read back", written.as_str()),
        },
        Err(error) => error.to_string(alloc),
    }
}

fn second_of(alloc: Global, given: &str) -> Result<i64, Wrong> {
    match given.parse::<i64>() {
        Ok(second) => Ok(second),
        Err(_) => unreadable(alloc, given),
    }
}

fn real_of(alloc: Global, given: &str) -> Result<[u8; 8], Wrong> {
    match <[u8; 8] as FromHex>::from_hex(given) {
        Ok(bytes) => Ok(bytes),
        Err(_) => unreadable(alloc, given),
    }
}

// Runs a check on a text, and returns what it finds.
fn words_found(alloc: Global, check: &str, text: &str) -> Result<String, Wrong> {
    let found = match check {
        "integer" => integer_words(alloc, text),
        "real" => real_words(alloc, real_of(alloc, text)?),
        "second" => second_words(alloc, Date::from_plist_secs(second_of(alloc, text)?)),
        "unix" => unix_words(alloc, second_of(alloc, text)?),
        "date" => date_words(alloc, text),
        "text of real" => real_text(alloc, real_of(alloc, text)?),
        "start of second" => start_text(alloc, real_of(alloc, text)?),
        "text of second" => second_text(alloc, second_of(alloc, text)?),
        "data" => data_words(alloc, text),
        "text of data" => data_text(alloc, &Data::new(bytes_of(alloc, text)?)),
        _ => return unreadable(alloc, check),
    };
    Ok(found?)
}

// Checks that the row's check finds `wanted` in a text.
fn run_check(alloc: Global, row: Row<'_>, text: &str, wanted: &str) -> Result<(), Wrong> {
    let found = words_found(alloc, row.check, text)?;
    expect_same(alloc, found.as_str(), wanted)
}

/// Runs an example of a scalar.
pub(crate) fn run(alloc: Global, row: Row<'_>) -> Result<(), Wrong> {
    let given = decoded(alloc, row.given)?;
    let wanted = decoded(alloc, row.wanted)?;
    match (
        str::from_utf8(given.as_slice()),
        str::from_utf8(wanted.as_slice()),
    ) {
        (Ok(text), Ok(wanted)) => run_check(alloc, row, text, wanted),
        _ => unreadable(alloc, row.given),
    }
}
