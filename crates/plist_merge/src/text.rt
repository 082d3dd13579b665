//! How a value is printed.

use plist::{Date, Dictionary, ErrorKind, Value};
use std::alloc::{AllocError, Global};

// Returns the text of a date, or its second if it has no text, for example because of a fraction.
fn date_text(alloc: Global, date: Date) -> Result<String, AllocError> {
    match date.to_xml_format(alloc) {
        Ok(text) => Ok(text),
        Err(error) => match error.kind() {
            ErrorKind::OutOfMemory => Err(AllocError),
            _ => format!(in alloc; "second {}", date.unix_secs()),
        },
    }
}

// Adds a part after an opening bracket or another part.
fn add_part(text: &mut String, part: &str) -> Result<(), AllocError> {
    if text.len() > 1 {
        text.push_str(", ")?;
    }
    text.push_str(part)
}

// Adds the texts of an array's items.
#[cycle(text)]
fn add_items(alloc: Global, text: &mut String, items: &[Value]) -> Result<(), AllocError> {
    for item in items {
        let part = text_of(alloc, item)?;
        add_part(text, part.as_str())?;
    }
    text.push(')')
}

// Adds the keys of a dictionary.
fn add_keys(text: &mut String, pairs: &Dictionary) -> Result<(), AllocError> {
    for key in pairs.keys() {
        add_part(text, key.as_str())?;
    }
    text.push('}')
}

/// Returns the text of a value. The text of an array has its items, and the text of a dictionary
/// its keys.
///
/// # Errors
///
/// `AllocError` if an allocation fails.
#[cycle(text)]
pub fn text_of(alloc: Global, value: &Value) -> Result<String, AllocError> {
    match value {
        Value::Array(items) => {
            let mut text = String::from_str(alloc, "(")?;
            add_items(alloc, &mut text, items)?;
            Ok(text)
        }
        Value::Dictionary(pairs) => {
            let mut text = String::from_str(alloc, "{")?;
            add_keys(&mut text, pairs)?;
            Ok(text)
        }
        Value::Boolean(flag) => flag.to_string(alloc),
        Value::Data(bytes) => format!(in alloc; "<{} bytes>", bytes.len()),
        Value::Date(date) => date_text(alloc, *date),
        Value::Real(number) => format!(in alloc; "{:?}", number.to_f64()),
        Value::Integer(number) => number.to_string(alloc),
        Value::String(text) => format!(in alloc; "{text:?}"),
        Value::Uid(uid) => format!(in alloc; "object {}", uid.get()),
    }
}
