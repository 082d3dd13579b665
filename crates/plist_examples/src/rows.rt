//! The rows of a table: a check, the name of the example, the input and the expected output,
//! separated by ` | `. If there is no name, the input is the name.
//!
//! `%0a` stands for the byte 0A in texts and, for the checks of the modules `reading` and
//! `scalars`, in the expected output.

use percent_encoding::percent_decode;
use plist_base::Limits;
use plist_support::{Wrong, bytes_of, fail, file, file_of_object};
use std::alloc::Global;

/// An example.
#[derive(Clone, Copy)]
pub(crate) struct Row<'a> {
    pub check: &'a str,
    pub name: &'a str,
    pub given: &'a str,
    pub wanted: &'a str,
}

// Returns the example of a line, or `None` if the line has fewer than three fields.
pub(crate) fn row_of(line: &str) -> Option<Row<'_>> {
    let (check, rest) = line.split_once('|')?;
    let (name, rest) = rest.split_once('|')?;
    let (given, wanted) = rest.split_once('|').unwrap_or((name, rest));
    Some(Row {
        check: check.trim(),
        name: name.trim(),
        given: given.trim(),
        wanted: wanted.trim(),
    })
}

// Fails because a row can't be read.
pub(crate) fn unreadable<T>(alloc: Global, text: &str) -> Result<T, Wrong> {
    fail(format!(in alloc; "unreadable: {text}"))
}

// Returns the bytes of a text.
pub(crate) fn decoded(alloc: Global, text: &str) -> Result<Vec<u8>, Wrong> {
    let mut bytes = Vec::new(alloc);
    percent_decode(text.as_bytes()).append_to(&mut bytes)?;
    Ok(bytes)
}

// Returns the first word of a text, and what follows it.
pub(crate) fn first_word(text: &str) -> (&str, &str) {
    text.split_once(' ').unwrap_or((text, ""))
}

// Returns the first number of a text, and what follows it.
pub(crate) fn first_number(alloc: Global, text: &str) -> Result<(u64, &str), Wrong> {
    let (first, rest) = first_word(text);
    match first.parse::<u64>() {
        Ok(number) => Ok((number, rest)),
        Err(_) => unreadable(alloc, text),
    }
}

// Returns the first number of a text, as a byte, and what follows it.
fn first_byte(alloc: Global, text: &str) -> Result<(u8, &str), Wrong> {
    let (number, rest) = first_number(alloc, text)?;
    match u8::try_from(number) {
        Ok(byte) => Ok((byte, rest)),
        Err(_) => unreadable(alloc, text),
    }
}

// Makes a file of its parts. The text has the objects with their offset table, then a slash, and
// then the numbers of the trailer: both widths, the number of objects, the root, and the offset of
// the table.
fn file_given(alloc: Global, text: &str) -> Result<Vec<u8>, Wrong> {
    let Some((body, numbers)) = text.split_once('/') else {
        return unreadable(alloc, text);
    };
    let (offset_width, rest) = first_byte(alloc, numbers.trim())?;
    let (width, rest) = first_byte(alloc, rest)?;
    let (count, rest) = first_number(alloc, rest)?;
    let (root, rest) = first_number(alloc, rest)?;
    let (table, _) = first_number(alloc, rest)?;
    let widths = [offset_width, width];
    file(alloc, body.trim(), widths, [count, root, table])
}

// Returns the bytes of an input. Its first word says what follows: a text, bytes in hexadecimal, an
// object, whose file is returned, or the parts of a file.
pub(crate) fn bytes_given(alloc: Global, given: &str) -> Result<Vec<u8>, Wrong> {
    let (form, rest) = first_word(given);
    match form {
        "text" => decoded(alloc, rest),
        "bytes" => bytes_of(alloc, rest),
        "object" => file_of_object(alloc, rest),
        "file" => file_given(alloc, rest),
        _ => unreadable(alloc, given),
    }
}

// Returns the depth and the items of limits that are written as in a program, and what follows
// them.
fn parts_of_limits(text: &str) -> Option<(&str, &str, &str)> {
    let (depth, rest) = text
        .strip_prefix("Limits { depth: ")?
        .split_once(", items: ")?;
    let (items, rest) = rest.split_once(" } ")?;
    Some((depth, items, rest))
}

// Returns the limits of an input, and what follows them.
pub(crate) fn limits_given(alloc: Global, given: &str) -> Result<(Limits, &str), Wrong> {
    let Some((depth, items, rest)) = parts_of_limits(given) else {
        return unreadable(alloc, given);
    };
    let (depth, _) = first_number(alloc, depth)?;
    let (items, _) = first_number(alloc, items)?;
    Ok((Limits { depth, items }, rest))
}
