//! The differences between two dictionaries, by key path.

use crate::text::text_of;
use plist::{Dictionary, Error, Value};
use std::alloc::Global;
use std::io::Write;

// Returns whether two arrays have the same items.
#[cycle(same)]
fn are_same_items(items: &[Value], others: &[Value]) -> bool {
    if items.len() != others.len() {
        return false;
    }
    for (item, other) in items.iter().zip(others.iter()) {
        if !is_same(item, other) {
            return false;
        }
    }
    true
}

// Returns whether two dictionaries have the same value at each key.
#[cycle(same)]
fn are_same_pairs(pairs: &Dictionary, others: &Dictionary) -> bool {
    if pairs.len() != others.len() {
        return false;
    }
    for (key, value) in pairs {
        match others.get(key.as_str()) {
            Some(other) if is_same(value, other) => {}
            _ => return false,
        }
    }
    true
}

// Returns whether two values are the same. Reals are compared as numbers, as in the Rust crate,
// while `==` compares their bytes.
#[cycle(same)]
fn is_same(value: &Value, other: &Value) -> bool {
    match (value, other) {
        (Value::Real(number), Value::Real(another)) => number.to_f64() == another.to_f64(),
        (Value::Array(items), Value::Array(others)) => are_same_items(items, others),
        (Value::Dictionary(pairs), Value::Dictionary(others)) => are_same_pairs(pairs, others),
        _ => value == other,
    }
}

// Prints a value that has changed.
fn print_changed<W: Write>(
    alloc: Global,
    out: &mut W,
    before: &Value,
    after: &Value,
    path: &str,
) -> Result<(), Error> {
    let old = text_of(alloc, before)?;
    let new = text_of(alloc, after)?;
    Ok(writeln!(out, "~ {path} {old} {new}")?)
}

// Prints how the value at a path has changed.
#[cycle(diff)]
fn diff_value<W: Write>(
    alloc: Global,
    out: &mut W,
    before: &Value,
    after: &Value,
    path: &str,
) -> Result<(), Error> {
    match (before, after) {
        (Value::Dictionary(old), Value::Dictionary(new)) => {
            let below = format!(in alloc; "{path}.")?;
            diff(alloc, out, old, new, below.as_str())
        }
        _ if is_same(before, after) => Ok(()),
        _ => print_changed(alloc, out, before, after, path),
    }
}

// Prints the keys of a dictionary that another one doesn't have.
fn print_added<W: Write>(
    out: &mut W,
    old: &Dictionary,
    new: &Dictionary,
    path: &str,
) -> Result<(), Error> {
    for key in new.keys() {
        if !old.contains_key(key.as_str()) {
            writeln!(out, "+ {path}{key}")?;
        }
    }
    Ok(())
}

/// Prints a line for every key that was removed, changed or added, also in nested dictionaries.
/// Every key is printed after `path`.
///
/// # Errors
///
/// `Io` if a line can't be printed, `OutOfMemory` if an allocation fails. Earlier lines have been
/// printed then.
#[cycle(diff)]
pub fn diff<W: Write>(
    alloc: Global,
    out: &mut W,
    old: &Dictionary,
    new: &Dictionary,
    path: &str,
) -> Result<(), Error> {
    for (key, before) in old {
        let at = format!(in alloc; "{path}{key}")?;
        match new.get(key.as_str()) {
            Some(after) => diff_value(alloc, out, before, after, at.as_str())?,
            None => writeln!(out, "- {at}")?,
        }
    }
    print_added(out, old, new, path)
}
