//! Values in files.

use crate::values::read;
use crate::writers::print_bytes;
use plist::{Limits, Value};
use plist_base::Error;
use std::alloc::Global;
use std::fs;
use std::io::Write;
use std::rt::Files;

pub fn stored<R: Files>(rt: &R, alloc: Global, value: &Value, path: &str) -> Result<(), Error> {
    value.to_file_binary(rt, alloc, path)
}

pub fn loaded<R: Files>(rt: &R, alloc: Global, path: &str) -> Result<Value, Error> {
    Value::from_file(rt, alloc, path)
}

pub fn loaded_within<R: Files>(rt: &R, alloc: Global, path: &str) -> Result<Value, Error> {
    Value::from_file_within(rt, alloc, path, Limits { depth: 1, items: 9 }, 1)
}

fn print_file<R: Files + AllocGlobal, W: Write>(rt: &R, out: &mut W) -> Result<(), Error> {
    let bytes = fs::read(rt, "written.plist")?;
    print_bytes(out, "{k = k;}", bytes.as_slice())
}

// Prints whether the value of the file is this one.
fn print_equality<R: Files, W: Write>(
    rt: &R,
    alloc: Global,
    out: &mut W,
    value: &Value,
) -> Result<(), Error> {
    let again = loaded(rt, alloc, "written.plist")?;
    let same = again == *value;
    drop(again);
    Ok(writeln!(out, "read again: {same}")?)
}

// Prints the error for a file whose strings have more bytes than the budget.
fn print_too_long<R: Files, W: Write>(rt: &R, alloc: Global, out: &mut W) -> Result<(), Error> {
    match loaded_within(rt, alloc, "written.plist") {
        Ok(value) => {
            drop(value);
            Ok(())
        }
        Err(error) => Ok(writeln!(out, "within one byte: {error}")?),
    }
}

// Prints the error for a missing file.
fn print_missing<R: Files, W: Write>(rt: &R, alloc: Global, out: &mut W) -> Result<(), Error> {
    match loaded(rt, alloc, "missing.plist") {
        Ok(value) => {
            drop(value);
            Ok(())
        }
        Err(error) => Ok(writeln!(out, "missing: {error}")?),
    }
}

// Stores a value in a file, and prints what the file contains.
fn print_stored<R: Files + AllocGlobal, W: Write>(
    rt: &R,
    alloc: Global,
    out: &mut W,
    value: &Value,
) -> Result<(), Error> {
    stored(rt, alloc, value, "written.plist")?;
    print_file(rt, out)?;
    print_equality(rt, alloc, out, value)
}

pub fn print<R: Files + AllocGlobal, W: Write>(
    rt: &R,
    alloc: Global,
    out: &mut W,
) -> Result<(), Error> {
    let text: &[u8] = b"{k = k;}";
    let value = read(alloc, text)?;
    let printed = print_stored(rt, alloc, out, &value);
    drop(value);
    printed?;
    print_too_long(rt, alloc, out)?;
    print_missing(rt, alloc, out)
}
