//! What is read from bytes, in memory and over devices.

use crate::rows::{Row, bytes_given, decoded, unreadable};
use plist_ascii::{AsciiReader, Dialect};
use plist_binread::BinaryReader;
use plist_support::{
    By, Device, Wrong, expect_bytes, expect_on_devices, expect_on_shrinking_devices, expect_same,
    expect_that, words_of, words_over,
};
use std::alloc::Global;

// Checks the items of these bytes, and of devices over them.
pub(crate) fn expect(alloc: Global, by: By, bytes: &[u8], items: &str) -> Result<(), Wrong> {
    let found = words_over(alloc, by, bytes, usize::MAX)?;
    expect_same(alloc, found.as_str(), items)?;
    expect_on_devices(alloc, by, bytes, items)
}

// Checks the items of a binary file, over sources that shrink, too.
fn expect_binary(alloc: Global, bytes: &[u8], items: &str) -> Result<(), Wrong> {
    expect(alloc, By::Binary, bytes, items)?;
    expect_on_shrinking_devices(alloc, bytes, items)
}

// Checks the items of a text, over a source that is read from its start on, too.
fn expect_ascii(alloc: Global, bytes: &[u8], items: &str) -> Result<(), Wrong> {
    expect(alloc, By::Ascii, bytes, items)?;
    expect_on_devices(alloc, By::Sequential, bytes, items)
}

// Checks the items of a text in the lax dialect, which is passed to the reader.
fn expect_lax(alloc: Global, bytes: &[u8], items: &str) -> Result<(), Wrong> {
    let reader = AsciiReader::with_dialect(alloc, bytes, Dialect::Lax);
    expect_same(alloc, words_of(alloc, reader)?.as_str(), items)?;
    expect_on_devices(alloc, By::Ascii, bytes, items)
}

// Checks the items of a binary file, and of a device that moves one byte per call.
fn expect_plain(alloc: Global, bytes: &[u8], items: &str) -> Result<(), Wrong> {
    let found = words_over(alloc, By::Binary, bytes, 1000)?;
    expect_same(alloc, found.as_str(), items)?;
    let mut device = Device::new(Vec::from_slice(alloc, bytes)?, u64::MAX);
    let found = words_over(alloc, By::Binary, &mut device, 1000)?;
    expect_same(alloc, found.as_str(), items)
}

// Checks that the first thousand items of a file begin with these.
fn expect_front(alloc: Global, bytes: &[u8], items: &str) -> Result<(), Wrong> {
    let found = words_of(alloc, BinaryReader::new(alloc, bytes).take(1000))?;
    expect_that(alloc, found.starts_with(items), found.as_str())
}

// Checks that after the first item of a text the inner reader has this rest.
fn expect_rest(alloc: Global, bytes: &[u8], rest: &str) -> Result<(), Wrong> {
    let mut reader = AsciiReader::new(alloc, bytes);
    let first = reader.next();
    let found = reader.into_inner();
    let has_first = first.is_some();
    drop(first);
    expect_bytes(alloc, found, rest.as_bytes())?;
    expect_that(alloc, has_first, "an item was yielded")
}

// Runs a check of what is read from bytes.
fn run_check(alloc: Global, check: &str, bytes: &[u8], wanted: &str) -> Result<(), Wrong> {
    match check {
        "binary" => expect_binary(alloc, bytes, wanted),
        "plain" => expect_plain(alloc, bytes, wanted),
        "front" => expect_front(alloc, bytes, wanted),
        "ascii" => expect_ascii(alloc, bytes, wanted),
        "lax" => expect_lax(alloc, bytes, wanted),
        "tight" => expect(alloc, By::Tight, bytes, wanted),
        "rest" => expect_rest(alloc, bytes, wanted),
        "either" => expect(alloc, By::Either, bytes, wanted),
        _ => unreadable(alloc, check),
    }
}

/// Runs an example of what is read.
pub(crate) fn run(alloc: Global, row: Row<'_>) -> Result<(), Wrong> {
    let bytes = bytes_given(alloc, row.given)?;
    let wanted = decoded(alloc, row.wanted)?;
    match str::from_utf8(wanted.as_slice()) {
        Ok(wanted) => run_check(alloc, row.check, bytes.as_slice(), wanted),
        Err(_) => unreadable(alloc, row.wanted),
    }
}
