//! What readers yield over devices that move one byte per call, fail at each call in turn, or
//! shrink.

use crate::device::{Device, DeviceFault, expect_cut};
use crate::words::words_of;
use crate::wrong::{Wrong, fail};
use plist_ascii::{AsciiReader, Dialect};
use plist_base::{LimitedItems, Limits, Sequential, Source};
use plist_binread::BinaryReader;
use plist_reader::Reader;
use std::alloc::{AllocError, Global};
use std::io::{ErrorKind, Read};

/// Which reader is called.
#[derive(Clone, Copy)]
pub enum By {
    /// The binary reader.
    Binary,
    /// The binary reader under limits.
    Limited(Limits),
    /// The binary reader under limits, and within a budget of bytes for strings and data.
    Within(Limits, u64),
    /// The ASCII reader in the lax dialect.
    Ascii,
    /// The ASCII reader in the tight dialect.
    Tight,
    /// The ASCII reader over a [`Sequential`], which reads the source from its start on.
    Sequential,
    /// The reader of either format, which the first bytes determine.
    Either,
}

// Which reader reads which bytes.
#[derive(Clone, Copy)]
struct Reading<'a> {
    by: By,
    bytes: &'a [u8],
}

// Each example that is read from failing devices has fewer items than this.
const MAX_ITEMS: usize = 100;

/// Returns the words of the items of a source, up to the given number.
pub fn words_over<S: Source + Read>(
    alloc: Global,
    by: By,
    source: S,
    most: usize,
) -> Result<String, AllocError> {
    match by {
        By::Binary => words_of(alloc, BinaryReader::new(alloc, source).take(most)),
        By::Limited(limits) => {
            let reader = BinaryReader::with_limits(alloc, source, limits);
            words_of(alloc, reader.take(most))
        }
        By::Within(limits, bytes) => {
            let reader = BinaryReader::with_limits(alloc, source, limits);
            words_of(alloc, LimitedItems::within_bytes(reader, bytes).take(most))
        }
        By::Ascii => words_of(alloc, AsciiReader::new(alloc, source).take(most)),
        By::Tight => {
            let reader = AsciiReader::with_dialect(alloc, source, Dialect::Tight);
            words_of(alloc, reader.take(most))
        }
        By::Sequential => {
            let reader = AsciiReader::new(alloc, Sequential::new(source));
            words_of(alloc, reader.take(most))
        }
        By::Either => words_of(alloc, Reader::new(alloc, source).take(most)),
    }
}

fn device_of(
    alloc: Global,
    bytes: &[u8],
    call: u64,
    fault: DeviceFault,
) -> Result<Device, AllocError> {
    Ok(Device::with_fault(Vec::from_slice(alloc, bytes)?, call, fault))
}

const INTERRUPTED: DeviceFault = DeviceFault::Fails(ErrorKind::Interrupted);

// Calls a reader for up to this many items over a device that fails at this call. Returns the words
// of the items, and the device.
fn run_over(
    alloc: Global,
    reading: Reading<'_>,
    most: usize,
    fails_at: u64,
) -> Result<(String, Device), AllocError> {
    let mut device = device_of(alloc, reading.bytes, fails_at, INTERRUPTED)?;
    let found = words_over(alloc, reading.by, &mut device, most)?;
    Ok((found, device))
}

// Checks what is yielded if this call fails. The call is made for the item that follows the items
// `before`. `Io`, with the offset of the read, replaces that item, and no item follows.
fn expect_failure(
    alloc: Global,
    reading: Reading<'_>,
    before: &str,
    most: usize,
    call: u64,
) -> Result<(), Wrong> {
    let (found, device) = run_over(alloc, reading, most, call)?;
    expect_cut(alloc, &device, found.as_str(), before)?;
    let (all, device) = run_over(alloc, reading, usize::MAX, call)?;
    if all.as_str() != found.as_str() || device.calls != call.saturating_add(1) {
        let calls = device.calls;
        return fail(format!(in alloc; "call {call} of {calls}: {found}, and then {all}"));
    }
    Ok(())
}

// Calls a reader for up to this many items, and returns their words and how many calls of the
// device were made.
fn calls_over(
    alloc: Global,
    reading: Reading<'_>,
    most: usize,
) -> Result<(String, u64), AllocError> {
    let (found, device) = run_over(alloc, reading, most, u64::MAX)?;
    Ok((found, device.calls))
}

/// Checks that the given items are read from a device that moves one byte per call, and that the
/// failure of a call replaces the item for which the call was made.
pub fn expect_on_devices(alloc: Global, by: By, bytes: &[u8], items: &str) -> Result<(), Wrong> {
    let reading = Reading { by, bytes };
    let (mut before, mut made) = calls_over(alloc, reading, 0)?;
    for most in 1..MAX_ITEMS {
        let (found, calls) = calls_over(alloc, reading, most)?;
        for call in made..calls {
            expect_failure(alloc, reading, before.as_str(), most, call)?;
        }
        if found.as_str() == before.as_str() {
            if found.as_str() != items {
                return fail(format!(in alloc; "{found} instead of {items}"));
            }
            return Ok(());
        }
        (before, made) = (found, calls);
    }
    fail(format!(in alloc; "more than {MAX_ITEMS} items"))
}

// Checks what is yielded if the source has only `left` bytes from its second call on: these items,
// or a prefix of them and then `UnexpectedEof`, with the offset of the last call.
fn expect_shrunk(alloc: Global, bytes: &[u8], items: &str, left: usize) -> Result<(), Wrong> {
    let mut device = device_of(alloc, bytes, 1, DeviceFault::Shrinks(left))?;
    let found = words_over(alloc, By::Binary, &mut device, usize::MAX)?;
    if found.as_str() == items {
        return Ok(());
    }
    let fault = format!(in alloc; "UnexpectedEof (offset {})", device.place)?;
    match found.strip_suffix(fault.as_str()) {
        Some(before) if items.starts_with(before.trim_end()) => Ok(()),
        _ => fail(format!(in alloc; "with {left} bytes left: {found} instead of {fault}")),
    }
}

// Checks that the reader of either format yields the items of the first bytes if the source has
// only these from its second call on. The magic must be among them. By the second call only the
// format is being determined, so the reader sees the shorter size.
fn expect_front(alloc: Global, bytes: &[u8], front: &[u8]) -> Result<(), Wrong> {
    let mut device = device_of(alloc, bytes, 1, DeviceFault::Shrinks(front.len()))?;
    let found = words_over(alloc, By::Either, &mut device, usize::MAX)?;
    let wanted = words_over(alloc, By::Binary, front, usize::MAX)?;
    if found.as_str() == wanted.as_str() {
        return Ok(());
    }
    fail(format!(in alloc; "of the front: {found} instead of {wanted}"))
}

/// Checks what is read if the source shrinks to any length at its second call: the binary reader
/// yields the given items, or a prefix of them and `UnexpectedEof`. If the magic remains, the
/// reader of either format yields the items of the bytes that remain.
pub fn expect_on_shrinking_devices(alloc: Global, bytes: &[u8], items: &str) -> Result<(), Wrong> {
    for left in 0..bytes.len() {
        expect_shrunk(alloc, bytes, items, left)?;
        if left >= 8 && bytes.starts_with(b"bplist00") {
            expect_front(alloc, bytes, &bytes[..left])?;
        }
    }
    Ok(())
}
