//! What is read under limits.

use crate::reading::expect;
use crate::rows::{Row, bytes_given, first_number, limits_given, unreadable};
use plist_base::Limits;
use plist_binread::BinaryReader;
use plist_support::{By, Wrong, expect_same};
use std::alloc::Global;

// Checks that these bytes have this many items.
fn expect_count(alloc: Global, limits: Limits, bytes: &[u8], count: &str) -> Result<(), Wrong> {
    let mut found: u64 = 0;
    for item in BinaryReader::with_limits(alloc, bytes, limits) {
        drop(item);
        found = found.saturating_add(1);
    }
    let found = format!(in alloc; "{found}")?;
    expect_same(alloc, found.as_str(), count)
}

// Checks the items within a budget of bytes, which precedes the file in the input.
fn expect_within(alloc: Global, limits: Limits, given: &str, items: &str) -> Result<(), Wrong> {
    let (most, rest) = first_number(alloc, given)?;
    let bytes = bytes_given(alloc, rest)?;
    expect(alloc, By::Within(limits, most), bytes.as_slice(), items)
}

fn run_check(alloc: Global, row: Row<'_>, limits: Limits, bytes: &[u8]) -> Result<(), Wrong> {
    match row.check {
        "limited" => expect(alloc, By::Limited(limits), bytes, row.wanted),
        "counted" => expect_count(alloc, limits, bytes, row.wanted),
        _ => unreadable(alloc, row.check),
    }
}

/// Runs an example of what is read under limits. The input consists of the limits and the bytes.
pub(crate) fn run(alloc: Global, row: Row<'_>) -> Result<(), Wrong> {
    let (limits, rest) = limits_given(alloc, row.given)?;
    if row.check == "within" {
        return expect_within(alloc, limits, rest, row.wanted);
    }
    let bytes = bytes_given(alloc, rest)?;
    run_check(alloc, row, limits, bytes.as_slice())
}
