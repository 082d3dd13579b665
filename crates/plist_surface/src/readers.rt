//! Readers: of binary files, of ASCII, of either, with limits and dialects.

use crate::events::print_items;
use crate::traits::{is_copy, is_debug, is_eq};
use plist::Reader;
use plist_ascii::{AsciiReader, Dialect};
use plist_base::{Error, OwnedEvent, Source};
use plist_binread::{BinaryReader, Limits};
use std::alloc::Global;
use std::io::{Read, Write};

// An array that contains one array twice, which contains an empty array twice.
pub const SHARED: &[u8] = b"bplist00\xa2\x01\x01\xa2\x02\x02\xa0\x08\x0b\x0e\0\0\0\0\0\0\x01\x01\
    \0\0\0\0\0\0\0\x03\0\0\0\0\0\0\0\0\0\0\0\0\0\0\0\x0f";

// An array that contains itself.
const RECURSIVE: &[u8] = b"bplist00\xa1\0\x08\0\0\0\0\0\0\x01\x01\
    \0\0\0\0\0\0\0\x01\0\0\0\0\0\0\0\0\0\0\0\0\0\0\0\x0a";

const TEXTS: [&str; 6] = [
    "/abc",
    "{a=b}",
    "(a\n)",
    "\"\\U+123\"",
    "\"\\UD83D\\UDCA9\"",
    "/*/",
];

const INPUTS: [&str; 3] = ["", "{}", " <plist/>"];

pub fn binary_items<R: Source>(alloc: Global, source: R) -> Option<Result<OwnedEvent, Error>> {
    let mut reader: BinaryReader<R> = BinaryReader::new(alloc, source);
    reader.next()
}

pub fn counted_objects<R: Source>(binary: &BinaryReader<R>, either: &Reader<R>) -> (usize, usize) {
    (binary.objects_in_file(), either.objects_in_file())
}

pub fn limit_calls(limits: Limits) -> (u64, u64) {
    is_copy(limits);
    is_eq(&limits);
    is_debug(&limits);
    let Limits { depth, items } = limits;
    (depth, items)
}

pub fn is_lax(dialect: Dialect) -> bool {
    is_copy(dialect);
    is_eq(&dialect);
    is_debug(&dialect);
    match dialect {
        Dialect::Lax => true,
        Dialect::Tight => false,
    }
}

pub fn inner_of_ascii<R: Read + Drop>(alloc: Global, inner: R) -> R {
    let mut reader: AsciiReader<R> = AsciiReader::new(alloc, inner);
    let _item: Option<Result<OwnedEvent, Error>> = reader.next();
    reader.into_inner()
}

// Prints the items within these limits, which the name states.
fn print_within<W: Write>(
    alloc: Global,
    out: &mut W,
    name: &str,
    limits: Limits,
) -> Result<(), Error> {
    print_items(out, name, BinaryReader::with_limits(alloc, SHARED, limits))
}

fn print_limited<W: Write>(alloc: Global, out: &mut W) -> Result<(), Error> {
    let all: Limits = Limits {
        depth: 3,
        items: 14,
    };
    print_within(alloc, out, "3 14", all)?;
    let fewer = Limits {
        depth: 3,
        items: 13,
    };
    print_within(alloc, out, "3 13", fewer)?;
    let flat = Limits {
        depth: 2,
        items: 100,
    };
    print_within(alloc, out, "2 100", flat)?;
    print_within(alloc, out, "2 2", Limits { depth: 2, items: 2 })
}

// Prints the items of a text in both dialects.
fn print_text<W: Write>(alloc: Global, out: &mut W, text: &str) -> Result<(), Error> {
    print_items(out, "lax", AsciiReader::new(alloc, text.as_bytes()))?;
    let tight = AsciiReader::with_dialect(alloc, text.as_bytes(), Dialect::Tight);
    print_items(out, "tight", tight)
}

pub fn print<W: Write>(alloc: Global, out: &mut W) -> Result<(), Error> {
    print_items(out, "shared", BinaryReader::new(alloc, SHARED))?;
    print_items(out, "recursive", BinaryReader::new(alloc, RECURSIVE))?;
    print_limited(alloc, out)?;
    for text in TEXTS {
        print_text(alloc, out, text)?;
    }
    for input in INPUTS {
        print_items(out, "either", Reader::new(alloc, input.as_bytes()))?;
    }
    Ok(())
}
