//! Imports all names of `plist::stream` and of `plist::dictionary` beside a trait of the standard
//! library. A call of that trait's method is not ambiguous.

use plist::dictionary::*;
use plist::stream::*;
use std::alloc::Global;
use std::io::BufRead;

pub fn skip(mut bytes: &[u8]) -> &[u8] {
    bytes.consume(0);
    bytes
}

pub fn reader_of(alloc: Global, bytes: &[u8]) -> Reader<&[u8]> {
    Reader::new(alloc, bytes)
}

pub fn is_vacant(entry: &Entry<'_>) -> bool {
    matches!(entry, Entry::Vacant(_))
}
