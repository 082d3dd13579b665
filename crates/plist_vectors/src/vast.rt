//! A file that doesn't fit into any memory.

ghost use Rattle.std.specs.Prelude.{None};

use crate::support::{expect_value, must, same};
use plist::Value;
use plist_base::{Limits, Source};
use plist_binread::BinaryReader;
use plist_support::words_of;
use std::io;

// The magic, and the beginning of data of 2^62 bytes.
const FRONT: &[u8; 18] = b"bplist00\x4f\x13\x40\0\0\0\0\0\0\0";

// The table, and a trailer with one object.
const BACK: &[u8; 33] =
    b"\x08\0\0\0\0\0\0\x01\x01\0\0\0\0\0\0\0\x01\0\0\0\0\0\0\0\0\x40\0\0\0\0\0\0\x12";

// The offset of the table.
const TABLE: u64 = (1 << 62) + 18;

/// A file of data whose bytes are all zero.
#[derive(Drop)]
struct Vast;

// Returns the byte at an offset.
fn byte_at(place: u64) -> Option<u8> {
    if place >= TABLE {
        return BACK.get((place - TABLE) as usize).copied();
    }
    Some(FRONT.get(place as usize).copied().unwrap_or(0))
}

impl Source for Vast {
    ghost known = { λ _. None };

    ghost failures = { λ _. 0 };

    fn size(&mut self) -> Result<u64, io::Error> {
        Ok(TABLE + BACK.len() as u64)
    }

    fn read_at(&mut self, place: u64, buf: &mut [u8]) -> Result<usize, io::Error> {
        if buf.is_empty() {
            return Ok(0);
        }
        match byte_at(place) {
            Some(byte) => {
                buf[0] = byte;
                Ok(1)
            }
            None => Ok(0),
        }
    }
}

// A reader ends at data for which there is no memory, and no value is read, even under limits that
// allow the data.
#[test]
fn ends_where_no_memory_is_found(rt: HostRuntime) {
    let limits = Limits { depth: 9, items: 9 };
    let limited = BinaryReader::with_limits(rt.alloc(), Vast, limits);
    let found = must(&rt, words_of(rt.alloc(), limited));
    same(&rt, "the items", &found.as_str(), &"OutOfMemory");
    let found = Value::from_reader_within(rt.alloc(), Vast, limits, 1 << 20);
    expect_value(&rt, found, "OutOfMemory");
    expect_value(&rt, Value::from_reader(rt.alloc(), Vast), "OutOfMemory");
}
