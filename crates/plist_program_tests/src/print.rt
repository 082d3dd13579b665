//! What `print_events` writes, and what it returns.

use crate::support::{broken_file, expect_taken, failing, is_done, must, same, sound};
use plist_commands::print_events;
use plist_support::{Device, DeviceFault, expect_io, front};
use std::io::ErrorKind;
use std::process::Abort;

// An array of two references to one string, `a`.
const TWO_TEXTS: &[u8] = b"bplist00\
    \xa2\x01\x01\x51\x61\x08\x0b\
    \0\0\0\0\0\0\x01\x01\0\0\0\0\0\0\0\x02\0\0\0\0\0\0\0\0\0\0\0\0\0\0\0\x0d";

const LINES: &[u8] = b"StartArray 2\nString \"a\"\nString \"a\"\nEndCollection\n";

// Forty arrays. Each of them contains the next one twice, and the last one contains an empty array
// twice. The file has 2^42 - 2 events.
const DOUBLING: &[u8] = b"bplist00\
    \xa2\x01\x01\xa2\x02\x02\xa2\x03\x03\xa2\x04\x04\xa2\x05\x05\
    \xa2\x06\x06\xa2\x07\x07\xa2\x08\x08\xa2\x09\x09\xa2\x0a\x0a\
    \xa2\x0b\x0b\xa2\x0c\x0c\xa2\x0d\x0d\xa2\x0e\x0e\xa2\x0f\x0f\
    \xa2\x10\x10\xa2\x11\x11\xa2\x12\x12\xa2\x13\x13\xa2\x14\x14\
    \xa2\x15\x15\xa2\x16\x16\xa2\x17\x17\xa2\x18\x18\xa2\x19\x19\
    \xa2\x1a\x1a\xa2\x1b\x1b\xa2\x1c\x1c\xa2\x1d\x1d\xa2\x1e\x1e\
    \xa2\x1f\x1f\xa2\x20\x20\xa2\x21\x21\xa2\x22\x22\xa2\x23\x23\
    \xa2\x24\x24\xa2\x25\x25\xa2\x26\x26\xa2\x27\x27\xa2\x28\x28\
    \xa0\x08\x0b\x0e\x11\x14\x17\x1a\x1d\x20\x23\x26\x29\x2c\x2f\x32\x35\x38\x3b\x3e\x41\
    \x44\x47\x4a\x4d\x50\x53\x56\x59\x5c\x5f\x62\x65\x68\x6b\x6e\x71\x74\x77\x7a\x7d\x80\
    \0\0\0\0\0\0\x01\x01\0\0\0\0\0\0\0\x29\0\0\0\0\0\0\0\0\0\0\0\0\0\0\0\x81";

// The lines of eight of these arrays, of which the last is cut.
const DOUBLING_LINES: &[u8] = b"StartArray 2\nStartArray 2\nStartArray 2\nStartArray 2\n\
    StartArray 2\nStartArray 2\nStartArray 2\nStartArr";

// The flush is last, after all lines were written, or after the failed write. A failed flush is an
// error.
#[test]
fn stops_where_the_writer_fails(rt: HostRuntime) {
    let end = LINES.len();
    for (file, fails_at, lines, calls, flushed) in [
        (TWO_TEXTS, 20, front(LINES, 20), 22, 20),
        (DOUBLING, 99, DOUBLING_LINES, 101, 99),
        (TWO_TEXTS, end as u64, LINES, end as u64 + 1, 0),
    ] {
        let mut writer = failing(&rt, fails_at, ErrorKind::TimedOut);
        let answer = print_events(rt.alloc(), file, &mut writer);
        must(&rt, expect_io(answer, ErrorKind::TimedOut, None));
        expect_taken(&rt, writer, lines, calls, flushed);
    }
    let mut writer = sound(&rt);
    must(&rt, print_events(rt.alloc(), TWO_TEXTS, &mut writer));
    same(&rt, "the lines in one write", &writer.longest, &end);
    expect_taken(&rt, writer, LINES, end as u64 + 1, end);
}

#[test]
fn a_fault_precedes_a_failed_flush(rt: HostRuntime) {
    let mut writer = failing(&rt, 0, ErrorKind::TimedOut);
    let text = b"not a property list at all, but some text".as_slice();
    let answer = print_events(rt.alloc(), text, &mut writer);
    let is_fault = answer.is_err_and(|error| !error.is_io());
    same(
        &rt,
        "a fault, and failures",
        &(is_fault, writer.failures),
        &(true, 1),
    );
    expect_taken(&rt, writer, b"", 1, 0);
}

#[test]
fn a_read_that_fails(rt: HostRuntime) {
    for call in 0..3 {
        let mut writer = sound(&rt);
        let answer = print_events(rt.alloc(), broken_file(&rt, call), &mut writer);
        must(&rt, expect_io(answer, ErrorKind::PermissionDenied, Some(0)));
        expect_taken(&rt, writer, b"", 1, 0);
    }
}

// If a read fails, the lines that are buffered by then are written. The last read is that of the
// second reference, after two lines.
#[test]
fn a_later_read_that_fails(rt: HostRuntime) {
    let mut sent = 0;
    for call in 0..200 {
        let bytes = must(&rt, Vec::from_slice(rt.alloc(), TWO_TEXTS));
        let device = Device::with_fault(bytes, call, DeviceFault::Fails(ErrorKind::TimedOut));
        let mut out = Vec::new(rt.alloc());
        let is_ok = is_done(print_events(rt.alloc(), device, &mut out));
        let wanted = if is_ok {
            LINES
        } else {
            front(LINES, out.len())
        };
        same(&rt, "the lines", &out.as_slice(), &wanted);
        if is_ok {
            break;
        }
        sent = out.len();
    }
    same(
        &rt,
        "the bytes sent",
        &sent,
        &b"StartArray 2\nString \"a\"\n".len(),
    );
}
