//! How `Reader` reads in windows, and how it ends.

use crate::support::{file_of_true, is_there, must, same, some, that};
use plist_base::{Error, OwnedEvent, Seeking};
use plist_reader::Reader;
use plist_support::{Device, DeviceFault, Disk, expect_io, words_of};
use std::io::ErrorKind;
use std::process::Abort;

// Checks that these bytes of a file are one string of this many letters, and that few calls read
// them.
fn expect_few_calls(rt: &(impl Abort + AllocGlobal), bytes: &[u8], length: usize) {
    let bytes = must(rt, Vec::from_slice(rt.alloc(), bytes));
    let mut disk = Disk::new(bytes, u64::MAX);
    let reader = Reader::new(rt.alloc(), Seeking::new(&mut disk));
    let found = must(rt, words_of(rt.alloc(), reader));
    let text = found.trim_matches('\'');
    same(
        rt,
        "the letters",
        &text.bytes().filter(|byte| *byte == b'a').count(),
        &length,
    );
    same(rt, "the length", &text.len(), &length);
    that(rt, "at most 20 calls, of", disk.calls, disk.calls <= 20);
}

#[test]
fn ascii_is_read_by_windows(rt: HostRuntime) {
    let mut bytes = [b'a'; 2000];
    expect_few_calls(&rt, &bytes, 2000);
    expect_few_calls(&rt, &bytes[..512], 512);
    bytes[0] = b'"';
    bytes[1999] = b'"';
    expect_few_calls(&rt, &bytes, 1998);
    bytes[0] = b'/';
    bytes[1] = b'/';
    bytes[1998] = b'\n';
    bytes[1999] = b'a';
    expect_few_calls(&rt, &bytes, 1);
}

// Returns the reader's first item, and how many items three more calls yield.
fn first_item(
    rt: &(impl Abort + AllocGlobal),
    device: &mut Device,
) -> (Option<Result<OwnedEvent, Error>>, u64) {
    let mut reader = Reader::new(rt.alloc(), device);
    let first = reader.next();
    let mut more = 0u64;
    for _ in 0..3 {
        if is_there(reader.next()) {
            more = more.saturating_add(1);
        }
    }
    drop(reader);
    (first, more)
}

// Checks that a device's error is passed on, that no item follows it, and that the failed call
// isn't tried again.
fn expect_handed_on(rt: &(impl Abort + AllocGlobal), bytes: &[u8], call: u64) {
    let bytes = must(rt, Vec::from_slice(rt.alloc(), bytes));
    let mut device = Device::with_fault(bytes, call, DeviceFault::Fails(ErrorKind::TimedOut));
    let (item, more) = first_item(rt, &mut device);
    let item = some(rt, "the item", item);
    must(rt, expect_io(item, ErrorKind::TimedOut, Some(device.place)));
    let wanted = (0, call.saturating_add(1));
    same(rt, "more items, and calls", &(more, device.calls), &wanted);
}

#[test]
fn errors_of_devices(rt: HostRuntime) {
    let truth = file_of_true(&rt);
    // The calls of the last two read the magic, the byte order mark, white space, and then the
    // text.
    for (bytes, calls) in [
        (b"bplist00".as_slice(), 0..1),
        (b"bplist00", 3..4),
        (truth.as_slice(), 12..13),
        (b"  'a'", 0..14),
        (b" <plist/>", 0..13),
    ] {
        for call in calls {
            expect_handed_on(&rt, bytes, call);
        }
    }
}
