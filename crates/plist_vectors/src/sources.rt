//! Sources over a file: which bytes they return, how often they call the file, and what they do
//! after a failed or a short read.

use crate::support::{must, same, same_at, that};
use plist_base::{Seeking, Source, read_exact_at};
use plist_binread::BinaryReader;
use plist_support::{DEVICE_MESSAGE, Device, Disk, expect_io, file, words_of};
use std::io::{Cursor, ErrorKind, Read};
use std::process::Abort;

// Returns the byte at an offset of the test's file.
fn byte_at(place: u32) -> u8 {
    (place % 251) as u8
}

pub(crate) fn sample(rt: &(impl Abort + AllocGlobal), size: u32) -> Vec<u8> {
    let mut bytes = Vec::new(rt.alloc());
    for place in 0..size {
        must(rt, bytes.push(byte_at(place)));
    }
    bytes
}

// Returns whether the bytes are those of the file from this offset on.
fn are_from(bytes: &[u8], place: u32) -> bool {
    let mut here = place;
    for byte in bytes {
        if *byte != byte_at(here) {
            return false;
        }
        here = here.saturating_add(1);
    }
    true
}

// Checks a read of this many bytes of a file of this size.
fn expect_read<S: Source>(
    rt: &(impl Abort + AllocGlobal),
    source: &mut S,
    size: u32,
    place: u32,
    length: u16,
) {
    let mut buf = must(rt, vec![in rt.alloc(); 0u8; usize::from(length)]);
    let fits = place.saturating_add(u32::from(length)) <= size;
    let holds = match read_exact_at(source, u64::from(place), &mut buf) {
        Ok(()) => fits && are_from(buf.as_slice(), place),
        Err(error) => !fits && error.is_eof(),
    };
    that(
        rt,
        "the file's bytes, or its end, at",
        u64::from(place),
        holds,
    );
}

const PLACES: [u32; 17] = [
    0, 8_190, 1, 8_192, 89_990, 0, 16_383, 12_000, 20_000, 30_000, 40_000, 50_000, 60_000, 70_000,
    80_000, 0, 20_000,
];

// Small reads, reads across a window's end, and reads longer than a window return the file's bytes.
#[test]
fn gives_the_bytes(rt: HostRuntime) {
    let size = 90_000;
    let mut source = Seeking::with_windows(rt.alloc(), Cursor::new(sample(&rt, size)));
    same(&rt, "the size", &must(&rt, source.size()), &u64::from(size));
    for place in PLACES {
        for length in [1, 2, 9_000] {
            expect_read(&rt, &mut source, size, place, length);
        }
    }
}

// A source begins at byte 0, wherever its reader is positioned.
#[test]
fn begins_at_byte_0(rt: HostRuntime) {
    let size = 9_000;
    let mut cursor = Cursor::new(sample(&rt, size));
    must(&rt, cursor.read(&mut [0; 5]));
    expect_read(&rt, &mut Seeking::new(cursor), size, 0, 9_000);
}

// Four parts of one slot. If there are twice as many slots, each of two slots has two of them.
const OF_ONE: [u32; 4] = [0, 32_768, 65_536, 98_304];

// Four parts of the last slot, even if there are twice as many slots.
const OF_LAST: [u32; 4] = [57_344, 122_880, 188_416, 253_952];

// Bytes that a short read of a window didn't reach are read at their own offset, also in windows
// that were added. Each round over the four parts of one slot fills all their windows again, until
// there are twice as many.
#[test]
fn gives_the_bytes_of_short_reads(rt: HostRuntime) {
    let size = 300_000;
    for windows in [false, true] {
        let mut source = source_of(&rt, windows, size, 100);
        for place in [0, 99, 150, 8_191, 299_998, 299_999] {
            expect_read(&rt, &mut source, size, place, 2);
        }
        for _ in 0..9 {
            for place in OF_ONE {
                expect_read(&rt, &mut source, size, place, 2);
                expect_read(&rt, &mut source, size, place.saturating_add(99), 2);
            }
        }
    }
}

// Makes a source over a file of this size, whose reads return at most this many bytes.
fn source_of(
    rt: &(impl Abort + AllocGlobal),
    windows: bool,
    size: u32,
    most: usize,
) -> Seeking<Disk> {
    let mut disk = Disk::new(sample(rt, size), u64::MAX);
    disk.most = most;
    match windows {
        true => Seeking::with_windows(rt.alloc(), disk),
        false => Seeking::new(disk),
    }
}

// Returns the number of calls of the inner reader for this many rounds of small reads at these
// offsets.
fn calls_of(rt: &(impl Abort + AllocGlobal), windows: bool, places: &[u32], rounds: u32) -> u64 {
    let size = 1_100_000;
    let mut source = source_of(rt, windows, size, usize::MAX);
    for _ in 0..rounds {
        for place in places {
            expect_read(rt, &mut source, size, *place, 3);
        }
    }
    let disk = source.into_inner();
    let calls = disk.calls;
    drop(disk);
    calls
}

// Each part of a file is read once if parts are read alternately, even if two share a slot. A third
// part of the slot replaces the one that was filled first. Bytes beyond a window's end are buffered
// with the window.
#[test]
fn keeps_its_windows(rt: HostRuntime) {
    for (places, calls) in [
        ([0, 8_192, 5, 80_000, 8_200, 3, 80_005].as_slice(), 6),
        (&[0, 524_288, 9, 524_290, 8_192, 532_480, 0, 524_288], 8),
        (&[0, 524_288, 1_048_576, 1_048_580, 524_288], 6),
        (&[0, 524_288, 1_048_576, 0, 1_048_576], 8),
        (&OF_ONE, 8),
        (&[8_190, 8_191], 2),
        (&[8_190, 8_192], 4),
    ] {
        let found = calls_of(&rt, true, places, 1);
        same(&rt, "offsets and calls", &(places, found), &(places, calls));
    }
}

// The number of windows doubles at the fifth fill with a part of the file that was read before.
// After that the four parts have two slots. The parts of the last slot have two slots only when the
// number doubles once more, at the ninth such fill after the first doubling.
#[test]
fn windows_grow(rt: HostRuntime) {
    for (windows, places, rounds, calls) in [
        (true, OF_ONE, 2, 16),
        (true, OF_ONE, 3, 24),
        (true, OF_ONE, 100, 24),
        (false, OF_ONE, 100, 800),
        (true, OF_LAST, 5, 40),
        (true, OF_LAST, 100, 40),
    ] {
        let found = calls_of(&rt, windows, &places, rounds);
        same(&rt, "offsets and calls", &(places, found), &(places, calls));
    }
}

// Reads three bytes, and returns whether the disk failed.
fn fails_at(rt: &impl Abort, source: &mut Seeking<Disk>, place: u32) -> bool {
    let mut buf = [0; 3];
    let place_of_read = Some(u64::from(place));
    match read_exact_at(source, u64::from(place), &mut buf) {
        Ok(()) => {
            that(rt, "the bytes at", u64::from(place), are_from(&buf, place));
            false
        }
        failed => {
            must(
                rt,
                expect_io(failed, ErrorKind::PermissionDenied, place_of_read),
            );
            true
        }
    }
}

// Reads at these offsets in turn, while the disk fails at this call. Checks that exactly one read
// fails, that its window is empty then, and that later reads return the file's bytes.
fn expect_failed_window(rt: &(impl Abort + AllocGlobal), places: [u32; 4], call: u64) {
    let disk = Disk::new(sample(rt, 107_000), call);
    let mut source = Seeking::with_windows(rt.alloc(), disk);
    let (mut failures, mut later) = (0u64, 0u64);
    for place in places {
        if fails_at(rt, &mut source, place) {
            failures = failures.saturating_add(1);
            let is_empty = source.buffered(u64::from(place)).is_empty();
            that(
                rt,
                "an empty window after the failure at call",
                call,
                is_empty,
            );
            later = later.saturating_add(u64::from(fails_at(rt, &mut source, place)));
        }
    }
    for place in places {
        later = later.saturating_add(u64::from(fails_at(rt, &mut source, place)));
    }
    same_at(
        rt,
        "failures, first and later, at call",
        call,
        &(failures, later),
        &(1, 0),
    );
}

// If a seek or a read fails, its error is returned, and later reads return the bytes. The windows
// are those of one slot, or of two slots. The last window of the file is shorter.
#[test]
fn a_failed_window_holds_nothing(rt: HostRuntime) {
    for call in 0..8 {
        expect_failed_window(&rt, OF_ONE, call);
    }
    for call in 0..4 {
        expect_failed_window(&rt, [5, 106_900, 5, 106_900], call);
    }
}

// Returns whether the items are a prefix of the whole ones, followed by the device's error.
fn are_cut(found: &str, whole: &str) -> bool {
    match found.split_once("Io (offset ") {
        None => false,
        Some((before, said)) => {
            whole.starts_with(before.trim_end()) && said.ends_with(DEVICE_MESSAGE)
        }
    }
}

// Checks the items of a file of eight events that returns one byte per read and fails at this call.
// The offset of `Io` is left out. Returns whether it failed.
fn expect_items_of_disk(rt: &(impl Abort + AllocGlobal), windows: bool, call: u64) -> bool {
    let body = "d201020301 5161 5162 a104 5178 080d0f1113";
    let whole = "{2 'a' [1 'x' end 'b' 'a' end";
    let mut disk = Disk::new(must(rt, file(rt.alloc(), body, [1, 1], [5, 0, 21])), call);
    disk.most = 1;
    let source = match windows {
        true => Seeking::with_windows(rt.alloc(), &mut disk),
        false => Seeking::new(&mut disk),
    };
    let found = words_of(rt.alloc(), BinaryReader::new(rt.alloc(), source));
    let found = must(rt, found);
    if disk.failures == 0 {
        same(rt, "the items", &found.as_str(), &whole);
        return false;
    }
    let is_last = disk.calls == call.saturating_add(1);
    let holds = is_last && are_cut(found.as_str(), whole);
    that(rt, "items that end with the failure at call", call, holds);
    true
}

#[test]
fn items_of_failing_files(rt: HostRuntime) {
    for windows in [false, true] {
        let mut calls = 0;
        for call in 0..1000 {
            if !expect_items_of_disk(&rt, windows, call) {
                calls = call;
                break;
            }
        }
        that(&rt, "no failure is lost at call", calls, calls > 20);
    }
}

// If a read returns no byte, the error is `UnexpectedEof`, with the offset of that read, and
// nothing is read again.
#[test]
fn ends_where_no_byte_is(rt: HostRuntime) {
    let mut device = Device::new(sample(&rt, 8), u64::MAX);
    let end = match read_exact_at(&mut device, 6, &mut [0; 4]) {
        Ok(()) => None,
        Err(error) => error.offset().filter(|_| error.is_eof()),
    };
    same(
        &rt,
        "the end, and the calls",
        &(end, device.calls),
        &(Some(8), 3),
    );
}
