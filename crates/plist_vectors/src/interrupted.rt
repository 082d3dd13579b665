//! A read that was interrupted, or failed in another way, returns its error, and no call follows
//! it.

use crate::sources::sample;
use crate::support::{must, same, same_at};
use plist_base::{Seeking, Source, read_exact_at};
use plist_support::{Device, DeviceFault, Disk, expect_io};
use std::io::ErrorKind;
use std::process::Abort;

// Reads the size, bytes that a short read of a window doesn't reach, and more bytes than a window
// has. Returns which of the three failed, and the kind of its error.
fn first_failure<S: Source>(source: &mut S) -> Option<(u64, ErrorKind)> {
    if let Err(error) = source.size() {
        return Some((0, error.kind()));
    }
    if let Err(error) = source.read_at(150, &mut [0; 3]) {
        return Some((1, error.kind()));
    }
    match source.read_at(12_000, &mut [0; 9_000]) {
        Ok(_) => None,
        Err(error) => Some((2, error.kind())),
    }
}

// Returns the first failure over a disk that fails at this call in this way, and the number of
// calls of the disk.
fn failure_of_disk(
    rt: &(impl Abort + AllocGlobal),
    call: u64,
    kind: ErrorKind,
) -> (Option<(u64, ErrorKind)>, u64) {
    let mut disk = Disk::new(sample(rt, 25_000), call);
    disk.most = 100;
    disk.kind = kind;
    let found = first_failure(&mut Seeking::with_windows(rt.alloc(), &mut disk));
    (found, disk.calls)
}

const KINDS: [ErrorKind; 7] = [
    ErrorKind::Interrupted,
    ErrorKind::WouldBlock,
    ErrorKind::TimedOut,
    ErrorKind::ResourceBusy,
    ErrorKind::PermissionDenied,
    ErrorKind::UnexpectedEof,
    ErrorKind::Other,
];

// The size takes one seek. Filling a window takes a seek and a read. So does reading bytes that it
// lacks after a short read, and so does reading more bytes than a window has. A failure of any of
// these is passed on, and nothing is tried again.
#[test]
fn tries_nothing_twice(rt: HostRuntime) {
    for kind in KINDS {
        for (call, asked) in [(0, 0), (1, 1), (2, 1), (3, 1), (4, 1), (5, 2), (6, 2)] {
            let found = failure_of_disk(&rt, call, kind);
            let wanted = (Some((asked, kind)), call.saturating_add(1));
            same_at(&rt, "the failure at call", call, &found, &wanted);
        }
        let found = failure_of_disk(&rt, 7, kind);
        same(&rt, "no failure", &found, &(None, 7));
    }
}

// Four of ten bytes are read from offset 2 on, one per call. If a read fails, the error has the
// offset of this read and the device's I/O error, and the read isn't tried again.
#[test]
fn a_failed_read_has_its_place(rt: HostRuntime) {
    for kind in KINDS {
        for call in 0..4u64 {
            let fault = DeviceFault::Fails(kind);
            let mut device = Device::with_fault(sample(&rt, 10), call, fault);
            let answer = read_exact_at(&mut device, 2, &mut [0; 4]);
            must(&rt, expect_io(answer, kind, Some(call + 2)));
            same_at(&rt, "calls at call", call, &device.calls, &(call + 1));
        }
    }
}
