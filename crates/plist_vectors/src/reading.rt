//! How `BinaryReader` ends if a read fails, or returns nothing.

use crate::support::{must, same, some, that};
use plist_base::Error;
use plist_binread::BinaryReader;
use plist_support::{Device, DeviceFault, READ_FAILURES, expect_io, file};
use std::process::Abort;

// Makes a device over a file of eight events, with a fault at this call.
fn device_of(rt: &(impl Abort + AllocGlobal), call: u64, fault: DeviceFault) -> Device {
    let body = "d201020301 5161 5162 a104 5178 080d0f1113";
    let bytes = must(rt, file(rt.alloc(), body, [1, 1], [5, 0, 21]));
    Device::with_fault(bytes, call, fault)
}

// Returns the error with which the items of a device end, if there is one. No item may follow it.
fn last_error(rt: &(impl Abort + AllocGlobal), device: &mut Device) -> Option<Error> {
    let mut last = None;
    let mut reader = BinaryReader::new(rt.alloc(), device);
    for _ in 0..12 {
        match reader.next() {
            Some(_) if last.is_some() => panic!(rt; "an item follows the error"),
            Some(Err(error)) => last = Some(error),
            _ => {}
        }
    }
    drop(reader);
    last
}

// Checks that a fault at this call ends the items at the offset of that call, which isn't made
// again, although a second try would succeed. Returns whether there is such a call.
fn expect_fault(rt: &(impl Abort + AllocGlobal), call: u64, fault: DeviceFault) -> bool {
    let mut device = device_of(rt, call, fault);
    let last = last_error(rt, &mut device);
    if device.calls <= call {
        return false;
    }
    let error = some(rt, "the error", last);
    let (place, is_eof) = (Some(device.place), error.is_eof());
    same(rt, "error.offset()", &error.offset(), &place);
    match fault {
        DeviceFault::Fails(kind) => must(rt, expect_io::<()>(Err(error), kind, place)),
        _ => that(rt, "an end at call", call, is_eof),
    }
    same(rt, "device.calls", &device.calls, &call.saturating_add(1));
    true
}

// Checks a fault at each call from the first one on that can have it. The head alone takes 46
// calls.
fn expect_faults(rt: &(impl Abort + AllocGlobal), first: u64, fault: DeviceFault) {
    for call in first..1000 {
        if !expect_fault(rt, call, fault) {
            that(rt, "no fault is lost at call", call, call > 46);
            return;
        }
    }
    panic!(rt; "the device has a fault at each call")
}

#[test]
fn ends_after_a_failure(rt: HostRuntime) {
    for kind in READ_FAILURES {
        expect_faults(&rt, 0, DeviceFault::Fails(kind));
    }
}

// The first read is the second call.
#[test]
fn ends_where_a_read_returns_nothing(rt: HostRuntime) {
    expect_faults(&rt, 1, DeviceFault::MovesNothing);
}
