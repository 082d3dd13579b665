//! How `AsciiReader` ends, and how many items are read for a value.

use crate::support::{expect_value, is_there, must, same, some};
use plist::Value;
use plist_ascii::AsciiReader;
use plist_base::{Error, OwnedEvent};
use plist_support::{Device, DeviceFault, READ_FAILURES, expect_io};
use std::process::Abort;

// Makes a device over this text, with a fault at this call.
fn device_of(rt: &(impl Abort + AllocGlobal), text: &str, call: u64, fault: DeviceFault) -> Device {
    let bytes = must(rt, Vec::from_slice(rt.alloc(), text.as_bytes()));
    Device::with_fault(bytes, call, fault)
}

// Returns the reader's second item, and how many items three more calls yield.
fn second_item(
    rt: &(impl Abort + AllocGlobal),
    device: &mut Device,
) -> (Option<Result<OwnedEvent, Error>>, u32) {
    let mut reader = AsciiReader::new(rt.alloc(), device);
    drop(reader.next());
    let second = reader.next();
    let mut more = 0u32;
    for _ in 0..3 {
        if is_there(reader.next()) {
            more = more.saturating_add(1);
        }
    }
    drop(reader);
    (second, more)
}

// A device's error is passed on, and nothing is read after it, although further reads would
// succeed.
#[test]
fn ends_after_a_failure(rt: HostRuntime) {
    for kind in READ_FAILURES {
        let mut device = device_of(&rt, "(a)", 1, DeviceFault::Fails(kind));
        let (item, more) = second_item(&rt, &mut device);
        must(&rt, expect_io(some(&rt, "an item", item), kind, Some(1)));
        same(&rt, "more items, and calls", &(more, device.calls), &(0, 2));
    }
}

// Nothing is read after the end of the input, although further reads would succeed.
#[test]
fn ends_at_the_end(rt: HostRuntime) {
    let mut device = device_of(&rt, "(a)", 2, DeviceFault::MovesNothing);
    let (item, more) = second_item(&rt, &mut device);
    must(&rt, some(&rt, "an item", item));
    same(&rt, "more items, and calls", &(more, device.calls), &(0, 3));
}

// No item is read after one that is rejected, and the reader is called only once after the last
// item.
#[test]
fn a_value_takes_no_item_more(rt: HostRuntime) {
    for (text, wanted, calls) in [
        ("(a)", "[1 'a' end", 4),
        ("(a) b c", "ExpectedEndOfEventStream { found: String }", 6),
        ("(\"\\9\" b", "InvalidUtf8AsciiStream (offset 4)", 4),
    ] {
        let mut device = device_of(&rt, text, u64::MAX, DeviceFault::MovesNothing);
        let reader = AsciiReader::new(rt.alloc(), &mut device);
        expect_value(&rt, Value::from_events(rt.alloc(), reader), wanted);
        same(&rt, text, &device.calls, &calls);
    }
}
