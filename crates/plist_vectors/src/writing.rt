//! `BinaryWriter` returns no I/O error of its own.

use crate::support::{expect_answers, file_of_true, must, same, value_of};
use plist_binwrite::BinaryWriter;
use plist_support::{Device, file};
use std::process::Abort;

// Checks that two files were written to the device, one byte per call, that each file was followed
// by one flush, and that no call failed.
fn expect_two_sent(rt: &(impl Abort + AllocGlobal), device: &Device) {
    let mut both = file_of_true(rt);
    let second = must(rt, file(rt.alloc(), "a20101 5161 080b", [1, 1], [2, 0, 13]));
    must(rt, both.extend_from_slice(second.as_slice()));
    same(rt, "device.bytes", &device.bytes, &both);
    let found = (device.flushed as u64, device.calls, device.failures);
    let wanted = (both.len() as u64, 42 + 1 + 47 + 1, 0);
    same(rt, "flushed, calls, failures", &found, &wanted);
}

// No I/O error is returned unless a call of the device fails.
#[test]
fn io_without_failing_write(rt: HostRuntime) {
    let mut device = Device::new(Vec::new(rt.alloc()), u64::MAX);
    let mut writer = BinaryWriter::new(rt.alloc(), &mut device);
    let words = "true [2 'a' 'a' end";
    expect_answers(&rt, &mut writer, words, "ok; ok; ok; ok; ok");
    let _ = writer.into_inner();
    expect_two_sent(&rt, &device);
    let mut device = Device::new(Vec::new(rt.alloc()), u64::MAX);
    for words in ["true", "[2 'a' 'a' end"] {
        let value = value_of(&rt, words);
        let written = value.to_writer_binary(rt.alloc(), &mut device);
        drop(value);
        must(&rt, written);
    }
    expect_two_sent(&rt, &device);
}
