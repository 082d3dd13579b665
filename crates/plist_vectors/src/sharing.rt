//! The sizes of `SharingWriter`'s files, and that it returns no I/O error of its own.

use crate::support::{expect_answers, must, same, same_at, write_all};
use plist_share::SharingWriter;
use plist_support::{Device, file};
use std::process::Abort;

// Returns the length of the file of these events.
fn length_of(rt: &(impl Abort + AllocGlobal), words: &str) -> u64 {
    let mut writer = SharingWriter::new(rt.alloc(), Vec::new(rt.alloc()));
    write_all(rt, &mut writer, words);
    writer.into_inner().len() as u64
}

// Returns the events of an array that contains an array of these events twice.
fn doubled(rt: &(impl Abort + AllocGlobal), words: &str) -> String {
    must(rt, format!(in rt.alloc(); "[ {words} {words} end"))
}

// Each array contains the one before it twice. So the last one has 2^17 starts and ends, and 17
// objects.
#[test]
fn doubled_arrays(rt: HostRuntime) {
    let mut words = must(&rt, String::from_str(rt.alloc(), "[ end"));
    for level in 0..17u64 {
        let length = length_of(&rt, words.as_str());
        same_at(&rt, "length at level", level, &length, &(level * 4 + 42));
        words = doubled(&rt, words.as_str());
    }
}

// No I/O error is returned unless a call of the device fails.
#[test]
fn io_without_failing_write(rt: HostRuntime) {
    let mut device = Device::new(Vec::new(rt.alloc()), u64::MAX);
    let mut writer = SharingWriter::new(rt.alloc(), &mut device);
    let answers = "ok; ok; ok; ok; ok; ok";
    expect_answers(&rt, &mut writer, "[2 [0 end [0 end end", answers);
    let _ = writer.into_inner();
    let bytes = must(&rt, file(rt.alloc(), "a20101 a0 080b", [1, 1], [2, 0, 12]));
    same(&rt, "the file", &device.bytes, &bytes);
    let (flushed, failures) = (device.flushed, device.failures);
    same(
        &rt,
        "flushed, failures",
        &(flushed, failures),
        &(bytes.len(), 0),
    );
}
