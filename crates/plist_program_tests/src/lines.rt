//! A long line that is printed for a value, and for its file.

use crate::support::{add_times, must, same, sound};
use plist::Value;
use plist_commands::{print_events, print_value};
use std::process::Abort;

// Returns the same bytes 30,000 times, after a front and before an end.
fn repeated(rt: &(impl Abort + AllocGlobal), front: &[u8], bytes: &[u8], end: &[u8]) -> Vec<u8> {
    let mut all = must(rt, Vec::from_slice(rt.alloc(), front));
    for _ in 0..30_000 {
        must(rt, all.extend_from_slice(bytes));
    }
    must(rt, all.extend_from_slice(end));
    all
}

// Checks that a value's line is this one, and that it is written in parts of at most 64 KiB, both
// if the value is printed and if its file is.
fn expect_parts(rt: &(impl Abort + AllocGlobal), value: Value, line: &[u8]) {
    let mut out = sound(rt);
    must(rt, print_value(rt.alloc(), &value, &mut out));
    let found = (out.longest <= 65_536, out.bytes.as_slice());
    same(rt, "short parts, and the line", &found, &(true, line));
    let mut file = Vec::new(rt.alloc());
    must(rt, value.to_writer_binary(rt.alloc(), &mut file));
    drop(value);
    let mut out = sound(rt);
    must(rt, print_events(rt.alloc(), file.as_slice(), &mut out));
    let found = (out.longest <= 65_536, out.bytes.as_slice());
    same(rt, "the same of the file", &found, &(true, line));
}

#[test]
fn long_lines_are_written_in_parts(rt: HostRuntime) {
    let data = Value::Data(repeated(&rt, b"", b"\x0a\xf5\x99", b""));
    let line = repeated(&rt, b"Data ", b"0af599", b"\n");
    expect_parts(&rt, data, line.as_slice());
    let mut text = String::new(rt.alloc());
    add_times(
        &rt,
        &mut text,
        "\u{e9}\u{20ac}\u{1f600}\"\\ and plain text",
        30_000,
    );
    let escapes = b"\\xc3\\xa9\\xe2\\x82\\xac\\xf0\\x9f\\x98\\x80\\x22\\x5c and plain text";
    let line = repeated(&rt, b"String \"", escapes, b"\"\n");
    expect_parts(&rt, Value::String(text), line.as_slice());
}
