//! What `print_value` writes to devices, and what it returns.

use crate::support::{Stuck, expect_taken, failing, must, same, sound};
use plist::Value;
use plist_commands::print_value;
use plist_support::expect_io;
use std::io::ErrorKind;

// The flush is last, after the line was written, and its failure is an error.
#[test]
fn prints_a_value(rt: HostRuntime) {
    let value = Value::Boolean(true);
    let mut writer = sound(&rt);
    must(&rt, print_value(rt.alloc(), &value, &mut writer));
    expect_taken(&rt, writer, b"Boolean true\n", 14, 13);
    let mut writer = failing(&rt, 13, ErrorKind::TimedOut);
    let answer = print_value(rt.alloc(), &value, &mut writer);
    must(&rt, expect_io(answer, ErrorKind::TimedOut, None));
    expect_taken(&rt, writer, b"Boolean true\n", 14, 0);
}

// The writer is flushed after the failed write. The error of the write is returned, and not that of
// the flush.
#[test]
fn stops_where_the_writer_fails(rt: HostRuntime) {
    let mut writer = Stuck {
        device: failing(&rt, 7, ErrorKind::PermissionDenied),
        flushes: 0,
    };
    let answer = print_value(rt.alloc(), &Value::Boolean(true), &mut writer);
    must(&rt, expect_io(answer, ErrorKind::PermissionDenied, None));
    same(&rt, "flushes", &writer.flushes, &1);
    expect_taken(&rt, writer.device, b"Boolean", 8, 0);
}
