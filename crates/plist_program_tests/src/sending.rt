//! How bytes are written to a writer, and flushed.

use crate::support::{expect_taken, failing, must, sound};
use plist_base::Error;
use plist_base::sink::{flush, send};
use plist_support::{Device, DeviceFault, expect_failure, expect_io};
use std::io::{ErrorKind, Write};

// Sends bytes, and converts the error as a writer does.
fn sent<W: Write>(writer: &mut W, bytes: &[u8]) -> Result<(), Error> {
    send(writer, bytes)?;
    Ok(())
}

#[test]
fn sends_byte_by_byte(rt: HostRuntime) {
    let mut writer = sound(&rt);
    must(&rt, sent(&mut writer, b""));
    must(&rt, sent(&mut writer, b"three"));
    must(&rt, sent(&mut writer, b" words"));
    expect_taken(&rt, writer, b"three words", 11, 0);
}

// The device's error is returned, and no write is tried again.
#[test]
fn stops_at_a_failure(rt: HostRuntime) {
    let mut writer = failing(&rt, 3, ErrorKind::PermissionDenied);
    let answer = sent(&mut writer, b"three");
    must(&rt, expect_io(answer, ErrorKind::PermissionDenied, None));
    expect_taken(&rt, writer, b"thr", 4, 0);
}

#[test]
fn a_write_that_takes_nothing(rt: HostRuntime) {
    let mut writer = Device::with_fault(Vec::new(rt.alloc()), 2, DeviceFault::MovesNothing);
    let answer = sent(&mut writer, b"three");
    let kind = ErrorKind::WriteZero;
    must(&rt, expect_failure(answer, kind, "write zero", None));
    expect_taken(&rt, writer, b"th", 3, 0);
}

#[test]
fn flushes(rt: HostRuntime) {
    let mut writer = failing(&rt, 1, ErrorKind::TimedOut);
    must(&rt, flush(&mut writer));
    must(
        &rt,
        expect_io(flush(&mut writer), ErrorKind::TimedOut, None),
    );
    expect_taken(&rt, writer, b"", 2, 0);
}
