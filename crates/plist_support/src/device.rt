//! Devices that fail or end too early.

ghost use Rattle.std.specs.Prelude.{None};
ghost use Rattle.plist_base.specs.Sources.{CountsFailure};

use crate::wrong::{Wrong, fail};
use plist_base::{Error, Source};
use std::alloc::Global;
use std::fmt::Write as _;
use std::io::{Cursor, ErrorKind, Read, Seek, SeekFrom, Write};
use std::{fmt, io};

/// What happens at one call of a device.
#[derive(Clone, Copy)]
pub enum DeviceFault {
    /// The call fails with an error of the given kind.
    Fails(ErrorKind),
    /// A read returns no byte, or a write accepts none. The write is counted as a failure.
    MovesNothing,
    /// From this call on the device has only this many bytes.
    Shrinks(usize),
}

/// The message of each error of a device. No error of the libraries or of the system has it.
pub const DEVICE_MESSAGE: &str = "the device failed";

/// Returns the error of a device, of the given kind.
pub fn device_error(kind: ErrorKind) -> io::Error {
    io::Error::new(kind, DEVICE_MESSAGE)
}

/// The kinds of errors of a device in tests of readers. Each of them must end a reader.
pub const READ_FAILURES: [ErrorKind; 4] = [
    ErrorKind::Interrupted,
    ErrorKind::TimedOut,
    ErrorKind::PermissionDenied,
    ErrorKind::UnexpectedEof,
];

/// A device that moves one byte per call. One of its calls has a fault; a retry of that call would
/// succeed.
#[derive(Drop)]
pub struct Device {
    /// The bytes that `read` returns, to which `write` appends.
    pub bytes: Vec<u8>,
    /// The number of bytes that `read` has returned, or `write` has accepted.
    pub moved: usize,
    /// The offset of the last call, or 0 if that call requested the size.
    pub place: u64,
    /// The value of `moved` at the last flush.
    pub flushed: usize,
    /// The length of the longest buffer that `write` was called with.
    pub longest: usize,
    /// The number of calls.
    pub calls: u64,
    /// The number of calls that failed.
    pub failures: u64,
    faulty_call: u64,
    fault: DeviceFault,
}

impl Device {
    /// Makes a device that fails with `Interrupted` at its call with the given index. Most callers
    /// would retry after that.
    pub fn new(bytes: Vec<u8>, fails_at: u64) -> Device {
        Device::with_fault(bytes, fails_at, DeviceFault::Fails(ErrorKind::Interrupted))
    }

    /// Makes a device that has the given fault at its call with the given index.
    pub fn with_fault(bytes: Vec<u8>, faulty_call: u64, fault: DeviceFault) -> Device {
        Device {
            bytes,
            moved: 0,
            place: 0,
            flushed: 0,
            longest: 0,
            calls: 0,
            failures: 0,
            faulty_call,
            fault,
        }
    }

    // Counts a call at this offset, and returns whether it may move a byte.
    fn call(&mut self, place: u64) -> io::Result<bool>
        ensures failures { CountsFailure result self.old.failures self.new.failures }
    {
        self.place = place;
        let call = self.calls;
        self.calls = call.saturating_add(1);
        if call != self.faulty_call {
            return Ok(true);
        }
        match self.fault {
            DeviceFault::MovesNothing => Ok(false),
            DeviceFault::Shrinks(left) => {
                self.bytes.truncate(left);
                Ok(true)
            }
            DeviceFault::Fails(kind) => {
                self.failures = self.failures.saturating_add(1);
                Err(device_error(kind))
            }
        }
    }
}

impl Source for Device {
    ghost known = { λ _. None };

    ghost failures = { λ device. device.failures };

    fn size(&mut self) -> Result<u64, io::Error> {
        self.call(0)?;
        Ok(self.bytes.len() as u64)
    }

    fn read_at(&mut self, place: u64, buf: &mut [u8]) -> Result<usize, io::Error> {
        if !self.call(place)? || buf.is_empty() || place >= self.bytes.len() as u64 {
            return Ok(0);
        }
        buf[0] = self.bytes[place as usize];
        Ok(1)
    }
}

// An example reads from a borrowed device, so that it can inspect the device afterwards.
impl<'a> Source for &'a mut Device {
    ghost known = { λ _. None };

    ghost failures = { λ device. device.now.failures };

    fn size(&mut self) -> Result<u64, io::Error> {
        (**self).size()
    }

    fn read_at(&mut self, place: u64, buf: &mut [u8]) -> Result<usize, io::Error> {
        (**self).read_at(place, buf)
    }
}

impl Read for Device {
    ghost remaining = { λ _. None };

    fn read(&mut self, buf: &mut [u8]) -> io::Result<usize> {
        if !self.call(self.moved as u64)? || buf.is_empty() || self.moved >= self.bytes.len() {
            return Ok(0);
        }
        buf[0] = self.bytes[self.moved];
        self.moved += 1;
        Ok(1)
    }
}

impl Write for Device {
    fn write(&mut self, buf: &[u8]) -> io::Result<usize> {
        self.longest = self.longest.max(buf.len());
        if !self.call(self.moved as u64)? {
            self.failures = self.failures.saturating_add(1);
            return Ok(0);
        }
        if buf.is_empty() {
            return Ok(0);
        }
        self.bytes.push(buf[0])?;
        self.moved = self.moved.saturating_add(1);
        Ok(1)
    }

    fn flush(&mut self) -> io::Result<()> {
        self.call(self.moved as u64)?;
        self.flushed = self.moved;
        Ok(())
    }
}

// What remains of a string that is compared, part by part, with what is written.
#[derive(Drop)]
struct Remaining<'a> {
    text: &'a str,
}

impl<'a> fmt::Write for Remaining<'a> {
    fn write_str(&mut self, part: &str) -> fmt::Result {
        match self.text.strip_prefix(part) {
            Some(rest) => {
                self.text = rest;
                Ok(())
            }
            None => Err(fmt::Error),
        }
    }
}

// Returns whether this is the error's text.
fn has_text(failure: &io::Error, text: &str) -> bool {
    let mut remaining = Remaining { text };
    write!(remaining, "{failure}").is_ok() && remaining.text.is_empty()
}

/// Checks that the result is an I/O error of the given kind and text, with the given offset.
pub fn expect_failure<T: Drop>(
    answer: Result<T, Error>,
    kind: ErrorKind,
    text: &str,
    offset: Option<u64>,
) -> Result<(), Wrong> {
    let Err(error) = answer else {
        return Err(Wrong::NoFault);
    };
    let Some(failure) = error.as_io() else {
        return Err(Wrong::OtherFault(error.offset(), None));
    };
    if error.offset() != offset || failure.kind() != kind {
        return Err(Wrong::OtherFault(error.offset(), Some(failure.kind())));
    }
    if !has_text(failure, text) {
        return Err(Wrong::OtherMessage);
    }
    Ok(())
}

/// Checks that the result is a device's own error of the given kind, with the given offset.
pub fn expect_io<T: Drop>(
    answer: Result<T, Error>,
    kind: ErrorKind,
    offset: Option<u64>,
) -> Result<(), Wrong> {
    expect_failure(answer, kind, DEVICE_MESSAGE, offset)
}

// Checks that the device failed once, at its last call, and that `items` are the items `before`
// followed by the error of that call, with its offset and the device's message.
pub(crate) fn expect_cut(
    alloc: Global,
    device: &Device,
    items: &str,
    before: &str,
) -> Result<(), Wrong> {
    let call = device.faulty_call;
    let (failures, calls) = (device.failures, device.calls);
    if failures != 1 || calls != call.saturating_add(1) {
        return fail(format!(in alloc; "{failures} failures and {calls} calls at call {call}"));
    }
    let fault = format!(in alloc; "Io (offset {}): {DEVICE_MESSAGE}", device.place)?;
    match items.strip_suffix(fault.as_str()) {
        Some(found) if found.trim_end() == before.trim_end() => Ok(()),
        _ => fail(format!(in alloc; "call {call}: {items} instead of {before} {fault}")),
    }
}

/// A file that fails at one call.
#[derive(Drop)]
pub struct Disk {
    inner: Cursor<Vec<u8>>,
    /// The maximum number of bytes that a read returns.
    pub most: usize,
    /// The kind of the error with which the call fails.
    pub kind: ErrorKind,
    /// The number of calls.
    pub calls: u64,
    /// The number of calls that failed.
    pub failures: u64,
    fails_at: u64,
}

impl Disk {
    /// Makes a file of the given bytes that fails at its call with the given index.
    pub fn new(bytes: Vec<u8>, fails_at: u64) -> Disk {
        Disk {
            inner: Cursor::new(bytes),
            most: usize::MAX,
            kind: ErrorKind::PermissionDenied,
            calls: 0,
            failures: 0,
            fails_at,
        }
    }

    fn call(&mut self) -> io::Result<()> {
        let call = self.calls;
        self.calls = call.saturating_add(1);
        if call == self.fails_at {
            self.failures = self.failures.saturating_add(1);
            return Err(device_error(self.kind));
        }
        Ok(())
    }
}

impl Read for Disk {
    fn read(&mut self, buf: &mut [u8]) -> io::Result<usize> {
        self.call()?;
        let count = buf.len().min(self.most);
        self.inner.read(&mut buf[..count])
    }
}

impl Seek for Disk {
    fn seek(&mut self, to: SeekFrom) -> io::Result<u64> {
        self.call()?;
        self.inner.seek(to)
    }
}
