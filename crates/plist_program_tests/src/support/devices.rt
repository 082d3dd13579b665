//! Devices that accept one byte per call and can fail, and a file that can't be read.

use crate::support::{must, same};
use plist_base::Seeking;
use plist_support::{Device, DeviceFault, Disk, device_error};
use std::io;
use std::io::{ErrorKind, Write};
use std::process::Abort;

// Makes a device that fails at this call, counted from 0. A second try would succeed.
pub(crate) fn failing(rt: &impl AllocGlobal, call: u64, kind: ErrorKind) -> Device {
    Device::with_fault(Vec::new(rt.alloc()), call, DeviceFault::Fails(kind))
}

// Makes a device that doesn't fail.
pub(crate) fn sound(rt: &impl AllocGlobal) -> Device {
    Device::new(Vec::new(rt.alloc()), u64::MAX)
}

// Checks that a device accepted exactly these bytes, in this many calls, and that its last
// successful flush was after this many bytes.
pub(crate) fn expect_taken(
    rt: &impl Abort,
    device: Device,
    bytes: &[u8],
    calls: u64,
    flushed: usize,
) {
    let found = (device.bytes.as_slice(), device.calls, device.flushed);
    same(
        rt,
        "bytes, calls, flushed",
        &found,
        &(bytes, calls, flushed),
    );
}

// Makes a file of 64 bytes that fails at this call, counted from 0.
pub(crate) fn broken_file(rt: &(impl Abort + AllocGlobal), call: u64) -> Seeking<Disk> {
    let bytes = must(rt, Vec::from_slice(rt.alloc(), &[0; 64]));
    Seeking::with_windows(rt.alloc(), Disk::new(bytes, call))
}

// A device that fails at a call, and at each flush.
#[derive(Drop)]
pub(crate) struct Stuck {
    pub device: Device,
    pub flushes: u64,
}

impl Write for Stuck {
    fn write(&mut self, buf: &[u8]) -> io::Result<usize> {
        self.device.write(buf)
    }

    fn flush(&mut self) -> io::Result<()> {
        self.flushes = self.flushes.saturating_add(1);
        Err(device_error(ErrorKind::TimedOut))
    }
}
