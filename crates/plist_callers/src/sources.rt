//! Proved callers of sources: what a read returns, how many bytes a source has and how many of them
//! it has buffered, and how failures of the inner reader are counted.

ghost use Rattle.std.specs.Prelude.{◌≡◌, ◌+◌, ◌-◌, ◌^◌, ◌<◌, ◌≤◌, IfOk, IfSome, IsOk, OnOk, Some, drop, length, take};
ghost use Rattle.plist_base.specs.Sources.{failures_of};
ghost use Rattle.plist_base.specs.Sources.{CountsFailure, LiesAt};

use plist_base::{Error, Seeking, Sequential, Source, read_exact_at};
use std::alloc::Global;
use std::io;
use std::io::{Read, Seek};

/// Fills the buffer with the bytes of a slice from an offset on, if there are enough of them.
///
/// # Errors
///
/// `UnexpectedEof` if there are too few. The buffer then begins with those that exist.
pub fn read_slice(bytes: &[u8], place: u64, buf: &mut [u8]) -> Result<(), Error>
    requires { place + length buf.old < 2 ^ 64 }
    ensures bytes { OnOk result (LiesAt bytes.now place buf.new) }
    ensures whole { place + length buf.old ≤ length bytes.now → IsOk result }
{
    let mut source = bytes;
    read_exact_at(&mut source, place, buf)
}

/// Fills the buffer with the bytes of a vector from an offset on, if there are enough of them.
///
/// # Errors
///
/// `UnexpectedEof` if there are too few. The buffer then begins with those that exist.
pub fn read_vector(bytes: Vec<u8>, place: u64, buf: &mut [u8]) -> Result<(), Error>
    requires { place + length buf.old < 2 ^ 64 }
    ensures bytes { OnOk result (LiesAt bytes.items place buf.new) }
    ensures whole { place + length buf.old ≤ length bytes.items → IsOk result }
{
    let mut source = bytes;
    read_exact_at(&mut source, place, buf)
}

/// Returns the sizes of a slice and of a vector, as sources report them.
pub fn sizes(bytes: &[u8], more: Vec<u8>) -> (Option<u64>, Option<u64>)
    ensures { result ≡ (Some (length bytes.now), Some (length more.items)) }
{
    let (mut slice, mut vector) = (bytes, more);
    (slice.size().ok(), vector.size().ok())
}

/// Returns the numbers of bytes that a slice and a vector have buffered from an offset on. These
/// are all their bytes from that offset on.
pub fn lent(bytes: &[u8], more: &Vec<u8>, place: u64) -> (usize, usize)
    ensures { result ≡ (length (drop place bytes.now), length (drop place more.now.items)) }
{
    (bytes.buffered(place).len(), more.buffered(place).len())
}

/// Reads all bytes of a slice, from its start on, and returns them.
///
/// # Errors
///
/// An I/O error if the vector of the bytes can't grow.
pub fn read_all(alloc: Global, bytes: &[u8]) -> io::Result<Vec<u8>>
    ensures { IfOk result (λ all. all.items ≡ take (2 ^ 64 - 1) bytes.now) }
{
    let mut all = Vec::new(alloc);
    Sequential::new(bytes).read_to_end(&mut all)?;
    Ok(all)
}

/// Returns the size of a reader that can seek, or the error of the seek. Also returns the source,
/// which counts a seek that fails.
pub fn size_of_device<R: Read + Seek + Drop>(device: R) -> (Result<u64, io::Error>, Seeking<R>)
    ensures { CountsFailure result.0 0 (failures_of result.1) }
{
    let mut source = Seeking::new(device);
    (source.size(), source)
}

/// Makes a source of a reader, and returns that reader.
pub fn device_again<R: Read + Seek + Drop>(device: R) -> R
    ensures { result ≡ device }
{
    Seeking::new(device).into_inner()
}

/// Reads the first bytes of a source. Returns how many were read, or the error. Also returns the
/// source, which counts a read that fails.
pub fn read_front<S: Source>(source: S, buf: &mut [u8]) -> (io::Result<usize>, S)
    ensures failures { CountsFailure result.0 (S.failures source) (S.failures result.1) }
    ensures unchanged { S.known result.1 ≡ S.known source }
{
    let mut reader = Sequential::new(source);
    let answer = reader.read(buf);
    (answer, reader.into_inner())
}

/// Fills the buffer with the bytes of a slice from an offset on. If there are too few, returns the
/// offset of the error, which is the length of the slice, and the buffer begins with the bytes up
/// to there. Otherwise returns `None`.
pub fn end_told(bytes: &[u8], place: u64, buf: &mut [u8]) -> Option<u64>
    requires fits { place + length buf.old < 2 ^ 64 }
    requires begins { place ≤ length bytes.now }
    ensures end { IfSome result (λ end. end ≡ length bytes.now) }
    ensures filled { IfSome result (λ end. take (end - place) buf.new ≡ drop place bytes.now) }
{
    let mut source = bytes;
    match read_exact_at(&mut source, place, buf) {
        Ok(()) => None,
        Err(error) => error.offset(),
    }
}
