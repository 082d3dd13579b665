//! Sources, from which readers read bytes.

ghost use Rattle.std.specs.Prelude.{◌≡◌, ℕ, ◌+◌, ◌-◌, ◌^◌, ◌<◌, ◌≤◌, List, length, drop, Some, Option, IfOk, IfSome, OnOk};
ghost use Rattle.plist_base.specs.Sources.{CountsFailure, CountsIo, GivesAt, LiesAt, FailsReading, FillsUpTo, EndsTooEarly, IsIoWithin};
ghost use Rattle.plist_base.specs.Outcomes.{DecodesBy, IfFault, IfRead, IfRefused};

use crate::{Error, ErrorKind};
use std::io;

/// A source of bytes that can be read at any offset.
///
/// Its contract says what a read returns if the bytes are known, and counts the calls that fail.
/// Slices and vectors are sources, and so is a [`Seeking`](crate::Seeking) over a file:
///
/// ```text
/// Value::from_reader(alloc, bytes.as_slice())
/// Value::from_reader(alloc, bytes)
/// Value::from_reader(alloc, Seeking::with_windows(alloc, file))
/// ```
pub trait Source: Drop {
    /// The bytes, if they are known.
    ghost known: { Self → Option (List ℕ) };
    /// The number of calls that failed. It doesn't increase beyond `u64::MAX`.
    ghost failures: { Self → ℕ };

    /// Returns the number of bytes. Known bytes don't change.
    ///
    /// # Errors
    ///
    /// Any I/O error. The call isn't retried, not even after `Interrupted`.
    fn size(&mut self) -> Result<u64, io::Error>
        ensures length { DecodesBy result (known self.old) length }
        ensures unchanged { known self.new ≡ known self.old }
        ensures failures { CountsFailure result (failures self.old) (failures self.new) };

    /// Reads bytes from offset `place` on into the front of the buffer, and returns their number.
    /// It may read fewer bytes than fit into the buffer. If the bytes are known, it returns 0 only
    /// if the buffer is empty or no byte remains from the offset on.
    ///
    /// # Errors
    ///
    /// Any I/O error. The call isn't retried, not even after `Interrupted`. The contents of the
    /// buffer are unspecified then.
    fn read_at(&mut self, place: u64, buf: &mut [u8]) -> Result<usize, io::Error>
        ensures bound { IfOk result (λ count. count ≤ length buf.new) }
        ensures bytes { IfRead result (known self.old) (λ bytes n. GivesAt bytes place n buf.new) }
        ensures unchanged { known self.new ≡ known self.old }
        ensures failures { CountsFailure result (failures self.old) (failures self.new) };

    /// Returns the bytes from offset `place` on that are in memory, without reading. The slice may
    /// have any length, and is often empty. The default implementation returns an empty slice.
    /// Readers call the function for nearly every object, so it should be cheap.
    fn buffered(&self, place: u64) -> &[u8]
        ensures bytes { IfSome (known self.now) (λ bytes. LiesAt bytes place result.now) }
    {
        &[]
    }
}

// Returns the bytes from an offset on, or an empty slice if the offset isn't below the length.
pub(crate) fn rest_from(bytes: &[u8], place: u64) -> &[u8]
    ensures bytes { result.now ≡ drop place bytes.now }
{
    if place >= bytes.len() as u64 {
        return &[];
    }
    &bytes[place as usize..]
}

// Copies as many bytes from an offset on as fit into the buffer, and returns their number.
pub(crate) fn copy_at(bytes: &[u8], place: u64, buf: &mut [u8]) -> usize
    ensures bound { result ≤ length buf.new }
    ensures bytes { GivesAt bytes.now place result buf.new }
{
    let rest = rest_from(bytes, place);
    let count = rest.len().min(buf.len());
    buf[..count].copy_from_slice(&rest[..count]);
    count
}

/// The bytes of a slice are known, and no read fails.
impl<'a> Source for &'a [u8] {
    ghost known = { λ s. Some s.now };

    ghost failures = { λ _. 0 };

    fn size(&mut self) -> Result<u64, io::Error> {
        Ok(self.len() as u64)
    }

    fn read_at(&mut self, place: u64, buf: &mut [u8]) -> Result<usize, io::Error> {
        Ok(copy_at(self, place, buf))
    }

    /// Returns all bytes from that offset on.
    fn buffered(&self, place: u64) -> &[u8]
        ensures bytes { IfSome (Some self.now.now) (λ bytes. LiesAt bytes place result.now) }
        ensures whole { result.now ≡ drop place self.now.now }
    {
        rest_from(self, place)
    }
}

/// The bytes of a vector are known, and no read fails.
impl Source for Vec<u8> {
    ghost known = { λ v. Some v.items };

    ghost failures = { λ _. 0 };

    fn size(&mut self) -> Result<u64, io::Error> {
        Ok(self.as_slice().len() as u64)
    }

    fn read_at(&mut self, place: u64, buf: &mut [u8]) -> Result<usize, io::Error> {
        Ok(copy_at(self.as_slice(), place, buf))
    }

    /// Returns all bytes from that offset on.
    fn buffered(&self, place: u64) -> &[u8]
        ensures bytes { IfSome (Some self.now.items) (λ bytes. LiesAt bytes place result.now) }
        ensures whole { result.now ≡ drop place self.now.items }
    {
        rest_from(self.as_slice(), place)
    }
}

/// Fills the buffer with the bytes from offset `place` on, with as many reads as necessary. A
/// failed read isn't retried, not even after `Interrupted`. `place + buf.len()` must be less than
/// 2^64.
///
/// # Errors
///
/// `Io` if a read fails and `UnexpectedEof` if a read returns no byte, each with the offset of that
/// read. The front of the buffer then contains the bytes from `place` up to that offset.
#[tactic(auto, using(crate::proofs::Places::fill_more_known))]
pub fn read_exact_at<S: Source>(source: &mut S, place: u64, buf: &mut [u8]) -> Result<(), Error>
    requires { place + length buf.old < 2 ^ 64 }
    // Result.
    ensures bytes { OnOk result (IfSome (S.known source.old) (λ b. LiesAt b place buf.new)) }
    // Errors.
    ensures refused { IfRefused result (S.known source.old) (IsIoWithin place (length buf.old)) }
    ensures short { IfRefused result (S.known source.old) (EndsTooEarly place) }
    ensures fault { IfFault result (FailsReading place (length buf.old)) }
    // State afterwards.
    ensures filled { IfRefused result (S.known source.old) (FillsUpTo place buf.new) }
    ensures unchanged { S.known source.new ≡ S.known source.old }
    ensures failures { CountsIo (Some result) (S.failures source.old) (S.failures source.new) }
{
    let mut done = 0;
    while done < buf.len() {
        let here = place + done as u64;
        match source.read_at(here, &mut buf[done..]) {
            Ok(0) => return Err(ErrorKind::UnexpectedEof.with_byte_offset(here)),
            Ok(count) => done += count,
            Err(error) => return Err(ErrorKind::Io(error).with_byte_offset(here)),
        }
    }
    Ok(())
}
