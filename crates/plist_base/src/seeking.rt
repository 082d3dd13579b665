//! A source over a reader that can seek.

ghost use Rattle.std.specs.Prelude.{◌≡◌, ◌≤◌, length, IfOk, None};
ghost use Rattle.plist_base.specs.Sources.{CountsFailure, failures_of, seekable_of};

use crate::source::{Source, copy_at};
use crate::windows::Windows;
use std::alloc::Global;
use std::io;
use std::io::{Read, Seek, SeekFrom};

/// A source over a reader that can seek, such as a file. Its bytes aren't known, since others may
/// change them.
///
/// It buffers windows of the file, so that many small reads near one another cost one read of `R`,
/// even if they alternate between several parts of the file. [`Source::buffered`] returns the bytes
/// of a window. Without an allocator there are eight windows of 512 bytes. With one there are at
/// first eight windows of 8 KiB, and up to 8,192 if windows have to be filled again. Anything that
/// begins in a window and has at most 64 bytes is buffered completely, unless the read of the
/// window was short. A read or seek that fails with `Interrupted` isn't retried.
///
/// The struct itself has less than 5 KiB, so that it can be moved on a small call stack.
#[derive(Drop)]
pub struct Seeking<R> {
    inner: R,
    failed: u64,
    windows: Windows,
}

impl<R: Read + Seek> Seeking<R> {
    /// Creates a source over the given reader, from its byte 0 on, whatever the reader's position
    /// is.
    ///
    /// It has eight windows of 512 bytes, and allocates nothing. A large file is read faster by
    /// [`Seeking::with_windows`].
    pub fn new(inner: R) -> Self
        ensures inner { seekable_of result ≡ inner }
        ensures failures { failures_of result ≡ 0 }
    {
        Seeking {
            inner,
            failed: 0,
            windows: Windows::new(None),
        }
    }

    /// Creates a source with windows of 8 KiB over the given reader.
    ///
    /// It allocates eight windows when it fills the first one. If windows have to be filled again,
    /// it doubles their number, up to 8,192 windows (68 MB). If there are more than eight, their
    /// number is less than twice the number of parts of 8 KiB in the file. If the first allocation
    /// fails, it uses the windows of [`Seeking::new`]. If a later one fails, it continues with the
    /// windows that it has.
    ///
    /// # Examples
    ///
    /// ```rust
    /// let file = fs::open(rt, FILE)?;
    /// Value::from_reader(alloc, Seeking::with_windows(alloc, file))
    /// ```
    pub fn with_windows(alloc: Global, inner: R) -> Self
        ensures inner { seekable_of result ≡ inner }
        ensures failures { failures_of result ≡ 0 }
    {
        Seeking {
            inner,
            failed: 0,
            windows: Windows::new(Some(alloc)),
        }
    }

    /// Returns the inner reader. Its position is unspecified.
    pub fn into_inner(self) -> R
        ensures { result ≡ seekable_of self }
    {
        let Seeking { inner, .. } = self;
        inner
    }

    // Counts the result if it is an error, and returns it.
    fn count<T>(&mut self, answer: Result<T, io::Error>) -> Result<T, io::Error>
        ensures answer { result ≡ answer }
        ensures failures { CountsFailure result (failures_of self.old) (failures_of self.new) }
    {
        if answer.is_err() {
            self.failed = self.failed.saturating_add(1);
        }
        answer
    }

    // Reads through a window if the buffer is shorter than one, and otherwise directly. If the
    // window has no byte at this offset, it is filled first.
    fn read_there(&mut self, place: u64, buf: &mut [u8]) -> Result<usize, io::Error>
        ensures bound { IfOk result (λ count. count ≤ length buf.new) }
        ensures failures { failures_of self.new ≡ failures_of self.old }
    {
        if buf.is_empty() {
            return Ok(0);
        }
        if buf.len() < self.windows.size() {
            if self.windows.buffered(place).is_empty() {
                self.windows.fill(place, &mut self.inner)?;
            }
            let copied = copy_at(self.windows.buffered(place), 0, buf);
            if copied > 0 {
                return Ok(copied);
            }
        }
        // The read isn't shorter than a window, or a short read of the window didn't reach this
        // offset.
        self.inner.seek(SeekFrom::Start(place))?;
        self.inner.read(buf)
    }

    // Reads bytes that aren't buffered. It is a function of its own to keep `read_at` small.
    #[cold]
    #[inline(never)]
    fn read_unbuffered(&mut self, place: u64, buf: &mut [u8]) -> Result<usize, io::Error>
        ensures bound { IfOk result (λ count. count ≤ length buf.new) }
        ensures failures { CountsFailure result (failures_of self.old) (failures_of self.new) }
    {
        let answer = self.read_there(place, buf);
        self.count(answer)
    }
}

impl<R: Read + Seek + Drop> Source for Seeking<R> {
    ghost known = { λ _. None };

    ghost failures = { failures_of };

    fn size(&mut self) -> Result<u64, io::Error> {
        let answer = self.inner.seek(SeekFrom::End(0));
        self.count(answer)
    }

    fn read_at(&mut self, place: u64, buf: &mut [u8]) -> Result<usize, io::Error> {
        let copied = copy_at(self.windows.buffered(place), 0, buf);
        if copied > 0 {
            return Ok(copied);
        }
        self.read_unbuffered(place, buf)
    }

    /// Returns the bytes of a window from the offset on, without reading.
    #[inline(always)]
    fn buffered(&self, place: u64) -> &[u8] {
        self.windows.buffered(place)
    }
}
