//! Reads the bytes of a source one after another, and buffers them.

ghost use Rattle.std.specs.Prelude.{◌≡◌, ◌≤◌, Some};
ghost use Rattle.plist_base.specs.Sources.{CountsFailure};

use plist_ascii::ByteReader;
use plist_base::{Sequential, Source};
use std::io;
use std::io::Read;

// The number of bytes that one read of the source requests.
const WINDOW: usize = 512;

/// Reads a source from its first byte on, at most 2^64 - 1 bytes.
///
/// It calls the source only if a byte is requested while its buffer is empty, and buffers all bytes
/// that the call returned. It counts the failures of the source.
///
/// An [`AsciiReader`](plist_ascii::AsciiReader) over a `BufferedSource` counts the failures of the
/// source, as [`Reader`](crate::Reader) does. One over a [`Sequential`] doesn't, since every `Read`
/// is a `ByteReader` that counts no failures.
///
/// ```text
/// let mut reader = AsciiReader::new(alloc, BufferedSource::new(source));
/// while let Some(item) = reader.next() { .. }
/// ```
#[derive(Drop)]
pub struct BufferedSource<R> {
    inner: Sequential<R>,
    // The bytes up to `end` are those that the last read returned. The bytes up to `from` have been
    // consumed.
    window: [u8; WINDOW],
    from: usize,
    end: usize,
    ghost within: { (from ≤ end) × (end ≤ 512) },
}

impl<R: Source> BufferedSource<R> {
    ghost use Rattle.std.specs.Prelude.{◌≡◌, [], OnOk};
    ghost use Rattle.std.specs.Io.KnownBytes.{IsAtEnd};
    ghost use Rattle.plist_reader.specs.Reader.{buffered_bytes, buffered_place, buffered_source, stream_bytes_left};

    /// Creates a `BufferedSource` from which no byte has been read.
    pub fn new(source: R) -> Self
        ensures source { buffered_source result ≡ source }
        ensures place { buffered_place result ≡ 0 }
        ensures buffered_bytes { buffered_bytes result ≡ [] }
    {
        BufferedSource {
            inner: Sequential::new(source),
            window: [0; WINDOW],
            from: 0,
            end: 0,
        }
    }

    /// Returns the source. Bytes that are buffered but not consumed are lost.
    pub fn into_inner(self) -> R
        ensures { result ≡ buffered_source self }
    {
        self.inner.into_inner()
    }

    // Reads from the source if no byte is buffered. After a success a byte is buffered, unless none
    // remains.
    fn fill(&mut self) -> Result<(), io::Error>
        ensures bytes { OnOk result (stream_bytes_left R.known self.new
            ≡ stream_bytes_left R.known self.old) }
        ensures end { OnOk result (buffered_bytes self.new ≡ [] → IsAtEnd
            (stream_bytes_left R.known self.new)) }
        ensures failures { CountsFailure result (R.failures (buffered_source self.old))
            (R.failures (buffered_source self.new)) }
    {
        if self.from < self.end {
            return Ok(());
        }
        let count = self.inner.read(&mut self.window)?;
        self.from = 0;
        self.end = count;
        Ok(())
    }
}

impl<R: Source> ByteReader for BufferedSource<R> {
    ghost use Rattle.std.specs.Prelude.{Some};
    ghost use Rattle.plist_reader.specs.Reader.{buffered_bytes, buffered_source, stream_bytes_left};

    ghost remaining = { stream_bytes_left R.known };

    ghost failures = { λ s. Some (R.failures (buffered_source s)) };

    ghost window = { buffered_bytes };

    fn next_byte(&mut self) -> Result<Option<u8>, io::Error> {
        self.fill()?;
        if self.from == self.end {
            return Ok(None);
        }
        let byte = self.window[self.from];
        self.from += 1;
        Ok(Some(byte))
    }

    fn buffered(&self) -> &[u8] {
        &self.window[self.from..self.end]
    }

    fn consume(&mut self, count: usize) {
        self.from += count;
    }
}
