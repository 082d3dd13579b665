//! Writes bytes to a writer: at once, or by a sink, which has a buffer of fixed size.

ghost use Rattle.std.specs.Prelude.{◌≡◌, ◌+◌, ◌≤◌, ℕ, [], length, true, false, OnErr, OnOk};
ghost use Rattle.std.specs.Io.KnownBytes.{Appends, Keeps};
ghost use Rattle.plist_base.specs.FixedBuffers.{buffer_capacity, room};
ghost use Rattle.plist_base.specs.Outcomes.{IsSizeOrNone, OnlyDevice};
ghost use Rattle.plist_base.specs.Prefixes.{AppendsPrefix};
ghost use Rattle.plist_base.specs.Sinks.{Advances, HasPut, IsSameSink, Puts, is_open, pending};

use crate::{Error, FixedBuffer};
use std::io;
use std::io::Write;

/// Writes all the bytes. A failed write isn't retried, not even after `Interrupted`.
///
/// # Errors
///
/// The error of a write that fails, or `WriteZero` if a write accepts no byte. A prefix of the
/// bytes is written then.
pub fn send<W: Write>(writer: &mut W, bytes: &[u8]) -> Result<(), io::Error>
    ensures sent { OnOk result (Appends (W.contents writer.old) (W.contents writer.new) bytes.now) }
    ensures prefix { AppendsPrefix (W.contents writer.old) (W.contents writer.new) bytes.now }
{
    let mut done = 0;
    while done < bytes.len() {
        match writer.write(&bytes[done..]) {
            Ok(0) => return Err(io::Error::from(io::ErrorKind::WriteZero)),
            Ok(count) => done += count,
            Err(failure) => return Err(failure),
        }
    }
    Ok(())
}

/// Flushes the writer.
///
/// # Errors
///
/// `Io`, without an offset, if the flush fails.
pub fn flush<W: Write>(writer: &mut W) -> Result<(), Error>
    ensures fault { OnlyDevice result }
    ensures unchanged { Keeps (W.contents writer.old) (W.contents writer.new) }
{
    writer.flush()?;
    Ok(())
}

/// Writes bytes to a writer through a buffer of [`BUFFER_CAPACITY`] bytes.
///
/// Bytes that fit into the buffer stay pending in it. For bytes that don't fit, the sink writes the
/// pending bytes and then the new ones directly, so that no call allocates memory. [`Sink::finish`]
/// writes the bytes that are still pending.
///
/// A sink is open until a write fails or accepts no byte. It keeps that error, and
/// [`Sink::finish`] returns it. A prefix of all the bytes that were put is written then. A sink
/// that isn't open drops its bytes, and never calls its writer again. A failed write isn't retried,
/// not even after `Interrupted`.
///
/// ```text
/// let mut buffer = FixedBuffer::new(alloc)?;
/// let mut sink = Sink::new(&mut buffer, writer);
/// sink.put(b"bplist00");
/// sink.finish()?;
/// ```
#[derive(Drop)]
pub struct Sink<'s, W> {
    /// The writer.
    pub writer: &'s mut W,
    /// The bytes that are pending.
    pub buffer: &'s mut FixedBuffer,
    progress: Progress,
}

// What a sink has written to its writer.
#[derive(Clone, Copy)]
struct Progress {
    // The number of bytes that were written, or `None` if it is 2^64 or more.
    sent: Option<u64>,
    // The error of the write that failed, if one did.
    failure: Option<io::Error>,
}

// Returns the sum of two numbers of bytes, or `None` if it is 2^64 or more.
fn sum(sent: Option<u64>, more: usize) -> Option<u64>
    ensures { (size : ℕ) → IsSizeOrNone sent size → IsSizeOrNone result (size + more) }
{
    sent?.checked_add(more as u64)
}

impl Progress {
    // Writes bytes, unless an earlier write failed.
    fn write<W: Write>(&mut self, writer: &mut W, bytes: &[u8])
        ensures { Advances W.contents (self.old, writer.old) bytes.now (self.new, writer.new) }
    {
        if self.failure.is_some() {
            return;
        }
        match send(writer, bytes) {
            Ok(()) => self.sent = sum(self.sent, bytes.len()),
            Err(failure) => self.failure = Some(failure),
        }
    }
}

impl<'s, W: Write> Sink<'s, W> {
    /// Creates an open sink over a writer and a buffer. The bytes that the buffer contains are
    /// pending.
    pub fn new(buffer: &'s mut FixedBuffer, writer: &'s mut W) -> Sink<'s, W>
        ensures writer { result.writer.ghost_name ≡ writer.entry.ghost_name }
        ensures buffer { result.buffer.ghost_name ≡ buffer.entry.ghost_name }
        ensures unwritten { result.writer.now ≡ writer.old }
        ensures pending { result.buffer.now ≡ buffer.old }
        ensures position { HasPut result (length (pending result)) }
        ensures working { is_open result ≡ true }
    {
        Sink {
            writer,
            buffer,
            progress: Progress {
                sent: Some(0),
                failure: None,
            },
        }
    }

    /// Returns `true` until a write fails. A loop over many parts tests this once for each part,
    /// and ends if it is `false`, since nothing more is written.
    #[inline(always)]
    pub fn is_open(&self) -> bool
        ensures { result ≡ is_open self.now }
    {
        self.progress.failure.is_none()
    }

    /// Returns the number of bytes that were put since the sink was created, including those that
    /// were pending then, or `None` if it is 2^64 or more. The number is unspecified unless the
    /// sink is open.
    pub fn position(&self) -> Option<u64>
        ensures { (size : ℕ) → HasPut self.now size → IsSizeOrNone result size }
    {
        sum(self.progress.sent, self.buffer.as_slice().len())
    }

    /// Returns how many more bytes fit into the buffer.
    #[inline(always)]
    pub fn room(&self) -> usize
        ensures { result ≡ room self.now.buffer.now }
    {
        self.buffer.room()
    }

    /// Writes the pending bytes, and empties the buffer.
    #[cold]
    #[inline(never)]
    pub fn write_pending(&mut self)
        ensures put { Puts W.contents self.old [] self.new }
        ensures empty { pending self.new ≡ [] }
        ensures room { room self.new.buffer.now ≡ buffer_capacity }
    {
        self.progress.write(self.writer, self.buffer.as_slice());
        self.buffer.clear();
    }

    /// Makes room for `size` more bytes, by writing the pending bytes if there isn't enough. `size`
    /// may be at most [`BUFFER_CAPACITY`](crate::BUFFER_CAPACITY).
    #[inline(always)]
    pub fn make_room(&mut self, size: usize)
        requires { size ≤ buffer_capacity }
        ensures put { Puts W.contents self.old [] self.new }
        ensures room { size ≤ room self.new.buffer.now }
    {
        if size > self.room() {
            self.write_pending();
        }
    }

    // Writes the pending bytes, and then these.
    #[cold]
    #[inline(never)]
    fn write_through(&mut self, bytes: &[u8])
        ensures { Puts W.contents self.old bytes.now self.new }
    {
        self.write_pending();
        self.progress.write(self.writer, bytes);
    }

    /// Puts bytes after all that were put before.
    #[tactic(auto, using(crate::proofs::SinkSteps::puts_pending))]
    pub fn put(&mut self, bytes: &[u8])
        ensures { Puts W.contents self.old bytes.now self.new }
    {
        if bytes.len() <= self.room() {
            self.buffer.push(bytes);
        } else {
            self.write_through(bytes);
        }
    }

    /// Returns the error of the write that failed.
    ///
    /// # Errors
    ///
    /// `Io`, without an offset, unless the sink is open.
    pub fn result(&self) -> Result<(), Error>
        ensures working { OnOk result (is_open self.now ≡ true) }
        ensures stopped { OnErr result (is_open self.now ≡ false) }
        ensures fault { OnlyDevice result }
    {
        match self.progress.failure {
            None => Ok(()),
            Some(failure) => Err(Error::from(failure)),
        }
    }

    /// Writes the pending bytes, and then flushes the writer once.
    ///
    /// # Errors
    ///
    /// `Io`, without an offset. If an earlier write failed, it has that error, and the writer isn't
    /// called. If a write fails or accepts no byte, a prefix of the pending bytes was written; if
    /// the flush fails, all of them were.
    pub fn finish(&mut self) -> Result<(), Error>
        ensures sent { OnOk result (Appends (W.contents self.old.writer.now)
            (W.contents self.new.writer.now) (pending self.old)) }
        ensures working { OnOk result (is_open self.old ≡ true) }
        ensures fault { OnlyDevice result }
        ensures prefix { AppendsPrefix (W.contents self.old.writer.now)
            (W.contents self.new.writer.now) (pending self.old) }
        ensures unasked { is_open self.old ≡ false → self.new.writer.now ≡ self.old.writer.now }
        ensures empty { pending self.new ≡ [] }
        ensures same { IsSameSink self.old self.new }
    {
        self.write_pending();
        self.result()?;
        flush(self.writer)
    }
}
