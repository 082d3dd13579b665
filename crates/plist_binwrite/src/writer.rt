//! The writers of binary property lists.

ghost use Rattle.std.specs.Prelude.{◌≡◌, false};
ghost use Rattle.std.proofs.Props.{props};
ghost use Rattle.plist_buffer.specs.EventBuffers.{is_whole};

use crate::sharing::{EqualScalars, Sharing};
use plist_base::{Error, ErrorKind, Event, Sealed, Writer};
use plist_buffer::event_buffer::{EventBuffer, PushError};
use std::alloc::Global;
use std::io::Write;
use std::marker::PhantomData;

/// Writes binary property lists, one after another, to a writer.
///
/// It buffers the events of the open property list. The call that completes the property list
/// plans, writes and flushes the whole file, and then no event is buffered. Before that call, the
/// inner writer isn't used. The offsets in each file count from the start of that file. The lengths
/// of starts are ignored.
///
/// # Errors
///
/// `UnexpectedEventType` if the event can't follow the buffered ones; nothing changes then.
/// `PlistTooLarge` if the file would have 2^64 bytes or more, `OutOfMemory` if an allocation fails,
/// and `Io` if a write or the flush fails. These three are returned only for an event that can
/// follow the buffered ones, and the writer has failed then: every later call returns
/// `WriterFailed`. After `PlistTooLarge` and `OutOfMemory` no byte of the property list was
/// written. After `Io` a prefix of its file was written, and all of it if the flush failed. No
/// error has an offset.
///
/// # Examples
///
/// ```rust
/// let mut writer = BinaryWriter::new(alloc, Vec::new(alloc));
/// let done = writer.write(Event::String(CowStr::Borrowed("text")));
/// let length = writer.into_inner().len() as u64;
/// done.map(|()| length)
/// ```
pub type BinaryWriter<W> = FileWriter<W, EqualScalars>;

/// Writes binary property lists, one after another. The [`Sharing`] `S` decides which equal trees
/// share an object. [`BinaryWriter`] documents what a call does, and when it fails.
#[derive(Drop)]
pub struct FileWriter<W: Write, S: Sharing> {
    writer: W,
    alloc: Global,
    pending: EventBuffer,
    has_failed: bool,
    sharing: PhantomData<S>,
    ghost between: { has_failed ≡ false → is_whole pending ≡ false } by { Prim.hlevel props },
}

impl<W: Write, S: Sharing> FileWriter<W, S> {
    ghost use Rattle.std.specs.Prelude.{◌≡◌, [], false};
    ghost use Rattle.plist_binwrite.specs.FileWriter.{open_events, failed_of, sink_of};

    /// Creates a writer without buffered events. It allocates no memory, and writes nothing.
    pub fn new(alloc: Global, writer: W) -> Self
        ensures held { open_events result ≡ [] }
        ensures failed { failed_of result ≡ false }
        ensures inner { sink_of result ≡ writer }
    {
        FileWriter {
            writer,
            alloc,
            pending: EventBuffer::new(alloc),
            has_failed: false,
            sharing: PhantomData,
        }
    }

    /// Returns the inner writer. Buffered events are dropped.
    ///
    /// # Examples
    ///
    /// ```rust
    /// let mut writer = SharingWriter::new(alloc, Vec::new(alloc));
    /// let written = write_value(alloc, value, &mut writer);
    /// let file = writer.into_inner();
    /// written.map(|()| file)
    /// ```
    pub fn into_inner(self) -> W
        ensures inner { result ≡ sink_of self }
    {
        let FileWriter {
            writer,
            pending,
            ..
        } = self;
        drop(pending);
        writer
    }
}

impl<W: Write, S: Sharing> Sealed for FileWriter<W, S> {}

impl<W: Write, S: Sharing> Writer for FileWriter<W, S> {
    ghost use Rattle.plist_binwrite.specs.FileWriter.{IsWriterStep, open_events, failed_of};

    ghost held = { open_events };

    ghost failed = { failed_of };

    ghost Step = { IsWriterStep };

    fn write(&mut self, event: Event<'_>) -> Result<(), Error> {
        if self.has_failed {
            return Err(ErrorKind::WriterFailed.without_position());
        }
        match self.pending.try_push(self.alloc, event) {
            Ok(()) => {}
            Err(PushError::Misplaced { expected, found }) => {
                let kind = ErrorKind::UnexpectedEventType { expected, found };
                return Err(kind.without_position());
            }
            Err(PushError::OutOfMemory) => {
                self.has_failed = true;
                return Err(ErrorKind::OutOfMemory.without_position());
            }
        }
        if self.pending.is_whole() {
            // Set first, so that the writer has failed if `?` returns early.
            self.has_failed = true;
            S::write_file(self.alloc, self.pending.events(), &mut self.writer)?;
            self.pending.clear();
            self.has_failed = false;
        }
        Ok(())
    }

    ghost law = { λ before event answer after step. step.order };

    ghost law_of_failed = { λ before event answer after step. step.failure };
}
