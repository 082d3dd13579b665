//! Proved callers of a writer: a new one hasn't failed, and returns the inner writer that it was
//! given; one that ran out of memory for an event has failed; a sink that is finished has no
//! pending bytes, and one that has failed doesn't call its writer.

ghost use Rattle.std.specs.Prelude.{◌≡◌, [], false, Err, IfErr, IfSome, IsErrAnd, ⊤};
ghost use Rattle.plist_base.specs.Faults.{Io, WriterFailed, error_kind_of, fault_of, fault_without_offset, kind_of};
ghost use Rattle.plist_base.specs.Sinks.{is_open, pending};
ghost use Rattle.plist_base.specs.Writing.{MatchKind, answer_of};
ghost use Rattle.plist_binwrite.specs.FileWriter.{sink_of};

use plist_base::{Error, ErrorKind, Event, Sink, Writer};
use plist_binwrite::BinaryWriter;
use std::alloc::Global;
use std::io::Write;

/// Creates a writer over an inner writer, and returns the inner writer, which is unchanged.
pub fn inner_again<W: Write>(alloc: Global, inner: W) -> W
    ensures { result ≡ inner }
{
    BinaryWriter::new(alloc, inner).into_inner()
}

/// Writes the first event to a new writer. The event may be rejected, but not because the writer
/// had failed.
///
/// # Errors
///
/// Any error of a [`BinaryWriter`] other than `WriterFailed`.
pub fn begin_with<W: Write + Drop>(alloc: Global, inner: W, event: Event<'_>) -> Result<(), Error>
    ensures { IfErr result (λ error. MatchKind (kind_of (error_kind_of error)) ⊤ ⊤ ⊥) }
{
    let mut writer = BinaryWriter::new(alloc, inner);
    writer.write(event)
}

/// If memory runs out for an event, returns the result of a further call, and the inner writer. The
/// writer has failed then, and nothing was written. If memory doesn't run out, returns `None`.
pub fn next_without_memory<W: Write + Drop>(
    writer: BinaryWriter<W>,
    event: Event<'_>,
    next: Event<'_>,
) -> Option<(Result<(), Error>, W)>
    ensures failed { IfSome result (λ found. answer_of found.0 ≡ Err
        (fault_without_offset WriterFailed)) }
    ensures inner { IfSome result (λ found. found.1 ≡ sink_of writer) }
{
    let mut writer = writer;
    match writer.write(event) {
        Err(error) if matches!(error.kind(), ErrorKind::OutOfMemory) => {
            let answer = writer.write(next);
            Some((answer, writer.into_inner()))
        }
        _ => None,
    }
}

/// Puts bytes into a sink that has failed, and finishes it. Its writer isn't called any more.
///
/// # Errors
///
/// `Io`, without an offset, in every case.
pub fn put_after_failure<W: Write>(sink: &mut Sink<'_, W>, bytes: &[u8]) -> Result<(), Error>
    requires { is_open sink.old ≡ false }
    ensures unasked { sink.new.writer.now ≡ sink.old.writer.now }
    ensures fails { IsErrAnd result (λ error. fault_of error ≡ fault_without_offset Io) }
{
    sink.put(bytes);
    sink.finish()
}

/// Finishes a sink, which then has no pending bytes.
///
/// # Errors
///
/// Any error of [`Sink::finish`].
pub fn finish_empties<W: Write>(sink: &mut Sink<'_, W>) -> Result<(), Error>
    ensures { pending sink.new ≡ [] }
{
    sink.finish()
}
