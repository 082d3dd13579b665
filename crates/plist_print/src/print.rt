//! Prints the events of a source.

ghost use Rattle.std.specs.Prelude.{◌≡◌, IfSome};
ghost use Rattle.plist_binread.specs.BinaryReader.{binary_source, file_items};
ghost use Rattle.plist_base.specs.Unfolding.{items_of_file};
ghost use Rattle.plist_print.specs.Printing.{CountsReads, PrintsKnown};
ghost use Rattle.plist_print.specs.PrintRuns.{PrintsReader, PrintsRun, PrintsSource};

use crate::printer::Printer;
use plist_base::sink::flush;
use plist_base::{Error, EventSource, FixedBuffer, Sink, Source};
use plist_binread::BinaryReader;
use std::alloc::Global;
use std::io::Write;

// Prints the remaining events of a source, without flushing the writer.
fn print_unflushed<I: EventSource, W: Write>(
    alloc: Global,
    source: &mut I,
    writer: &mut W,
) -> Result<(), Error>
    ensures { PrintsRun I.yields source.old result source.new (W.contents writer.old)
        (W.contents writer.new) }
{
    let mut buffer = FixedBuffer::new(alloc)?;
    let sink = Sink::new(&mut buffer, writer);
    Printer { sink }.print_all(source)
}

/// Prints the remaining events of a source, each on a line of its own, and flushes the writer at
/// the end.
///
/// # Errors
///
/// The first error of the source, after the lines of the events before it were written. If a write
/// fails, the error is `Io` without an offset, and a prefix of the lines is written. If the buffer
/// can't be allocated, it is `OutOfMemory`, and nothing is written. A failed flush is an error only
/// if nothing failed before it.
pub fn print_source<I: EventSource, W: Write>(
    alloc: Global,
    source: &mut I,
    writer: &mut W,
) -> Result<(), Error>
    ensures { PrintsRun I.yields source.old result source.new (W.contents writer.old)
        (W.contents writer.new) }
{
    let sent = print_unflushed(alloc, source, writer);
    let flushed = flush(writer);
    sent?;
    flushed
}

/// Prints the remaining events of a reader, as [`print_source`] does for any source.
///
/// # Errors
///
/// Any error of [`print_source`].
pub fn print_reader<S: Source, W: Write>(
    alloc: Global,
    reader: &mut BinaryReader<S>,
    writer: &mut W,
) -> Result<(), Error>
    ensures printed { IfSome (file_items S.known reader.old)
        (λ items. PrintsKnown items result (W.contents writer.old) (W.contents writer.new)) }
    ensures answers { PrintsReader reader.old result reader.new
        (W.contents writer.old) (W.contents writer.new) }
    ensures unchanged { S.known (binary_source reader.new) ≡ S.known (binary_source reader.old) }
    ensures failures { CountsReads result (S.failures (binary_source reader.old))
        (S.failures (binary_source reader.new)) }
{
    print_source(alloc, reader, writer)
}

/// Prints the events of a binary property list, as [`print_source`] does for any source.
///
/// # Errors
///
/// Any error of [`print_source`].
pub fn print_events<S: Source, W: Write>(
    alloc: Global,
    source: S,
    writer: &mut W,
) -> Result<(), Error>
    ensures printed { IfSome (S.known source) (λ bytes. PrintsKnown (items_of_file bytes) result
        (W.contents writer.old) (W.contents writer.new)) }
    ensures answers { PrintsSource S.known S.failures source result (W.contents writer.old)
        (W.contents writer.new) }
{
    let mut reader = BinaryReader::new(alloc, source);
    print_reader(alloc, &mut reader, writer)
}
