//! Writes a property list in the binary format.

ghost use Rattle.std.specs.Prelude.{◌≡◌, ℕ, List, Option, IfErr, None};
ghost use Rattle.std.specs.Option.{option_map};
ghost use Rattle.plist_base.specs.Bracketing.{AreTreeEvents};
ghost use Rattle.plist_base.specs.Faults.{offset_of};
ghost use Rattle.plist_binwrite.specs.Files.{least_files};
ghost use Rattle.plist_binwrite.specs.SendingAs.{SendsAs};
ghost use Rattle.plist_buffer.specs.EventBuffers.{buffered_events};
ghost use Rattle.plist_reader.specs.Reader.{items_of_input};
ghost use Rattle.plist_base.specs.Writing.{answer_of};
ghost use Rattle.plist_commands.specs.Converting.{CollectsItems, Converts, ConvertsSource, ConvertsValue, HoldsTree, IfOkIs, ReadsSource};
ghost use Rattle.plist_commands.specs.CollectorSteps.{IsEmpty, collected};
ghost use Rattle.plist_commands.specs.declared.convert.FastPath.TheVariants.{Sent};

use crate::collector::Collector;
use crate::commands::open_source;
use plist::{LazyFile, Value};
use plist_base::{Error, EventSource, Source};
use plist_binwrite::write_file;
use plist_buffer::event_buffer::EventBuffer;
use plist_buffer::repeated_keys::repeats_key;
use plist_reader::Reader;
use std::alloc::Global;
use std::io::Write;
use std::rt::Files;

/// The result of writing a property list without making its value.
#[derive(Clone, Copy)]
pub enum FastPath {
    /// The file was written.
    Sent,
    /// Nothing was written: a dictionary has a key twice, or the events don't form a value.
    NotApplicable,
}

// Buffers the events of a source, and returns whether they are those of a tree. The source is
// dropped.
//
// The collector pauses after the first event, since the reader of a binary file then knows the
// number of its objects, and there can't be more different scalars than objects. For ASCII the
// number is 0, which is no hint. The function isn't inlined, since moving the reader uses much of
// the call stack.
#[inline(never)]
fn collect_source<S: Source>(
    alloc: Global,
    source: S,
    collector: &mut Collector,
) -> Result<bool, Error>
    requires empty { IsEmpty collector.old }
    ensures collects { CollectsItems (option_map items_of_input (S.known source)) result
        (collected collector.new) }
    ensures answers { ReadsSource S.known S.failures source result (collected collector.new) }
{
    let mut reader = Reader::new(alloc, source);
    collector.pauses = true;
    let first = reader.visit(collector);
    if !collector.has_paused(&first) {
        return collector.answer(first);
    }
    collector.expect_scalars(reader.objects_in_file());
    let others = reader.visit(collector);
    collector.answer(others)
}

// Writes the events of a tree as a file, if no dictionary has a key twice.
fn send_events<W: Write>(
    alloc: Global,
    pending: &EventBuffer,
    writer: &mut W,
) -> Result<FastPath, Error>
    requires { AreTreeEvents (buffered_events pending.now) }
    ensures converts { (known : Option (List ℕ))
        → HoldsTree (option_map items_of_input known) (buffered_events pending.now)
        → Converts W.contents known result writer.old writer.new }
    ensures wrote { IfOkIs result Sent (SendsAs least_files W.contents
        (buffered_events pending.now) (Ok tt) writer.old writer.new) }
    ensures without_offset { IfErr result (λ error. offset_of error ≡ None) }
{
    let events = pending.events();
    if repeats_key(alloc, events)? {
        return Ok(FastPath::NotApplicable);
    }
    write_file(alloc, events, writer)?;
    Ok(FastPath::Sent)
}

/// Writes the property list of a source as a binary file, without making a value, and returns
/// [`FastPath::Sent`]. If a dictionary has a key twice, or the events don't form a value, it writes
/// nothing and returns [`FastPath::NotApplicable`]. All events of the source are read before the
/// first byte is written, and the bytes are those that [`Value::to_writer_binary`] writes for the
/// value that [`Value::from_reader`] returns.
///
/// # Errors
///
/// - The errors of [`Value::from_reader`]. Nothing was written then.
/// - The errors of [`Value::to_writer_binary`], whose documentation says what was written then.
pub fn convert_binary<S: Source, W: Write>(
    alloc: Global,
    source: S,
    writer: &mut W,
) -> Result<FastPath, Error>
    ensures converts { Converts W.contents (S.known source) result writer.old writer.new }
    ensures answers { ConvertsSource S.known S.failures source result
        (λ held. SendsAs least_files W.contents held (Ok tt) writer.old writer.new) }
{
    let mut collector = Collector::new(alloc);
    // The collector is dropped in one place, after the match.
    match collect_source(alloc, source, &mut collector) {
        Ok(true) => send_events(alloc, &collector.pending, writer),
        Ok(false) => Ok(FastPath::NotApplicable),
        Err(error) => Err(error),
    }
}

// Like `convert_binary`, but writes to the file of this name, and has the system store it.
fn stream_to<R: Files, S: Source>(
    rt: &R,
    alloc: Global,
    source: S,
    to: &str,
) -> Result<FastPath, Error> {
    let mut output = LazyFile::new(rt, to);
    let sent = convert_binary(alloc, source, &mut output)?;
    if let FastPath::Sent = sent {
        output.sync()?;
    }
    Ok(sent)
}

// Writes the property list of a file to another one, by making its value.
fn convert_value<R: Files>(rt: &R, alloc: Global, from: &str, to: &str) -> Result<(), Error>
    ensures read { ConvertsValue R.File (answer_of result) }
{
    let value = Value::from_file(rt, alloc, from)?;
    let stored = value.to_file_binary(rt, alloc, to);
    value.destroy();
    stored
}

/// Writes the property list of a file to another one, or to the same file. The other file is
/// created or truncated only when nothing can fail any more except writing it.
///
/// # Errors
///
/// An error is returned if a file can't be opened, read or written, if the first one doesn't
/// contain a property list, or if an allocation fails.
pub fn convert_file<R: Files>(rt: &R, alloc: Global, from: &str, to: &str) -> Result<(), Error> {
    let source = open_source(rt, alloc, from)?;
    match stream_to(rt, alloc, source, to)? {
        FastPath::Sent => Ok(()),
        FastPath::NotApplicable => convert_value(rt, alloc, from, to),
    }
}
