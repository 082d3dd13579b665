//! Copies the events of a source to a writer.

ghost use Rattle.plist_base.specs.Copying.{Copies, WritesEvent};

use crate::{Error, Event, EventSource, EventVisitor, Writer};
use std::ops::ControlFlow;

// A visitor that writes the events that it takes, and stops at the first error of the writer.
#[derive(Drop)]
struct EventCopier<'w, W> {
    writer: &'w mut W,
    // The error of the writer, or `Ok`.
    result: Result<(), Error>,
}

impl<'w, W: Writer> EventVisitor for EventCopier<'w, W> {
    ghost step = { WritesEvent W.Step };

    #[inline(always)]
    fn event(&mut self, event: Event<'_>) -> ControlFlow<()> {
        match self.writer.write(event) {
            Ok(()) => ControlFlow::Continue(()),
            Err(error) => {
                self.result = Err(error);
                ControlFlow::Break(())
            }
        }
    }
}

/// Writes the remaining events of a source to a writer, until none remains or an error occurs.
///
/// This is the fastest way to pass events on: the source lends the strings and the data of most
/// events to the writer without copying them, which an iterator of owned events can't do.
///
/// # Errors
///
/// The error that replaces an event of the source, or the error that the writer returns for an
/// event. The events that precede it were written.
///
/// # Examples
///
/// ```rust
/// let mut reader = BinaryReader::new(alloc, file);
/// let mut writer = BinaryWriter::new(alloc, Vec::new(alloc));
/// let done: Result<(), Error> = copy_events(&mut reader, &mut writer);
/// done?;
/// Ok(writer.into_inner())
/// ```
pub fn copy_events<S: EventSource, W: Writer>(source: &mut S, writer: &mut W) -> Result<(), Error>
    ensures { Copies S.yields W.Step (source.old, writer.old) result (source.new, writer.new) }
{
    let mut copier = EventCopier {
        writer,
        result: Ok(()),
    };
    source.visit(&mut copier)?;
    let EventCopier { result, .. } = copier;
    result
}
