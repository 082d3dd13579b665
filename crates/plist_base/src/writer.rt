//! The trait of writers, which take the events of a property list.

ghost use Rattle.std.specs.Prelude.{◌≡◌, Bool, List, Err, false, true};
ghost use Rattle.plist_base.specs.Faults.{WriterFailed, fault_without_offset};

use crate::{Date, Error, Event, Integer, RealBits, Uid};
use std::borrow::{CowSlice, CowStr};

/// Keeps implementations of [`Writer`] within the crates of this repository.
pub trait Sealed {}

/// A writer takes the events of a property list, one by one.
///
/// An event can come next if the events of some property list begin with those that the writer
/// keeps (`held`), followed by this one. Until the writer fails, it returns `UnexpectedEventType`
/// or `ExpectedEndOfEventStream` for any other event, and is unchanged. It returns `OutOfMemory`,
/// `Io` and `PlistTooLarge` only for an event that can come next. It has failed then: every later
/// call returns `WriterFailed` and changes nothing. No error of a writer has an offset. The length
/// of a start is a hint, which has no effect on what can come next.
pub trait Writer: Sealed {
    ghost use Rattle.plist_base.specs.Events.{EndCollection, PlainEvent, StartArray, StartDictionary, event_of};
    ghost use Rattle.plist_base.specs.Writing.{Answer, AnswersByOrder, answer_of};

    /// The events that the writer keeps, which decide what can come next.
    ghost held: { Self → List PlainEvent };

    /// Whether an earlier call returned `OutOfMemory`, `Io` or `PlistTooLarge`.
    ghost failed: { Self → Bool };

    /// Relates the writer before a call, the event, the result, and the writer after the call.
    ghost Step: { Self → PlainEvent → Answer → Self → Type 0 };

    /// Writes an event. Every other method writes the event that it names, and fails as `write`
    /// does.
    ///
    /// # Errors
    ///
    /// - `WriterFailed` if an earlier call returned `OutOfMemory`, `Io` or `PlistTooLarge`. The
    ///   writer is unchanged.
    /// - Otherwise `UnexpectedEventType` or `ExpectedEndOfEventStream` if the event can't come
    ///   next. The writer is unchanged.
    /// - Otherwise `OutOfMemory`, `Io` or `PlistTooLarge` if the event can't be stored or written.
    ///   The writer has failed then.
    fn write(&mut self, event: Event<'_>) -> Result<(), Error>
        ensures { Step self.old (event_of event.entry) (answer_of result) self.new };

    /// Begins an array. The length is a hint of its number of items.
    fn write_start_array(&mut self, length: Option<u64>) -> Result<(), Error>
        ensures { Step self.old (StartArray length) (answer_of result) self.new }
    {
        self.write(Event::StartArray(length))
    }

    /// Begins a dictionary. The length is a hint of its number of pairs.
    ///
    /// # Examples
    ///
    /// ```rust
    /// writer.write_start_dictionary(Some(2))?;
    /// writer.write_string(CowStr::Borrowed("second"))?;
    /// writer.write_integer(Integer::from(reading.second))?;
    /// writer.write_string(CowStr::Borrowed("level"))?;
    /// writer.write_integer(Integer::from(reading.level))?;
    /// writer.write_end_collection()
    /// ```
    fn write_start_dictionary(&mut self, length: Option<u64>) -> Result<(), Error>
        ensures { Step self.old (StartDictionary length) (answer_of result) self.new }
    {
        self.write(Event::StartDictionary(length))
    }

    /// Ends the innermost array or dictionary.
    fn write_end_collection(&mut self) -> Result<(), Error>
        ensures { Step self.old EndCollection (answer_of result) self.new }
    {
        self.write(Event::EndCollection)
    }

    /// Writes a Boolean.
    fn write_boolean(&mut self, value: bool) -> Result<(), Error>
        ensures { Step self.old (event_of (Event.Boolean value)) (answer_of result) self.new }
    {
        self.write(Event::Boolean(value))
    }

    /// Writes data.
    fn write_data(&mut self, bytes: CowSlice<'_, u8>) -> Result<(), Error>
        ensures { Step self.old (event_of (Event.Data bytes.entry)) (answer_of result) self.new }
    {
        self.write(Event::Data(bytes))
    }

    /// Writes a date.
    fn write_date(&mut self, date: Date) -> Result<(), Error>
        ensures { Step self.old (event_of (Event.Date date)) (answer_of result) self.new }
    {
        self.write(Event::Date(date))
    }

    /// Writes an integer.
    fn write_integer(&mut self, value: Integer) -> Result<(), Error>
        ensures { Step self.old (event_of (Event.Integer value)) (answer_of result) self.new }
    {
        self.write(Event::Integer(value))
    }

    /// Writes the bytes of a real.
    fn write_real(&mut self, bits: RealBits) -> Result<(), Error>
        ensures { Step self.old (event_of (Event.Real bits)) (answer_of result) self.new }
    {
        self.write(Event::Real(bits))
    }

    /// Writes a string, which may be a key.
    fn write_string(&mut self, text: CowStr<'_>) -> Result<(), Error>
        ensures { Step self.old (event_of (Event.String text.entry)) (answer_of result) self.new }
    {
        self.write(Event::String(text))
    }

    /// Writes the number of an object in a keyed archive.
    fn write_uid(&mut self, uid: Uid) -> Result<(), Error>
        ensures { Step self.old (event_of (Event.Uid uid)) (answer_of result) self.new }
    {
        self.write(Event::Uid(uid))
    }

    // Until the writer fails, the result of a call depends on whether the event can come next.
    ghost law: { (before : Self) (event : PlainEvent) (answer : Answer) (after : Self)
        → Step before event answer after → failed before ≡ false
        → AnswersByOrder (held before) event answer (held after) (failed after) (after ≡ before) };

    // After a failure, each call returns `WriterFailed` and changes nothing.
    ghost law_of_failed: { (before : Self) (event : PlainEvent) (answer : Answer) (after : Self)
        → Step before event answer after → failed before ≡ true
        → (answer ≡ Err (fault_without_offset WriterFailed)) × (after ≡ before) };
}
