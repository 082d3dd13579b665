//! Proved callers of events: an event that is written by the method for its kind, or as a copy; a
//! copy of an integer; the hash of data; and integers in their order.

ghost use Rattle.std.specs.Prelude.{◌≡◌, ◌<ℤ◌, ◌↔◌, IsTrue, OnOk, false};
ghost use Rattle.std.specs.Cow.{cow_slice_items};
ghost use Rattle.std.specs.Hash.DefaultHasher as sip;
ghost use Rattle.plist_base.specs.Events.{event_of};
ghost use Rattle.plist_base.specs.Writing.{answer_of};

use plist_base::{Error, Event, Integer, Writer};
use std::alloc::Global;
use std::borrow::CowSlice;
use std::hash::{DefaultHasher, Hash, Hasher};

/// Writes an event by the method for events of its kind, which writes exactly the event.
///
/// # Errors
///
/// Any error of the writer.
pub fn write_by_name<W: Writer>(writer: &mut W, event: Event<'_>) -> Result<(), Error>
    ensures { W.Step writer.old (event_of event.entry) (answer_of result) writer.new }
{
    match event {
        Event::StartArray(length) => writer.write_start_array(length),
        Event::StartDictionary(length) => writer.write_start_dictionary(length),
        Event::EndCollection => writer.write_end_collection(),
        Event::Boolean(value) => writer.write_boolean(value),
        Event::Data(bytes) => writer.write_data(bytes),
        Event::Date(date) => writer.write_date(date),
        Event::Integer(value) => writer.write_integer(value),
        Event::Real(bits) => writer.write_real(bits),
        Event::String(text) => writer.write_string(text),
        Event::Uid(uid) => writer.write_uid(uid),
    }
}

/// Writes a copy of an event's copy, which is equal to the event.
///
/// # Errors
///
/// `OutOfMemory` if the event can't be copied, and then it isn't written; otherwise any error of
/// the writer.
pub fn write_copies<W: Writer>(
    alloc: Global,
    writer: &mut W,
    event: &Event<'_>,
) -> Result<(), Error>
    ensures { OnOk result (W.Step writer.old (event_of event.now) (answer_of result) writer.new) }
{
    let copy = event.clone(alloc)?.into_owned(alloc)?;
    writer.write(copy)
}

/// Returns the hash of data, which is the hash of its bytes in one write.
pub fn hash_of_data(bytes: CowSlice<'_, u8>) -> u64
    ensures { result ≡ sip.finish (sip.write sip.initial (cow_slice_items bytes.entry)) }
{
    let mut state = DefaultHasher::new();
    Event::Data(bytes).hash(&mut state);
    state.finish()
}

/// Returns `true` if a number is below another.
pub fn is_below(number: Integer, other: Integer) -> bool
    ensures { IsTrue result ↔ (number <ℤ other) }
{
    number < other
}

/// Returns `true` if an integer can't be copied. It always can, since its copy allocates no memory.
pub fn copy_of_an_integer_fails(alloc: Global, value: Integer) -> bool
    ensures { result ≡ false }
{
    match Event::Integer(value).clone(alloc) {
        Ok(_copy) => false,
        Err(_error) => true,
    }
}
