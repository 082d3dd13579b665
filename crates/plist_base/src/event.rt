//! The events of a property list.

ghost use Rattle.std.specs.Prelude.{◌≡◌, IfErr, IfOk};
ghost use Rattle.plist_base.specs.Events.{IsTextOrDataEvent, event_of, shape_of, text_or_data};
ghost use Rattle.plist_base.specs.Outcomes.{OnlyMemory};

use crate::{Date, Error, Integer, RealBits, Uid};
use std::alloc::Global;
use std::borrow::{CowSlice, CowStr};
use std::hash::{Hash, Hasher};

/// An event of a property list. Strings and data may be borrowed.
///
/// Two events are equal if they are of one kind and have equal contents, borrowed or not. The
/// length of a start is part of its contents.
#[derive(Debug, Drop, PartialEq, Eq)]
pub enum Event<'a> {
    /// An array begins. Its length is a hint.
    StartArray(Option<u64>),
    /// A dictionary begins; keys and values follow in turn. Its length, in pairs, is a hint.
    StartDictionary(Option<u64>),
    /// The innermost array or dictionary ends.
    EndCollection,
    /// A Boolean.
    Boolean(bool),
    /// Bytes.
    Data(CowSlice<'a, u8>),
    /// A date.
    Date(Date),
    /// An integer.
    Integer(Integer),
    /// The bytes of a real.
    Real(RealBits),
    /// A string. Keys are strings, too.
    String(CowStr<'a>),
    /// The number of an object in a keyed archive.
    Uid(Uid),
}

/// An event that owns its content.
pub type OwnedEvent = Event<'static>;

/// How an event affects the open collections: it opens one, closes one, or leaves them as they are.
#[derive(Clone, Copy, Debug, PartialEq, Eq)]
pub enum EventShape {
    /// An array begins.
    StartArray,
    /// A dictionary begins.
    StartDictionary,
    /// The innermost array or dictionary ends.
    EndCollection,
    /// A scalar of any kind. A string may be a key.
    Scalar,
}

impl<'a> Event<'a> {
    /// Converts the event into one that owns its content. Borrowed strings and data are copied.
    ///
    /// # Errors
    ///
    /// `OutOfMemory`, without an offset, if the copy can't be allocated. The event is dropped then.
    #[inline(always)]
    pub fn into_owned(self, alloc: Global) -> Result<OwnedEvent, Error>
        ensures event { IfOk result (λ owned. event_of owned ≡ event_of self.entry) }
        ensures memory { OnlyMemory result }
        ensures copied { IfErr result (λ _. IsTextOrDataEvent (event_of self.entry)) }
    {
        Ok(match self {
            Event::StartArray(length) => Event::StartArray(length),
            Event::StartDictionary(length) => Event::StartDictionary(length),
            Event::EndCollection => Event::EndCollection,
            Event::Boolean(value) => Event::Boolean(value),
            Event::Data(bytes) => Event::Data(CowSlice::Owned(bytes.into_owned(alloc)?)),
            Event::Date(date) => Event::Date(date),
            Event::Integer(value) => Event::Integer(value),
            Event::Real(bits) => Event::Real(bits),
            Event::String(text) => Event::String(CowStr::Owned(text.into_owned(alloc)?)),
            Event::Uid(uid) => Event::Uid(uid),
        })
    }

    /// Returns the event with its string or data borrowed from it.
    #[inline(always)]
    pub fn as_borrowed(&self) -> Event<'_>
        ensures { event_of result ≡ event_of self.now }
    {
        match self {
            Event::StartArray(length) => Event::StartArray(*length),
            Event::StartDictionary(length) => Event::StartDictionary(*length),
            Event::EndCollection => Event::EndCollection,
            Event::Boolean(value) => Event::Boolean(*value),
            Event::Data(bytes) => Event::Data(CowSlice::Borrowed(bytes.as_slice())),
            Event::Date(date) => Event::Date(*date),
            Event::Integer(value) => Event::Integer(*value),
            Event::Real(bits) => Event::Real(*bits),
            Event::String(text) => Event::String(CowStr::Borrowed(text.as_str())),
            Event::Uid(uid) => Event::Uid(*uid),
        }
    }

    /// Returns how the event affects the open collections.
    #[inline(always)]
    pub fn shape(&self) -> EventShape
        ensures { result ≡ shape_of (event_of self.now) }
    {
        match self {
            Event::StartArray(_) => EventShape::StartArray,
            Event::StartDictionary(_) => EventShape::StartDictionary,
            Event::EndCollection => EventShape::EndCollection,
            _ => EventShape::Scalar,
        }
    }

    /// Returns the bytes of a string or of data, and an empty slice for any other event.
    #[inline(always)]
    pub fn text_or_data(&self) -> &[u8]
        ensures { result.now ≡ text_or_data (event_of self.now) }
    {
        match self {
            Event::String(text) => text.as_str().as_bytes(),
            Event::Data(bytes) => bytes.as_slice(),
            _ => &[],
        }
    }

    /// Copies the event into one that owns its content.
    ///
    /// # Errors
    ///
    /// `OutOfMemory`, without an offset, if the copy of a string or of data can't be allocated.
    pub fn clone(&self, alloc: Global) -> Result<OwnedEvent, Error>
        ensures event { IfOk result (λ copy. event_of copy ≡ event_of self.now) }
        ensures copied { IfErr result (λ _. IsTextOrDataEvent (event_of self.now)) }
        ensures memory { OnlyMemory result }
    {
        self.as_borrowed().into_owned(alloc)
    }
}

/// Writes the content to the hasher in one call. Starts and ends write nothing.
impl Hash for Event<'_> {
    ghost use Rattle.std.proofs.Common.{ap};
    ghost use Rattle.plist_base.specs.inner.Hashing.{same_event, writes_of};

    ghost hash_input = { λ event. writes_of (event_of event) };

    ghost respects_eq = { λ x y same. ap writes_of (same_event x y same) };

    fn hash<H: Hasher>(&self, state: &mut H) {
        match self {
            Event::StartArray(_) | Event::StartDictionary(_) | Event::EndCollection => {}
            Event::Boolean(value) => state.write_u8(u8::from(*value)),
            Event::Data(bytes) => state.write(bytes.as_slice()),
            Event::Date(date) => state.write(&date.to_plist_real()),
            Event::Integer(value) => state.write_i128(value.widened()),
            Event::Real(RealBits::Four(bytes)) => state.write(bytes),
            Event::Real(RealBits::Eight(bytes)) => state.write(bytes),
            Event::String(text) => state.write(text.as_str().as_bytes()),
            Event::Uid(uid) => state.write_u64(uid.get()),
        }
    }
}
