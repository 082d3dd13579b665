//! Appends copies of events to a table.

ghost use Rattle.std.specs.Prelude.{◌≡◌, ◌<◌, length, OnOk, OnErr};
ghost use Rattle.plist_base.specs.Events.{ScalarEvent, event_of};
ghost use Rattle.plist_base.specs.PackedScalars.{IsUnpackable};

use super::EventTable;
use crate::entries::{EventEntry, ScalarNumber};
use crate::long_scalar::{Form, LongRef, LongScalar};
use crate::wide::is_ascii_text;
use plist_base::Event;
use std::alloc::{AllocError, Global};
use std::borrow::{CowSlice, CowStr};

impl EventTable<'static> {
    ghost use Rattle.plist_base.specs.Trees.{String as StringScalar};
    ghost use Rattle.plist_buffer.specs.EventTable.{plain_event, plain_events, GrowsBy};
    ghost use Rattle.plist_buffer.specs.StoredScalars.{scalar_of_long_ref};

    // Appends a string or data of more than eight bytes, which is copied unless an equal one is
    // stored.
    pub(crate) fn copy_long(&mut self, alloc: Global, scalar: LongRef<'_>) -> Result<(), AllocError>
        ensures events { OnOk result (GrowsBy self.old
            (ScalarEvent (scalar_of_long_ref scalar.entry)) self.new) }
        ensures unchanged { OnErr result (plain_events self.new ≡ plain_events self.old) }
    {
        // A short one is inserted without a look-up first, since its copy allocates no memory.
        if !scalar.is_short() {
            if let Some(index) = self.long.get_index_of(&LongScalar::borrowed(scalar)) {
                return self.repeat(ScalarNumber::Long(index));
            }
        }
        self.push_long(LongScalar::copy_of(alloc, scalar)?)
    }

    // Appends a string of more than eight bytes. It is encoded if it isn't ASCII, and otherwise
    // copied unless an equal one is stored.
    fn copy_long_text(&mut self, alloc: Global, text: &str) -> Result<(), AllocError>
        requires { 8 < length text.now }
        ensures events { OnOk result (GrowsBy self.old
            (ScalarEvent (StringScalar text.now)) self.new) }
        ensures unchanged { OnErr result (plain_events self.new ≡ plain_events self.old) }
    {
        if is_ascii_text(text) {
            return self.copy_long(alloc, LongRef::new(Form::Ascii, text.as_bytes()));
        }
        self.push_long(LongScalar::encode(alloc, text)?)
    }

    /// Appends a copy of an event that isn't a scalar of at most eight bytes. A string or data that
    /// is equal to a stored one isn't copied. An owned one is moved, and so its hash is computed
    /// only once.
    ///
    /// The function is inlined because most callers pass an event whose kind they know.
    ///
    /// # Errors
    ///
    /// `AllocError` if an allocation fails. The events are unchanged then.
    #[inline(always)]
    pub(crate) fn push_copy(&mut self, alloc: Global, event: Event<'_>) -> Result<(), AllocError>
        requires { IsUnpackable (event_of event) }
        ensures events { OnOk result (GrowsBy self.old (plain_event event.entry) self.new) }
        ensures unchanged { OnErr result (plain_events self.new ≡ plain_events self.old) }
    {
        let following = self.entries.len() + 1;
        match event {
            Event::StartArray(_) => self.start(EventEntry::Array(following)),
            Event::StartDictionary(_) => self.start(EventEntry::Dictionary(following)),
            Event::EndCollection => self.end(),
            Event::Data(CowSlice::Borrowed(bytes)) => {
                self.copy_long(alloc, LongRef::new(Form::Data, bytes))
            }
            Event::Data(CowSlice::Owned(bytes)) => {
                self.push_long(LongScalar::new(Form::Data, CowSlice::Owned(bytes)))
            }
            Event::String(CowStr::Borrowed(text)) => self.copy_long_text(alloc, text),
            Event::String(CowStr::Owned(text)) => self.push_long_text(CowStr::Owned(text)),
            Event::Boolean(_)
            | Event::Date(_)
            | Event::Integer(_)
            | Event::Real(_)
            | Event::Uid(_) => unreachable!(),
        }
    }
}
