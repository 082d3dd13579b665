//! The table of a property list's events, which stores every different scalar once.

ghost use Rattle.std.specs.Prelude.{◌≡◌, ◌^◌, ◌<◌, ◌≤◌, ◌⊎◌, true, length, OnOk, OnErr, ◌-◌, [], ℕ, List, None, Some, false, IfSome, ◌+◌, slice_get};
ghost use Rattle.std.proofs.Props.{props};
ghost use Rattle.std.specs.Cow.{cow_slice_items, cow_str_bytes};
ghost use Rattle.plist_base.specs.Events.{EndCollection, ScalarEvent, shape_of};
ghost use Rattle.plist_base.specs.Outcomes.{OnlyMemory};
ghost use Rattle.plist_buffer.specs.inner.Entries.{is_leaf, lists_of, IsValidTable, entry_at, event_numbered, event_of_entry, index_after_entry, is_start, KeepsScalars};

mod batches;
mod copies;

use crate::entries::{Entries, EntryKind, EventEntry, ScalarNumber};
use crate::expects::Expect;
use crate::long_scalar::{Form, LongScalar};
use crate::stored_scalar::ScalarRef;
use crate::wide::is_ascii_text;
use indexmap::IndexSet;
use plist_base::{CompactNumbers, Error, Event, EventShape, PackedKind, PackedScalar};
use std::alloc::{AllocError, Global};
use std::borrow::{CowSlice, CowStr};

/// The events of a property list. Every different scalar is stored once. The lengths of starts
/// aren't stored.
///
/// The table doesn't check whether the events can follow one another. An index that a call takes
/// must be less than [`EventTable::len`], except in [`EventTable::has_item`].
#[derive(Drop)]
pub struct EventTable<'e> {
    // The different scalars that aren't strings or data of more than eight bytes.
    small: IndexSet<PackedScalar>,
    // The different strings and data of more than eight bytes.
    long: IndexSet<LongScalar<'e>>,
    entries: Entries,
    // The indices of the open starts, the innermost last.
    unclosed: CompactNumbers,
    // The expected number of different scalars.
    expected: usize,
    // The numbers of small and of long scalars at which `make_room` next checks whether one of
    // their tables is full.
    small_full_at: usize,
    long_full_at: usize,
    ghost kept: { IsValidTable (lists_of small.keys long.keys) entries
        unclosed } by { Prim.hlevel props },
    ghost few: { length entries < 2 ^ 63 },
}

// Returns for how many scalars a set reserves memory that contains `count` of the `held` scalars,
// which are fewer than expected. It is assumed that each set grows by the same factor.
fn additional_scalars(count: usize, held: usize, expected: usize) -> usize
    requires { held < expected }
{
    let missing = expected - held;
    let factor = (missing / (held + 1)).min(14) + 1;
    count
        .saturating_mul(factor)
        .saturating_add(1000)
        .min(missing)
}

// Returns the bytes of a string, which remain borrowed or owned.
fn bytes_of_text<'e>(text: CowStr<'e>) -> CowSlice<'e, u8>
    ensures { cow_slice_items result ≡ cow_str_bytes text.entry }
{
    match text {
        CowStr::Borrowed(borrowed) => CowSlice::Borrowed(borrowed.as_bytes()),
        CowStr::Owned(owned) => CowSlice::Owned(owned.into_bytes()),
    }
}

impl<'e> EventTable<'e> {
    ghost use Rattle.plist_buffer.specs.StoredScalars.{IsStored, event_of_long, event_of_small, scalar_of_ref};
    ghost use Rattle.plist_base.specs.Trees.{String as StringScalar};
    ghost use Rattle.plist_buffer.specs.EventTable.{plain_event, plain_events, scalars_of, lists_in, collection_number, count_collections, is_end, GrowsBy, HasItem, table_event};
    ghost use Rattle.plist_buffer.specs.inner.Columns.{scalar_named};
    ghost use Rattle.plist_buffer.specs.Expects.{expected_inside, innermost};
    ghost use Rattle.plist_buffer.specs.inner.UnclosedStarts.{skip_after};

    /// Creates an empty table. It allocates no memory.
    pub fn new(alloc: Global) -> EventTable<'e>
        ensures events { plain_events result ≡ [] }
    {
        EventTable {
            small: IndexSet::new(alloc),
            long: IndexSet::new(alloc),
            entries: Entries::new(alloc),
            unclosed: CompactNumbers::new(alloc),
            expected: 0,
            small_full_at: 0,
            long_full_at: 0,
        }
    }

    /// Sets the expected number of different scalars. This is only a hint, and the actual number
    /// may be greater or smaller. It makes the table of scalars grow in larger steps. The call
    /// allocates no memory.
    pub fn expect_scalars(&mut self, count: usize)
        ensures events { plain_events self.new ≡ plain_events self.old }
    {
        self.expected = count;
        self.small_full_at = 0;
        self.long_full_at = 0;
    }

    // If fewer scalars are stored than are expected, and one of their tables is full, reserves
    // memory for the expected ones, but for no more than 16 n + 1000, where n is the number of
    // scalars in the table. This limits the cost of a wrong hint. If the allocation fails, the
    // table grows when scalars are added.
    #[cold]
    #[inline(never)]
    fn reserve_scalars(&mut self)
        ensures events { plain_events self.new ≡ plain_events self.old }
        ensures scalars { lists_in self.new ≡ lists_in self.old }
    {
        let held = self.count_scalars();
        if held >= self.expected {
            self.small_full_at = usize::MAX;
            self.long_full_at = usize::MAX;
            return;
        }
        let small = self.small.len();
        if small >= self.small.capacity() {
            let _ = self
                .small
                .reserve(additional_scalars(small, held, self.expected));
        }
        let long = self.long.len();
        if long >= self.long.capacity() {
            let _ = self
                .long
                .reserve(additional_scalars(long, held, self.expected));
        }
        self.small_full_at = self.small.capacity();
        self.long_full_at = self.long.capacity();
    }

    // Reserves memory for the expected scalars once a table of different scalars is full.
    #[inline(always)]
    fn make_room(&mut self)
        ensures events { plain_events self.new ≡ plain_events self.old }
        ensures scalars { lists_in self.new ≡ lists_in self.old }
    {
        if self.small.len() >= self.small_full_at || self.long.len() >= self.long_full_at {
            self.reserve_scalars();
        }
    }

    /// Returns the number of events.
    pub fn len(&self) -> usize
        ensures { result ≡ length (plain_events self.now) }
    {
        self.entries.len()
    }

    /// Returns the number of different scalars.
    pub fn count_scalars(&self) -> usize
        ensures count { result ≡ length (scalars_of self.now) }
        ensures small { result < 2 ^ 63 }
    {
        self.small.len() + self.long.len()
    }

    /// Returns the number of ends. If all collections are closed, it is their number.
    pub fn count_collections(&self) -> usize
        ensures count { result ≡ count_collections self.now }
        ensures small { result < 2 ^ 63 }
    {
        self.entries.count_ends()
    }

    /// Returns the number of the collection that begins at an index, which is the number of
    /// collections that end before it ends. The collection must be closed.
    // It isn't forced inline, since most events are scalars: when it was, `convert` took 4 % more
    // instructions for settings.
    pub fn collection_number(&self, index: usize) -> usize
        requires start { HasItem (plain_events self.now) index }
        requires closed { table_event self.now (skip_after (plain_events self.now) index - 1)
            ≡ EndCollection }
        ensures { result ≡ collection_number self.now index }
    {
        self.entries.collection_number(index)
    }

    /// Returns the kind of the event at an index.
    pub fn kind_at(&self, index: usize) -> EventShape
        requires { index < length (plain_events self.now) }
        ensures { result ≡ shape_of (table_event self.now index) }
    {
        match self.entries.kind_at(index) {
            EntryKind::Array => EventShape::StartArray,
            EntryKind::Dictionary => EventShape::StartDictionary,
            EntryKind::End => EventShape::EndCollection,
            EntryKind::Small | EntryKind::Long => EventShape::Scalar,
        }
    }

    /// Returns `true` if a tree begins at the given index. This is `false` if the event is an end,
    /// and if the index is past the last event.
    pub fn has_item(&self, index: usize) -> bool
        ensures yes { result ≡ true → HasItem (plain_events self.now) index }
        ensures no { result ≡ false → (is_end (table_event self.now index) ≡ true)
            ⊎ (length (plain_events self.now) ≤ index) }
    {
        index < self.len() && !matches!(self.kind_at(index), EventShape::EndCollection)
    }

    /// Returns the index after the tree that begins at `index`. For an end, and for a collection
    /// that is still open, it returns the next index.
    pub fn index_after(&self, index: usize) -> usize
        requires { index < length (plain_events self.now) }
        ensures { result ≡ skip_after (plain_events self.now) index }
    {
        self.entries.following(index)
    }

    /// If the event at `index` is a scalar, returns its index among the different scalars, and
    /// otherwise `None`. Strings and data of more than eight bytes are the last of the different
    /// scalars.
    pub fn scalar_index(&self, index: usize) -> Option<usize>
        requires { index < length (plain_events self.now) }
        ensures some { IfSome result (λ scalar. slice_get (scalars_of self.now) scalar
            ≡ Some (table_event self.now index)) }
        ensures leaf { IfSome result (λ _. is_leaf (table_event self.now index) ≡ true) }
        ensures named { result
            ≡ scalar_named (lists_in self.now) (entry_at self.now.entries index) }
        ensures none { result ≡ None → is_leaf (table_event self.now index) ≡ false }
    {
        match self.entries.scalar(index) {
            Some(ScalarNumber::Small(small)) => Some(small),
            Some(ScalarNumber::Long(long)) => Some(self.small.len() + long),
            None => None,
        }
    }

    /// Returns the scalar at `index`, or `None` if the event isn't a scalar. The function is
    /// inlined, so that no scalar is copied only to be matched on.
    #[inline(always)]
    pub fn scalar_at(&self, index: usize) -> Option<ScalarRef<'_>>
        requires { index < length (plain_events self.now) }
        ensures some { IfSome result (λ scalar. table_event self.now index
            ≡ ScalarEvent (scalar_of_ref scalar)) }
        ensures stored { IfSome result IsStored }
        ensures none { result ≡ None → is_leaf (table_event self.now index) ≡ false }
    {
        match self.entries.scalar(index)? {
            ScalarNumber::Small(small) => Some(ScalarRef::Packed(*self.small.get_index(small)?)),
            ScalarNumber::Long(long) => Some(self.long.get_index(long)?.get()),
        }
    }

    // Returns `true` if the event at an index is a string.
    pub(crate) fn is_string_at(&self, index: usize) -> bool
        requires { index < length (plain_events self.now) }
        ensures { result ≡ true → (text : List ℕ)
            × (table_event self.now index ≡ ScalarEvent (StringScalar text)) }
    {
        match self.scalar_at(index) {
            Some(ScalarRef::Packed(scalar)) => matches!(scalar.kind(), PackedKind::String(_)),
            Some(ScalarRef::AsciiString(_)) => true,
            Some(ScalarRef::WideString(_)) => true,
            Some(ScalarRef::Data(_)) | None => false,
        }
    }

    // Returns what is expected in the innermost open collection, or `None` if none is open.
    pub(crate) fn innermost_expect(&self) -> Option<Expect>
        ensures { result ≡ innermost (expected_inside (plain_events self.now)) }
    {
        match self.kind_at(self.unclosed.last()?) {
            EventShape::StartArray => Some(Expect::Items),
            EventShape::StartDictionary => Some(Expect::Pairs),
            EventShape::Scalar | EventShape::EndCollection => None,
        }
    }

    // Appends a start. Its entry stores the index after itself until the collection is closed.
    fn start(&mut self, entry: EventEntry) -> Result<(), AllocError>
        requires starts { is_start entry ≡ true }
        requires after { index_after_entry (length (plain_events self.old)) entry
            ≡ length (plain_events self.old) + 1 }
        ensures events { OnOk result (GrowsBy self.old
            (event_of_entry (lists_in self.old) entry) self.new) }
        ensures unchanged { OnErr result (plain_events self.new ≡ plain_events self.old) }
    {
        self.unclosed.push(self.entries.len())?;
        if let Err(error) = self.entries.push(entry) {
            self.unclosed.pop();
            return Err(error);
        }
        Ok(())
    }

    // Appends an end, which closes the innermost open collection, if one is open.
    fn end(&mut self) -> Result<(), AllocError>
        ensures events { OnOk result (GrowsBy self.old EndCollection self.new) }
        ensures unchanged { OnErr result (plain_events self.new ≡ plain_events self.old) }
    {
        let Some(start) = self.unclosed.last() else {
            return self.entries.push(EventEntry::End);
        };
        self.entries.close(start)?;
        self.unclosed.pop();
        Ok(())
    }

    // Appends a scalar that is already stored, given its number.
    #[inline(always)]
    fn repeat(&mut self, number: ScalarNumber) -> Result<(), AllocError>
        requires { is_leaf (event_numbered (lists_in self.old) number) ≡ true }
        ensures events { OnOk result (GrowsBy self.old
            (event_numbered (lists_in self.old) number) self.new) }
        ensures scalars { lists_in self.new ≡ lists_in self.old }
        ensures unchanged { OnErr result (plain_events self.new ≡ plain_events self.old) }
    {
        self.entries.push(EventEntry::Scalar(number))
    }

    // Appends the scalar at an index once more.
    #[inline(always)]
    pub(crate) fn repeat_at(&mut self, index: usize) -> Result<(), AllocError>
        requires within { index < length (plain_events self.old) }
        requires leaf { is_leaf (table_event self.old index) ≡ true }
        ensures events { OnOk result (GrowsBy self.old (table_event self.old index) self.new) }
        ensures unchanged { OnErr result (plain_events self.new ≡ plain_events self.old) }
    {
        match self.entries.scalar(index) {
            Some(number) => self.repeat(number),
            None => unreachable!(),
        }
    }

    // Appends a small scalar, and stores it unless an equal one is stored already. If the
    // allocation for its entry fails, a scalar that was stored by this call is removed again.
    pub(crate) fn push_small(&mut self, scalar: PackedScalar) -> Result<(), AllocError>
        ensures events { OnOk result (GrowsBy self.old (event_of_small scalar) self.new) }
        ensures kept { OnOk result (KeepsScalars (lists_in self.old) (lists_in self.new)) }
        ensures unchanged { OnErr result (plain_events self.new ≡ plain_events self.old) }
    {
        self.make_room();
        let before = self.small.len();
        let Ok((index, _)) = self.small.insert_full(scalar) else {
            return Err(AllocError);
        };
        let entry = EventEntry::Scalar(ScalarNumber::Small(index));
        if let Err(error) = self.entries.push(entry) {
            self.small.truncate(before);
            return Err(error);
        }
        Ok(())
    }

    // Appends a long scalar, and stores it unless an equal one is stored already. If the
    // allocation for its entry fails, a scalar that was stored by this call is removed again.
    fn push_long(&mut self, scalar: LongScalar<'e>) -> Result<(), AllocError>
        ensures events { OnOk result (GrowsBy self.old (event_of_long scalar.entry) self.new) }
        ensures unchanged { OnErr result (plain_events self.new ≡ plain_events self.old) }
    {
        self.make_room();
        let before = self.long.len();
        let Ok((index, _)) = self.long.insert_full(scalar) else {
            return Err(AllocError);
        };
        let entry = EventEntry::Scalar(ScalarNumber::Long(index));
        if let Err(error) = self.entries.push(entry) {
            self.long.truncate(before);
            return Err(error);
        }
        Ok(())
    }

    // Appends a string of more than eight bytes. It remains borrowed or owned if it is ASCII.
    fn push_long_text(&mut self, text: CowStr<'e>) -> Result<(), AllocError>
        requires { 8 < length (cow_str_bytes text) }
        ensures events { OnOk result (GrowsBy self.old
            (ScalarEvent (StringScalar (cow_str_bytes text.entry))) self.new) }
        ensures unchanged { OnErr result (plain_events self.new ≡ plain_events self.old) }
    {
        if is_ascii_text(text.as_str()) {
            return self.push_long(LongScalar::new(Form::Ascii, bytes_of_text(text)));
        }
        let alloc = *self.long.allocator();
        self.push_long(LongScalar::encode(alloc, text.as_str())?)
    }

    // Appends an event. It returns an `AllocError` because the 120 bytes of an `Error` would be
    // zeroed on every call.
    fn take(&mut self, event: Event<'e>) -> Result<(), AllocError>
        ensures events { OnOk result (GrowsBy self.old (plain_event event.entry) self.new) }
        ensures unchanged { OnErr result (plain_events self.new ≡ plain_events self.old) }
    {
        if let Some(scalar) = PackedScalar::of_event(&event) {
            return self.push_small(scalar);
        }
        let following = self.entries.len() + 1;
        match event {
            Event::StartArray(_) => self.start(EventEntry::Array(following)),
            Event::StartDictionary(_) => self.start(EventEntry::Dictionary(following)),
            Event::EndCollection => self.end(),
            Event::Data(bytes) => self.push_long(LongScalar::new(Form::Data, bytes)),
            Event::String(text) => self.push_long_text(text),
            Event::Boolean(_)
            | Event::Date(_)
            | Event::Integer(_)
            | Event::Real(_)
            | Event::Uid(_) => unreachable!(),
        }
    }

    /// Appends an event. If it is a scalar that is equal to a stored one, it is dropped, and only
    /// the index of the stored one is added.
    ///
    /// # Errors
    ///
    /// `OutOfMemory`, without an offset, if an allocation fails. The events are unchanged then.
    #[inline(always)]
    pub fn push(&mut self, event: Event<'e>) -> Result<(), Error>
        ensures events { OnOk result (GrowsBy self.old (plain_event event.entry) self.new) }
        ensures memory { OnlyMemory result }
        ensures unchanged { OnErr result (plain_events self.new ≡ plain_events self.old) }
    {
        self.take(event)?;
        Ok(())
    }

    /// Removes all events. The allocated memory is kept.
    pub fn clear(&mut self)
        ensures events { plain_events self.new ≡ [] }
    {
        self.small.clear();
        self.long.clear();
        self.entries.clear();
        self.unclosed.clear();
    }
}
