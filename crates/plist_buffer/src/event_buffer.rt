//! The buffer of the open property list's events, and what is expected next.
//!
//! Some items of an array wait until there are sixteen and another one follows, or until another
//! event follows. Then they are looked up together, which `event_table::batches` explains. Strings
//! and data of more than eight bytes don't wait.

ghost use Rattle.std.proofs.Props.{props};
ghost use Rattle.std.specs.Prelude.{◌≡◌, ◌<◌, ◌++◌, ℕ, List, Some, length, IfSome, ◌≢◌, [], false, true, None, OnOk, OnErr};
ghost use Rattle.plist_base.specs.Events.{ScalarEvent, event_of};
ghost use Rattle.plist_base.specs.Trees.{String};
ghost use Rattle.plist_buffer.specs.EventTable.{plain_events, event_at, table_event};
ghost use Rattle.plist_buffer.specs.StoredScalars.{event_of_small, events_of_small, scalar_of_long_ref};
ghost use Rattle.plist_buffer.specs.declared.expects.Expect.TheVariants.{Items};
ghost use Rattle.plist_buffer.specs.declared.expects.Transition.TheVariants.{Refused};
ghost use Rattle.plist_buffer.specs.Expects.{ExpectsNext, change_on, expected_inside, innermost, next_expected};

use crate::event_table::EventTable;
use crate::expects::{Expect, Transition};
use crate::long_scalar::LongRef;
use crate::waiting::{BATCH_SIZE, WaitingScalars};
use plist_base::{Event, EventKind, EventShape, PackedScalar, Utf16Str};
use std::alloc::{AllocError, Global};
use std::borrow::CowStr;

/// The reason why an event wasn't buffered. The type is small because the memory of a result is
/// zeroed on every call, and an `Error` has 120 bytes.
#[derive(Clone, Copy)]
pub enum PushError {
    /// The event can't follow the buffered ones.
    Misplaced {
        /// What the error names as expected: a value if no event is buffered, and otherwise a key
        /// or the end of a dictionary, even after a key, where a value is expected.
        expected: EventKind,
        /// The kind of the event.
        found: EventKind,
    },
    /// An allocation failed.
    OutOfMemory,
}

impl From<AllocError> for PushError {
    ghost use Rattle.plist_buffer.specs.declared.event_buffer.PushError.TheVariants.{OutOfMemory};

    ghost from_gives = { λ _ error. error ≡ OutOfMemory };

    fn from(_error: AllocError) -> PushError {
        PushError::OutOfMemory
    }
}

/// The buffered events of the open property list. Once they form a whole property list, no event
/// can be added until they are cleared.
///
/// The last events may wait to be appended to the table, if they are items of an array, and are
/// neither collections, nor strings or data of more than eight bytes.
#[derive(Drop)]
pub struct EventBuffer {
    held: EventTable<'static>,
    // The scalars that wait. They are items of the innermost open collection, which is an array.
    waiting: WaitingScalars,
    // What is expected next, or `None` if the events are those of a whole property list.
    expects: Option<Expect>,
    ghost wanted: { ExpectsNext (plain_events held ++ events_of_small waiting)
        expects } by { Prim.hlevel props },
    ghost items: { 0 < length waiting → expects ≡ Some Items } by { Prim.hlevel props },
}

// Returns how an event changes what is expected next.
fn change_on(expects: Option<Expect>, event: &Event<'_>) -> Transition
    ensures { result ≡ change_on expects (event_of event.now) }
{
    match expects {
        Some(expect) => expect.change_by(event),
        None => Transition::Refused,
    }
}

// Returns how a scalar changes what is expected next.
#[inline(always)]
fn change_by_scalar(expects: Option<Expect>, scalar: PackedScalar) -> Transition
    ensures { result ≡ change_on expects (event_of_small scalar) }
{
    match expects {
        Some(expect) => expect.change_by_scalar(scalar),
        None => Transition::Refused,
    }
}

// Returns what is expected next. The event that made this change is already in `held`.
#[inline(always)]
fn next_expected(
    change: Transition,
    expects: Option<Expect>,
    held: &EventTable<'static>,
) -> Option<Expect>
    ensures { result ≡ next_expected change expects
        (innermost (expected_inside (plain_events held.now))) }
{
    match change {
        Transition::Refused | Transition::Kept => expects,
        Transition::Closed => held.innermost_expect(),
        Transition::Pushed(expect) | Transition::Replaced(expect) => Some(expect),
    }
}

impl EventBuffer {
    ghost use Rattle.plist_base.specs.PackedScalars.{IsUnpackable};
    ghost use Rattle.plist_base.specs.Utf16Strings.{string_of_utf16};
    ghost use Rattle.plist_base.specs.ByteTests.{EachByte};
    ghost use Rattle.plist_buffer.specs.EventBuffers.{buffered_events, expected_instead, is_whole, Accepts, Buffers, BuffersSame, CanTake, MayBuffer};
    ghost use Rattle.plist_buffer.specs.inner.Entries.{is_leaf};

    /// Creates a buffer without events. It allocates no memory.
    pub fn new(alloc: Global) -> EventBuffer
        ensures events { buffered_events result ≡ [] }
        ensures whole { is_whole result ≡ false }
    {
        EventBuffer {
            held: EventTable::new(alloc),
            waiting: WaitingScalars::new(),
            expects: Some(Expect::OneValue),
        }
    }

    /// Sets the expected number of different scalars. This is only a hint, and the actual number
    /// may be greater or smaller. It makes the table of scalars grow in larger steps. The call
    /// allocates no memory.
    pub fn expect_scalars(&mut self, count: usize)
        ensures events { buffered_events self.new ≡ buffered_events self.old }
        ensures whole { is_whole self.new ≡ is_whole self.old }
    {
        self.held.expect_scalars(count);
    }

    // Returns the error for an event of this kind that can't follow the buffered ones.
    fn error_of_kind(&self, found: EventKind) -> PushError
        ensures { result
            ≡ PushError.Misplaced (expected_instead (buffered_events self.now)) found }
    {
        // While scalars wait, an array is open, so the second test serves only the proof.
        let expected = if self.held.len() == 0 && self.waiting.is_empty() {
            EventKind::ValueOrStartCollection
        } else {
            EventKind::DictionaryKeyOrEndCollection
        };
        PushError::Misplaced { expected, found }
    }

    // Appends the scalars that wait to the table. If an allocation fails, some of them still wait.
    #[inline(never)]
    fn append_waiting(&mut self) -> Result<(), AllocError>
        ensures same { BuffersSame self.old self.new }
        ensures settled { OnOk result (self.new.waiting ≡ []) }
    {
        let appended = self.held.append_small(self.waiting.as_slice());
        self.waiting.remove_first(appended);
        if self.waiting.is_empty() {
            Ok(())
        } else {
            Err(AllocError)
        }
    }

    // Appends the scalars that wait, if any, to the table.
    #[inline(always)]
    fn append_if_any(&mut self) -> Result<(), AllocError>
        ensures same { BuffersSame self.old self.new }
        ensures settled { OnOk result (self.new.waiting ≡ []) }
    {
        if self.waiting.is_empty() {
            return Ok(());
        }
        self.append_waiting()
    }

    // Appends the scalars that wait if there are `BATCH_SIZE`, so that another one can wait.
    #[inline(always)]
    fn append_if_full(&mut self) -> Result<(), AllocError>
        ensures same { BuffersSame self.old self.new }
        ensures below { OnOk result (length self.new.waiting < BATCH_SIZE) }
    {
        if self.waiting.is_full() {
            return self.append_waiting();
        }
        Ok(())
    }

    // Buffers a scalar, given how it changes what is expected next. An item of an array waits.
    #[inline(always)]
    fn hold_scalar(&mut self, scalar: PackedScalar, change: Transition) -> Result<(), AllocError>
        requires change { change ≡ change_on self.old.expects (event_of_small scalar) }
        requires accepted { change ≢ Refused }
        ensures taken { OnOk result (Accepts self.old (event_of_small scalar) self.new) }
        ensures same { OnErr result (BuffersSame self.old self.new) }
    {
        if let Transition::Kept = change {
            self.append_if_full()?;
            self.waiting.push(scalar);
            return Ok(());
        }
        self.append_if_any()?;
        self.held.push_small(scalar)?;
        self.expects = next_expected(change, self.expects, &self.held);
        Ok(())
    }

    // Buffers an event that isn't a scalar of at most eight bytes, given how it changes what is
    // expected next.
    #[inline(always)]
    fn hold_large(
        &mut self,
        alloc: Global,
        event: Event<'_>,
        change: Transition,
    ) -> Result<(), AllocError>
        requires change { change ≡ change_on self.old.expects (event_of event) }
        requires accepted { change ≢ Refused }
        requires large { IsUnpackable (event_of event) }
        ensures taken { OnOk result (Accepts self.old (event_of event.entry) self.new) }
        ensures same { OnErr result (BuffersSame self.old self.new) }
    {
        self.append_if_any()?;
        self.held.push_copy(alloc, event)?;
        self.expects = next_expected(change, self.expects, &self.held);
        Ok(())
    }

    // Buffers a string of more than eight bytes, given how it changes what is expected next.
    #[inline(always)]
    fn hold_long(
        &mut self,
        alloc: Global,
        text: LongRef<'_>,
        change: Transition,
    ) -> Result<(), AllocError>
        requires change { change
            ≡ change_on self.old.expects (ScalarEvent (scalar_of_long_ref text)) }
        requires accepted { change ≢ Refused }
        ensures taken { OnOk result (Accepts self.old
            (ScalarEvent (scalar_of_long_ref text.entry)) self.new) }
        ensures same { OnErr result (BuffersSame self.old self.new) }
    {
        self.append_if_any()?;
        self.held.copy_long(alloc, text)?;
        self.expects = next_expected(change, self.expects, &self.held);
        Ok(())
    }

    // Returns how the scalar at an index of the table changes what is expected next, or `Refused`
    // if the event there isn't a scalar. Only where a key is expected, the scalar is looked at.
    #[inline(always)]
    fn change_by_earlier(&self, index: usize) -> Transition
        requires { index < length (plain_events self.now.held) }
        ensures { result ≢ Refused → (is_leaf (table_event self.now.held index) ≡ true)
            × (result ≡ change_on self.now.expects (table_event self.now.held index)) }
    {
        if let EventShape::Scalar = self.held.kind_at(index) {
            return match self.expects {
                Some(Expect::OneValue) => Transition::Closed,
                Some(Expect::Items) => Transition::Kept,
                Some(Expect::Pairs) if self.held.is_string_at(index) => {
                    Transition::Pushed(Expect::OneValue)
                }
                Some(Expect::Pairs) | None => Transition::Refused,
            };
        }
        Transition::Refused
    }

    /// Buffers the scalar of an earlier event once more, given the index of that event, if it can
    /// follow the buffered events, which must not form a whole property list. Otherwise, and if the
    /// earlier event isn't a scalar, or if scalars wait, returns `None` and changes nothing.
    ///
    /// # Errors
    ///
    /// `OutOfMemory` if an allocation fails. The buffered events are unchanged then.
    #[inline(always)]
    pub fn try_repeat(&mut self, index: usize) -> Option<Result<(), PushError>>
        requires still { is_whole self.old ≡ false }
        ensures scalar { IfSome result (λ _.
            is_leaf (event_at (buffered_events self.old) index) ≡ true) }
        ensures buffers { MayBuffer self.old (event_at (buffered_events self.old) index) result
            self.new }
    {
        if index >= self.held.len() || !self.waiting.is_empty() {
            return None;
        }
        let change = self.change_by_earlier(index);
        if let Transition::Refused = change {
            return None;
        }
        if let Err(error) = self.held.repeat_at(index) {
            return Some(Err(PushError::from(error)));
        }
        self.expects = next_expected(change, self.expects, &self.held);
        Some(Ok(()))
    }

    // Buffers a string of more than eight bytes if it can follow the buffered events. Otherwise
    // returns `None` and changes nothing.
    #[inline(always)]
    fn try_push_long(&mut self, alloc: Global, text: LongRef<'_>) -> Option<Result<(), PushError>>
        requires { (content : List ℕ) × (scalar_of_long_ref text ≡ String content) }
        ensures { MayBuffer self.old (ScalarEvent (scalar_of_long_ref text.entry)) result self.new }
    {
        let change = change_on(self.expects, &Event::String(CowStr::Borrowed("")));
        if let Transition::Refused = change {
            return None;
        }
        match self.hold_long(alloc, text, change) {
            Ok(()) => Some(Ok(())),
            Err(error) => Some(Err(PushError::from(error))),
        }
    }

    /// Buffers a scalar, which may be a key, if it can follow the buffered events, which must not
    /// form a whole property list. Otherwise returns `None` and changes nothing.
    ///
    /// # Errors
    ///
    /// `OutOfMemory` if an allocation fails. The buffered events are unchanged then.
    #[inline(always)]
    pub fn try_push_packed(&mut self, scalar: PackedScalar) -> Option<Result<(), PushError>>
        requires still { is_whole self.old ≡ false }
        ensures buffers { MayBuffer self.old (event_of_small scalar) result self.new }
        ensures misplaced { result ≡ None → CanTake self.old (event_of_small scalar) → ⊥ }
    {
        let change = change_by_scalar(self.expects, scalar);
        if let Transition::Refused = change {
            return None;
        }
        match self.hold_scalar(scalar, change) {
            Ok(()) => Some(Ok(())),
            Err(error) => Some(Err(PushError::from(error))),
        }
    }

    /// Buffers a string in ASCII, which may be a key, given its bytes, if it can follow the
    /// buffered events, which must not form a whole property list. Returns `None` and changes
    /// nothing if it can't follow them, if a byte isn't ASCII, or if there are at most eight bytes:
    /// then the string is to be passed to [`EventBuffer::try_push`].
    ///
    /// # Errors
    ///
    /// `OutOfMemory` if an allocation fails. The buffered events are unchanged then.
    #[inline(always)]
    pub fn try_push_ascii(&mut self, alloc: Global, bytes: &[u8]) -> Option<Result<(), PushError>>
        requires still { is_whole self.old ≡ false }
        ensures ascii { IfSome result (λ _. EachByte (λ byte. byte < 128) bytes.now) }
        ensures buffers { MayBuffer self.old (ScalarEvent (String bytes.now)) result self.new }
    {
        let text = LongRef::of_ascii(bytes)?;
        self.try_push_long(alloc, text)
    }

    /// Buffers a string in UTF-16, which may be a key, if it can follow the buffered events, which
    /// must not form a whole property list. Returns `None` and changes nothing if it can't follow
    /// them, if it is ASCII, or if it has at most eight bytes in UTF-8: then it is to be passed to
    /// [`EventBuffer::try_push`].
    ///
    /// # Errors
    ///
    /// `OutOfMemory` if an allocation fails. The buffered events are unchanged then.
    pub fn try_push_utf16(
        &mut self,
        alloc: Global,
        text: Utf16Str<'_>,
    ) -> Option<Result<(), PushError>>
        requires still { is_whole self.old ≡ false }
        ensures { MayBuffer self.old (ScalarEvent (String (string_of_utf16 text.entry))) result
            self.new }
    {
        let wide = LongRef::of_utf16(text)?;
        self.try_push_long(alloc, wide)
    }

    /// Buffers an event if it can follow the buffered ones, which must not form a whole property
    /// list.
    ///
    /// # Errors
    ///
    /// `Misplaced` if the event can't follow the buffered ones, and `OutOfMemory` if it can, but an
    /// allocation fails, which may be one for an earlier item of the same array. The buffered
    /// events are unchanged after either error.
    #[inline(always)]
    pub fn try_push(&mut self, alloc: Global, event: Event<'_>) -> Result<(), PushError>
        requires still { is_whole self.old ≡ false }
        ensures { Buffers self.old (event_of event.entry) result self.new }
    {
        let change = change_on(self.expects, &event);
        if let Transition::Refused = change {
            return Err(self.error_of_kind(EventKind::of_event(&event)));
        }
        match PackedScalar::of_event(&event) {
            Some(scalar) => self.hold_scalar(scalar, change)?,
            None => self.hold_large(alloc, event, change)?,
        }
        Ok(())
    }

    /// Returns the number of buffered events.
    #[inline(always)]
    pub fn len(&self) -> usize
        ensures { result ≡ length (buffered_events self.now) }
    {
        self.held.len() + self.waiting.len()
    }

    /// Returns `true` if the events form a whole property list.
    pub fn is_whole(&self) -> bool
        ensures { result ≡ is_whole self.now }
    {
        self.expects.is_none()
    }

    /// Returns the events, which must form a whole property list.
    pub fn events(&self) -> &EventTable<'static>
        requires { is_whole self.now ≡ true }
        ensures { plain_events result.now ≡ buffered_events self.now }
    {
        &self.held
    }

    /// Removes all events. The allocated memory is kept.
    pub fn clear(&mut self)
        ensures events { buffered_events self.new ≡ [] }
        ensures whole { is_whole self.new ≡ false }
    {
        self.held.clear();
        self.waiting.clear();
        self.expects = Some(Expect::OneValue);
    }
}
