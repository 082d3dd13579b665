//! The visitor that buffers all events of a property list.

ghost use Rattle.std.specs.Prelude.{◌≡◌, false, OnOk};
ghost use Rattle.plist_base.specs.Events.{PlainEvent, ScalarEvent};
ghost use Rattle.plist_base.specs.Trees.{String};
ghost use Rattle.plist_buffer.specs.EventBuffers.{Accepts};

use plist_base::{Error, Event, EventVisitor, PackedScalar, Utf16Str, Visited};
use plist_buffer::event_buffer::{EventBuffer, PushError};
use std::alloc::{AllocError, Global};
use std::borrow::{CowSlice, CowStr};
use std::mem;
use std::ops::ControlFlow;

/// Why a collector wants no more events.
#[derive(Drop)]
pub(crate) enum StopReason {
    /// The last event is buffered, and others may follow.
    Paused,
    /// The event can't follow those before it, and isn't buffered.
    Misplaced,
    /// An allocation failed.
    Failed(Error),
}

/// A visitor that buffers events as long as they can be those of one property list.
#[derive(Drop)]
pub(crate) struct Collector {
    alloc: Global,
    /// The buffered events.
    pub(crate) pending: EventBuffer,
    /// Whether the collector pauses after every event.
    pub(crate) pauses: bool,
    // The reason why the collector wants no more events. It is unspecified while more are wanted.
    stop: StopReason,
}

impl Collector {
    ghost use Rattle.std.specs.Prelude.{[]};
    ghost use Rattle.plist_base.specs.Trees.{Data};
    ghost use Rattle.plist_buffer.specs.declared.event_buffer.EventBuffer.{EventBuffer};
    ghost use Rattle.plist_commands.specs.CollectorSteps.{AnswersVisit, CollectsEvent, HasPaused, collected, is_complete};

    /// Creates a collector that has taken no event.
    pub(crate) fn new(alloc: Global) -> Collector
        ensures events { collected result ≡ [] }
        ensures whole { is_complete result ≡ false }
    {
        Collector {
            alloc,
            pending: EventBuffer::new(alloc),
            pauses: false,
            stop: StopReason::Misplaced,
        }
    }

    // Stores why no more events are wanted, and ends the visit.
    #[cold]
    fn end(&mut self, stop: StopReason) -> ControlFlow<()>
        ensures stops { result ≡ ControlFlow.Break tt }
        ensures keeps { self.new.stop ≡ stop }
        ensures pending { self.new.pending ≡ self.old.pending }
    {
        self.stop = stop;
        ControlFlow::Break(())
    }

    // Goes on after the call that buffered an event. If an allocation failed in it, or if the
    // collector pauses after each event, the visit ends.
    #[inline(always)]
    fn after(&mut self, taken: Result<(), PushError>) -> ControlFlow<()>
        ensures { (before : EventBuffer) (event : PlainEvent)
            → OnOk taken (Accepts before event self.old.pending)
            → CollectsEvent (record self.old { pending = before }) event result self.new }
    {
        match taken {
            Ok(()) if self.pauses => self.end(StopReason::Paused),
            Ok(()) => ControlFlow::Continue(()),
            Err(_) => self.end(StopReason::Failed(Error::from(AllocError))),
        }
    }

    // Takes data that is borrowed. In this function the compiler knows that it is. Otherwise the
    // event would be copied through memory on its way to the buffer. The function isn't inlined,
    // since the memory of its event would be zeroed for other events, too.
    #[inline(never)]
    fn take_slice(&mut self, bytes: &[u8]) -> ControlFlow<()>
        ensures { CollectsEvent self.old (ScalarEvent (Data bytes.now)) result self.new }
    {
        self.event(Event::Data(CowSlice::Borrowed(bytes)))
    }

    // Takes a string that is borrowed, as `take_slice` takes data.
    #[inline(never)]
    fn take_str(&mut self, text: &str) -> ControlFlow<()>
        ensures { CollectsEvent self.old (ScalarEvent (String text.now)) result self.new }
    {
        self.event(Event::String(CowStr::Borrowed(text)))
    }

    /// Returns `true` if the collector paused in a visit with this result.
    pub(crate) fn has_paused(&self, visited: &Result<Visited, Error>) -> bool
        ensures { HasPaused result self.now visited.now }
    {
        matches!(visited, Ok(Visited::Stopped)) && matches!(self.stop, StopReason::Paused)
    }

    /// Ends the pauses, and sets how many different scalars are expected. The number is a hint,
    /// with which the table of scalars grows in larger steps. Without it, doubling the table would
    /// take a fifth of the time for a large file.
    pub(crate) fn expect_scalars(&mut self, count: usize)
        ensures events { collected self.new ≡ collected self.old }
        ensures whole { is_complete self.new ≡ is_complete self.old }
        ensures pauses { self.new.pauses ≡ false }
    {
        self.pauses = false;
        self.pending.expect_scalars(count);
    }

    /// Returns `true` if the source ended in the visit with this result, and the buffered events
    /// are those of a whole property list. If the collector paused in the visit, or rejected an
    /// event, it returns `false`.
    ///
    /// # Errors
    ///
    /// The error that replaced an event, or `OutOfMemory` if an allocation failed in the visit.
    pub(crate) fn answer(&mut self, visited: Result<Visited, Error>) -> Result<bool, Error>
        ensures answer { AnswersVisit visited self.old result }
        ensures held { self.new.pending ≡ self.old.pending }
    {
        match visited {
            Ok(Visited::Ended) => Ok(self.pending.is_whole()),
            Ok(Visited::Stopped) => match mem::replace(&mut self.stop, StopReason::Misplaced) {
                StopReason::Paused | StopReason::Misplaced => Ok(false),
                StopReason::Failed(error) => Err(error),
            },
            Err(error) => Err(error),
        }
    }
}

impl EventVisitor for Collector {
    ghost use Rattle.plist_commands.specs.CollectorSteps.{CollectsEvent, IsBufferedAt, collected};

    ghost step = { CollectsEvent };

    ghost names = { λ collector. IsBufferedAt (collected collector) };

    #[inline(always)]
    fn event(&mut self, event: Event<'_>) -> ControlFlow<()> {
        if self.pending.is_whole() {
            return self.end(StopReason::Misplaced);
        }
        match self.pending.try_push(self.alloc, event) {
            Err(PushError::Misplaced { .. }) => self.end(StopReason::Misplaced),
            taken => self.after(taken),
        }
    }

    #[inline(always)]
    fn data(&mut self, bytes: CowSlice<'_, u8>) -> ControlFlow<()> {
        match bytes {
            CowSlice::Borrowed(borrowed) => self.take_slice(borrowed),
            CowSlice::Owned(owned) => self.event(Event::Data(CowSlice::Owned(owned))),
        }
    }

    #[inline(always)]
    fn string(&mut self, text: CowStr<'_>) -> ControlFlow<()> {
        match text {
            CowStr::Borrowed(borrowed) => self.take_str(borrowed),
            CowStr::Owned(owned) => self.event(Event::String(CowStr::Owned(owned))),
        }
    }

    #[inline(always)]
    fn packed(&mut self, scalar: PackedScalar) -> ControlFlow<()> {
        if self.pending.is_whole() {
            return self.end(StopReason::Misplaced);
        }
        match self.pending.try_push_packed(scalar) {
            Some(taken) => self.after(taken),
            None => self.end(StopReason::Misplaced),
        }
    }

    #[inline(always)]
    fn ascii_string(&mut self, bytes: &[u8]) -> Option<ControlFlow<()>> {
        if self.pending.is_whole() {
            return None;
        }
        let taken = self.pending.try_push_ascii(self.alloc, bytes)?;
        Some(self.after(taken))
    }

    fn utf16_string(&mut self, text: Utf16Str<'_>) -> Option<ControlFlow<()>> {
        if self.pending.is_whole() {
            return None;
        }
        let taken = self.pending.try_push_utf16(self.alloc, text)?;
        Some(self.after(taken))
    }

    // The token of a scalar is one more than the index of its event among the buffered ones.
    #[inline(always)]
    fn token(&self) -> u32 {
        match u32::try_from(self.pending.len()) {
            Ok(token) => token,
            Err(_) => 0,
        }
    }

    #[inline(always)]
    fn again(&mut self, token: u32) -> Option<ControlFlow<()>> {
        if token == 0 || self.pending.is_whole() {
            return None;
        }
        let taken = self.pending.try_repeat(token as usize - 1)?;
        Some(self.after(taken))
    }
}
