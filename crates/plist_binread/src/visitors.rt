//! Defines the visitors that a reader puts between itself and another visitor, or uses for one
//! event.

ghost use Rattle.plist_base.specs.Events.{ScalarEvent};
ghost use Rattle.plist_base.specs.Trees.{Data as DataScalar, String as StringScalar};

use plist_base::{
    Allowance, Date, Error, Event, EventVisitor, Integer, LimitCounter, OwnedEvent, PackedKind,
    PackedScalar, RealBits, Uid, Utf16Str,
};
use std::alloc::Global;
use std::borrow::{CowSlice, CowStr};
use std::ops::ControlFlow;

/// Passes the first event of a file on to another visitor.
///
/// A function that has one caller becomes part of it. So the code that enters an object becomes
/// part of the loop over the events only if no other code enters objects with the same type of
/// visitor.
#[derive(Drop)]
pub struct Relay<'v, V> {
    pub visitor: &'v mut V,
}

impl<'v, V: EventVisitor> EventVisitor for Relay<'v, V> {
    ghost use Rattle.plist_binread.specs.Handovers.{PassesOn};

    ghost step = { PassesOn V.step };

    fn event(&mut self, event: Event<'_>) -> ControlFlow<()> {
        self.visitor.event(event)
    }

    fn utf16_string(&mut self, text: Utf16Str<'_>) -> Option<ControlFlow<()>> {
        self.visitor.utf16_string(text)
    }
}

/// Passes events on to another visitor as long as the limits admit them.
///
/// After the first event that isn't admitted, the visitor stops the walk.
#[derive(Drop)]
pub struct Within<'v, V> {
    pub limiter: &'v mut LimitCounter,
    /// Receives the error of an event that isn't admitted.
    pub reached: &'v mut Result<(), Error>,
    pub visitor: &'v mut V,
}

impl<'v, V: EventVisitor> EventVisitor for Within<'v, V> {
    ghost use Rattle.plist_binread.specs.Handovers.{TakesWithin};

    ghost step = { TakesWithin V.step };

    fn event(&mut self, event: Event<'_>) -> ControlFlow<()> {
        match self.limiter.admit(&event) {
            Ok(()) => self.visitor.event(event),
            Err(error) => {
                *self.reached = Err(error);
                ControlFlow::Break(())
            }
        }
    }
}

/// Keeps the first event that it receives, and then stops the walk.
#[derive(Drop)]
pub struct FirstEvent {
    alloc: Global,
    /// The event, or `None` if no event was received yet, or if an allocation for the event's
    /// string or data failed.
    pub kept: Option<OwnedEvent>,
}

impl FirstEvent {
    ghost use Rattle.plist_binread.specs.Handovers.{KeepsEvent};

    /// Creates a visitor that hasn't received an event yet.
    pub fn new(alloc: Global) -> FirstEvent {
        FirstEvent { alloc, kept: None }
    }

    // Keeps the event of a string.
    #[inline(never)]
    fn keep_text(&mut self, text: &str) -> ControlFlow<()>
        ensures { KeepsEvent (ScalarEvent (StringScalar text.now)) result self.new }
    {
        self.event(Event::String(CowStr::Borrowed(text)))
    }

    // Keeps the event of data.
    #[inline(never)]
    fn keep_data(&mut self, bytes: &[u8]) -> ControlFlow<()>
        ensures { KeepsEvent (ScalarEvent (DataScalar bytes.now)) result self.new }
    {
        self.event(Event::Data(CowSlice::Borrowed(bytes)))
    }
}

impl EventVisitor for FirstEvent {
    ghost use Rattle.plist_binread.specs.Handovers.{KeepsEvent};

    ghost step = { λ _ event flow new. KeepsEvent event flow new };

    #[inline(always)]
    fn event(&mut self, event: Event<'_>) -> ControlFlow<()> {
        self.kept = event.into_owned(self.alloc).ok();
        ControlFlow::Break(())
    }

    // The method of the trait isn't inlined into a visitor that inherits it. Then `next` takes a
    // tenth more instructions for integers.
    #[inline(always)]
    fn packed(&mut self, scalar: PackedScalar) -> ControlFlow<()> {
        let content = scalar.content();
        let bytes = content.to_be_bytes();
        match scalar.kind() {
            PackedKind::Boolean(value) => self.event(Event::Boolean(value)),
            PackedKind::Unsigned => self.event(Event::Integer(Integer::from(content))),
            PackedKind::Negative => {
                self.event(Event::Integer(Integer::from(content.cast_signed())))
            }
            PackedKind::Real => self.event(Event::Real(RealBits::Eight(bytes))),
            PackedKind::ShortReal => {
                let mut four = [0; 4];
                four.copy_from_slice(&bytes[..4]);
                self.event(Event::Real(RealBits::Four(four)))
            }
            PackedKind::Uid => self.event(Event::Uid(Uid::new(content))),
            PackedKind::Data(size) => self.keep_data(&bytes[..usize::from(size)]),
            PackedKind::String(size) => self.keep_text(scalar.text_in(&bytes, size)),
            PackedKind::Date => match Date::from_plist_real(bytes) {
                Ok(date) => self.event(Event::Date(date)),
                Err(_) => unreachable!(),
            },
        }
    }
}
