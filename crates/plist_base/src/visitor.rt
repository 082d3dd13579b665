//! Visitors, which take the events of a property list one by one.

use crate::{Date, Error, Event, Integer, PackedKind, PackedScalar, RealBits, Uid, Utf16Str};
use std::borrow::{CowSlice, CowStr};
use std::ops::ControlFlow;

/// Takes the events of a property list one by one, and returns after each whether it wants more.
///
/// A visitor may be handed any event at any time: a source hands its events over in order, but
/// needn't check that they can follow one another. A visitor that can fail keeps its error and
/// returns `Break`.
///
/// Only [`EventVisitor::event`] is required. Every other method takes the event that it names; a
/// fast visitor implements those for the events that are frequent.
///
/// # Examples
///
/// ```rust
/// impl EventVisitor for Starts {
///     // Says nothing of what a call does.
///     ghost step = { λ _ _ _ _. Unit {0} };
///
///     fn event(&mut self, event: Event<'_>) -> ControlFlow<()> {
///         if let Event::StartArray(_) | Event::StartDictionary(_) = event {
///             self.count = self.count.saturating_add(1);
///         }
///         ControlFlow::Continue(())
///     }
/// }
/// ```
pub trait EventVisitor {
    ghost use Rattle.std.specs.Prelude.{◌≡◌, ◌<◌, ℕ, None, IfSome};
    ghost use Rattle.plist_base.specs.ByteTests.{EachByte};
    ghost use Rattle.plist_base.specs.Events.{EndCollection, PlainEvent, ScalarEvent, StartArray, StartDictionary, event_of};
    ghost use Rattle.plist_base.specs.PackedScalars.{scalar_of_packed};
    ghost use Rattle.plist_base.specs.Trees.{String};
    ghost use Rattle.plist_base.specs.Utf16Strings.{string_of_utf16};
    ghost use Rattle.plist_base.specs.VisitedItems.{NamesLast, TakesNamed};
    ghost use Rattle.plist_base.specs.Visits.{Flow};

    /// Relates the visitor before a call, the event that the call takes, its result, and the
    /// visitor after it.
    ghost step: { Self → PlainEvent → Flow → Self → Type 0 };

    /// Relates the visitor to a token, and to the event that the token names. By default no token
    /// names an event.
    ghost names: { Self → ℕ → PlainEvent → Type 0 } = { λ _ _ _. ⊥ };

    /// Takes an event, and returns `Continue` if the next one is wanted.
    fn event(&mut self, event: Event<'_>) -> ControlFlow<()>
        ensures { step self.old (event_of event.entry) result self.new };

    /// Takes the start of an array. Its length is a hint.
    #[inline(always)]
    fn start_array(&mut self, length: Option<u64>) -> ControlFlow<()>
        ensures { step self.old (StartArray length) result self.new }
    {
        self.event(Event::StartArray(length))
    }

    /// Takes the start of a dictionary. Its length is a hint, in pairs.
    #[inline(always)]
    fn start_dictionary(&mut self, length: Option<u64>) -> ControlFlow<()>
        ensures { step self.old (StartDictionary length) result self.new }
    {
        self.event(Event::StartDictionary(length))
    }

    /// Takes the end of the innermost array or dictionary.
    #[inline(always)]
    fn end_collection(&mut self) -> ControlFlow<()>
        ensures { step self.old EndCollection result self.new }
    {
        self.event(Event::EndCollection)
    }

    /// Takes a string in ASCII, which may be a key, given its bytes, which haven't been tested, and
    /// returns `true` if the next event is wanted. Returns `None` and changes nothing if a byte
    /// isn't ASCII, or if the string is to be handed over by [`EventVisitor::string`] instead. A
    /// visitor that tests every byte anyway saves the source a test.
    #[inline(always)]
    fn ascii_string(&mut self, bytes: &[u8]) -> Option<ControlFlow<()>>
        ensures ascii { IfSome result (λ _. EachByte (λ byte. byte < 128) bytes.now) }
        ensures taken { IfSome result (λ flow.
            step self.old (ScalarEvent (String bytes.now)) flow self.new) }
        ensures declined { result ≡ None → self.new ≡ self.old }
    {
        None
    }

    /// Takes a Boolean.
    #[inline(always)]
    fn boolean(&mut self, value: bool) -> ControlFlow<()>
        ensures { step self.old (event_of (Event.Boolean value)) result self.new }
    {
        self.event(Event::Boolean(value))
    }

    /// Takes data.
    #[inline(always)]
    fn data(&mut self, bytes: CowSlice<'_, u8>) -> ControlFlow<()>
        ensures { step self.old (event_of (Event.Data bytes.entry)) result self.new }
    {
        self.event(Event::Data(bytes))
    }

    /// Takes a date.
    #[inline(always)]
    fn date(&mut self, date: Date) -> ControlFlow<()>
        ensures { step self.old (event_of (Event.Date date)) result self.new }
    {
        self.event(Event::Date(date))
    }

    /// Takes an integer.
    #[inline(always)]
    fn integer(&mut self, value: Integer) -> ControlFlow<()>
        ensures { step self.old (event_of (Event.Integer value)) result self.new }
    {
        self.event(Event::Integer(value))
    }

    /// Takes a scalar that isn't a string or data of more than eight bytes. A source may use this
    /// method instead of the one that the scalar's kind names. A visitor that stores scalars in
    /// this form needn't unpack it.
    #[inline(always)]
    fn packed(&mut self, scalar: PackedScalar) -> ControlFlow<()>
        ensures { step self.old (ScalarEvent (scalar_of_packed scalar)) result self.new }
    {
        let content = scalar.content();
        let bytes = content.to_be_bytes();
        match scalar.kind() {
            PackedKind::Boolean(value) => self.boolean(value),
            PackedKind::Unsigned => self.integer(Integer::from(content)),
            PackedKind::Negative => self.integer(Integer::from(content.cast_signed())),
            PackedKind::Real => self.real(RealBits::Eight(bytes)),
            PackedKind::ShortReal => {
                let mut four = [0; 4];
                four.copy_from_slice(&bytes[..4]);
                self.real(RealBits::Four(four))
            }
            PackedKind::Uid => self.uid(Uid::new(content)),
            PackedKind::Data(size) => self.data(CowSlice::Borrowed(&bytes[..usize::from(size)])),
            PackedKind::String(size) => {
                self.string(CowStr::Borrowed(scalar.text_in(&bytes, size)))
            }
            PackedKind::Date => self.date(Date::from_valid(bytes)),
        }
    }

    /// Takes a scalar that it has taken before, given the token that [`EventVisitor::token`]
    /// returned then. Returns `None` and changes nothing if the scalar is to be handed over by
    /// another method. This is always so if the token is 0.
    #[inline(always)]
    fn again(&mut self, token: u32) -> Option<ControlFlow<()>>
        ensures unnamed { token ≡ 0 → result ≡ None }
        ensures taken { TakesNamed step names self.old token result self.new }
        ensures declined { result ≡ None → self.new ≡ self.old }
    {
        let _ = token;
        None
    }

    /// Takes a real.
    #[inline(always)]
    fn real(&mut self, bits: RealBits) -> ControlFlow<()>
        ensures { step self.old (event_of (Event.Real bits)) result self.new }
    {
        self.event(Event::Real(bits))
    }

    /// Takes a string, which may be a key.
    #[inline(always)]
    fn string(&mut self, text: CowStr<'_>) -> ControlFlow<()>
        ensures { step self.old (event_of (Event.String text.entry)) result self.new }
    {
        self.event(Event::String(text))
    }

    /// Takes a string in UTF-16, which may be a key, and returns `true` if the next event is
    /// wanted. Returns `None` and changes nothing if the string is to be handed over by
    /// [`EventVisitor::string`] instead. A visitor that needs the string in UTF-8 returns `None`.
    #[inline(always)]
    fn utf16_string(&mut self, text: Utf16Str<'_>) -> Option<ControlFlow<()>>
        ensures taken { IfSome result (λ flow.
            step self.old (ScalarEvent (String (string_of_utf16 text.entry))) flow self.new) }
        ensures declined { result ≡ None → self.new ≡ self.old }
    {
        None
    }

    /// Returns a token for the scalar that was just taken, or 0 if there is none. The token is
    /// valid as long as the visitor takes events and returns `Continue` for each. By
    /// [`EventVisitor::again`] a source can hand over the scalar once more without its content.
    #[inline(always)]
    fn token(&self) -> u32
        ensures { NamesLast step names result self.now }
    {
        0
    }

    /// Takes the number of an object in a keyed archive.
    #[inline(always)]
    fn uid(&mut self, uid: Uid) -> ControlFlow<()>
        ensures { step self.old (event_of (Event.Uid uid)) result self.new }
    {
        self.event(Event::Uid(uid))
    }
}

/// Why a visit ended.
#[derive(Clone, Copy, Debug, PartialEq, Eq)]
pub enum Visited {
    /// All events were handed over.
    Ended,
    /// The visitor returned `Break`.
    Stopped,
}

/// Hands the events of a property list to a visitor.
pub trait EventSource {
    ghost use Rattle.plist_base.specs.Visits.{PlainItem, Visits};

    /// Relates the source before it yields an item, the item, and the source after it. The item is
    /// an event, an error, or `None` at the end.
    ghost yields: { Self → PlainItem → Self → Type 0 };

    /// Hands the remaining events to a visitor, one by one, until no event remains, an error
    /// replaces one, or the visitor returns `Break`. Returns [`Visited::Stopped`] if the visitor
    /// returned `Break`, and [`Visited::Ended`] if no event remained.
    ///
    /// # Errors
    ///
    /// The error that replaces an event. The events that precede it were handed over.
    fn visit<V: EventVisitor>(&mut self, visitor: &mut V) -> Result<Visited, Error>
        ensures { Visits yields V.step (self.old, visitor.old) result (self.new, visitor.new) };
}
