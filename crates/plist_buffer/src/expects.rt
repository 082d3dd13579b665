//! Which events may come next in a property list, and how an event changes that.

ghost use Rattle.std.specs.Prelude.{◌≡◌};
ghost use Rattle.plist_base.specs.Events.{event_of};
ghost use Rattle.plist_buffer.specs.StoredScalars.{event_of_small};
ghost use Rattle.plist_buffer.specs.Expects.{transition_of, transition_of_value, transition_of_items, transition_of_pairs};

use plist_base::{Event, EventShape, PackedKind, PackedScalar};

/// What the next events must be.
#[derive(Clone, Copy, Drop)]
pub enum Expect {
    /// A value.
    OneValue,
    /// The remaining items of an array, and its end.
    Items,
    /// The remaining pairs of a dictionary, and its end.
    Pairs,
}

/// How an event changes the topmost expectation of a stack.
#[derive(Clone, Copy, Drop)]
pub enum Transition {
    /// The event isn't allowed here.
    Refused,
    /// The event completes what was expected, which is popped from the stack.
    Closed,
    /// The stack is unchanged.
    Kept,
    /// The expectation is pushed onto the stack.
    Pushed(Expect),
    /// The expectation replaces the topmost one.
    Replaced(Expect),
}

// Returns how an event of this shape changes the expectation of a value.
fn transition_of_value(shape: EventShape) -> Transition
    ensures { result ≡ transition_of_value shape }
{
    match shape {
        EventShape::StartArray => Transition::Replaced(Expect::Items),
        EventShape::StartDictionary => Transition::Replaced(Expect::Pairs),
        EventShape::EndCollection => Transition::Refused,
        EventShape::Scalar => Transition::Closed,
    }
}

// Returns how an event of this shape changes the expectation of an array's items.
fn transition_of_items(shape: EventShape) -> Transition
    ensures { result ≡ transition_of_items shape }
{
    match shape {
        EventShape::StartArray => Transition::Pushed(Expect::Items),
        EventShape::StartDictionary => Transition::Pushed(Expect::Pairs),
        EventShape::EndCollection => Transition::Closed,
        EventShape::Scalar => Transition::Kept,
    }
}

// Returns how an event changes the expectation of a dictionary's pairs.
fn transition_of_pairs(event: &Event<'_>) -> Transition
    ensures { result ≡ transition_of_pairs (event_of event.now) }
{
    if let Event::String(_) = event {
        return Transition::Pushed(Expect::OneValue);
    }
    match event.shape() {
        EventShape::EndCollection => Transition::Closed,
        EventShape::StartArray | EventShape::StartDictionary | EventShape::Scalar => {
            Transition::Refused
        }
    }
}

// Returns how a scalar changes the expectation of a dictionary's pairs.
fn transition_of_key(scalar: PackedScalar) -> Transition
    ensures { result ≡ transition_of_pairs (event_of_small scalar) }
{
    match scalar.kind() {
        PackedKind::String(_) => Transition::Pushed(Expect::OneValue),
        PackedKind::Boolean(_)
        | PackedKind::Unsigned
        | PackedKind::Negative
        | PackedKind::Real
        | PackedKind::ShortReal
        | PackedKind::Uid
        | PackedKind::Data(_)
        | PackedKind::Date => Transition::Refused,
    }
}

impl Expect {
    /// Returns how a scalar changes the expectation.
    #[inline(always)]
    pub fn change_by_scalar(self, scalar: PackedScalar) -> Transition
        ensures { result ≡ transition_of self (event_of_small scalar) }
    {
        match self {
            Expect::OneValue => Transition::Closed,
            Expect::Items => Transition::Kept,
            Expect::Pairs => transition_of_key(scalar),
        }
    }

    /// Returns how an event changes the expectation.
    #[inline(always)]
    pub fn change_by(self, event: &Event<'_>) -> Transition
        ensures { result ≡ transition_of self (event_of event.now) }
    {
        match self {
            Expect::OneValue => transition_of_value(event.shape()),
            Expect::Items => transition_of_items(event.shape()),
            Expect::Pairs => transition_of_pairs(event),
        }
    }
}
