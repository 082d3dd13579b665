//! Which events can come next in a value.

ghost use Rattle.std.specs.Prelude.{◌≡◌};
ghost use Rattle.plist.specs.Building.{kind_expected as kind_of_expect};

use crate::stop::Halt;
use plist_base::{Event, EventKind};
use plist_buffer::expects::{Expect, Transition};
use std::alloc::{AllocError, Global};

// Returns the kind that an error names as expected.
fn kind_expected(expect: Expect) -> EventKind
    ensures { result ≡ kind_of_expect expect }
{
    match expect {
        Expect::Pairs => EventKind::DictionaryKeyOrEndCollection,
        Expect::OneValue | Expect::Items => EventKind::ValueOrStartCollection,
    }
}

/// What is expected next in a value, if the order of events is asked for: a stack, the top of which
/// decides on the next event.
#[derive(Drop)]
pub(crate) struct Order {
    // Whether the events have to be those of one value.
    is_asked: bool,
    // What is expected next, or `None` after a whole value.
    top: Option<Expect>,
    // What is expected after that, with the topmost one last.
    below: Vec<Expect>,
}

impl Order {
    ghost use Rattle.std.specs.Prelude.{◌≡◌, ◌≢◌, ◌∷◌, [], IfErr, OnOk, None, Some};
    ghost use Rattle.plist_base.specs.Events.{event_of};
    ghost use Rattle.plist_buffer.specs.declared.expects.Expect.TheVariants.{OneValue};
    ghost use Rattle.plist_buffer.specs.declared.expects.Transition.TheVariants.{Refused};
    ghost use Rattle.plist_buffer.specs.Expects.{changed};
    ghost use Rattle.plist_c.specs.inner.Ordering.{IsStopOfOrder, OrdersEvent, asked_in, may_end, rest_of, stack_in};

    /// Returns the order before the first event of a value.
    pub(crate) fn of_value(alloc: Global) -> Order
        ensures { asked_in result ≡ Some (OneValue ∷ []) }
    {
        Order {
            is_asked: true,
            top: Some(Expect::OneValue),
            below: Vec::new(alloc),
        }
    }

    /// Returns the order of any events.
    pub(crate) fn of_events(alloc: Global) -> Order
        ensures { asked_in result ≡ None }
    {
        Order {
            is_asked: false,
            top: None,
            below: Vec::new(alloc),
        }
    }

    /// Returns `true` if the events may end here.
    pub(crate) fn may_end(&self) -> bool
        ensures { result ≡ may_end (asked_in self.now) }
    {
        !self.is_asked || self.top.is_none()
    }

    // Changes the stack, given its top.
    #[inline(always)]
    fn change(&mut self, top: Expect, change: Transition) -> Result<(), AllocError>
        requires top { self.old.top ≡ Some top }
        requires allowed { change ≢ Refused }
        ensures stack { OnOk result (changed change top (rest_of self.old)
            ≡ Some (stack_in self.new)) }
        ensures asked { self.new.is_asked ≡ self.old.is_asked }
    {
        match change {
            Transition::Refused | Transition::Kept => {}
            Transition::Closed => self.top = self.below.pop(),
            Transition::Pushed(expect) => {
                self.below.push(top)?;
                self.top = Some(expect);
            }
            Transition::Replaced(expect) => self.top = Some(expect),
        }
        Ok(())
    }

    /// Takes the next event, or returns why it can't come next. It fails with `OutOfMemory` if an
    /// allocation fails.
    #[inline(always)]
    pub(crate) fn take(&mut self, event: &Event<'_>) -> Result<(), Halt>
        ensures taken { OnOk result (OrdersEvent (asked_in self.old) (event_of event.now)
            (asked_in self.new)) }
        ensures refused { IfErr result (IsStopOfOrder (asked_in self.old) (event_of event.now)) }
    {
        if !self.is_asked {
            return Ok(());
        }
        let found = EventKind::of_event(event);
        let Some(top) = self.top else {
            return Err(Halt::Surplus { found });
        };
        let change = top.change_by(event);
        if let Transition::Refused = change {
            let expected = kind_expected(top);
            return Err(Halt::Misplaced { expected, found });
        }
        match self.change(top, change) {
            Ok(()) => Ok(()),
            Err(_) => Err(Halt::OutOfMemory),
        }
    }
}
