//! Limits on how much of a property list is read.

ghost use Rattle.std.specs.Prelude.{◌≡◌, OnErr, OnOk};
ghost use Rattle.plist_base.specs.Allowances.{AdmitsEvent, RefusesEvent};
ghost use Rattle.plist_base.specs.Budgets.{within_budget, within_bytes, IsBudgetUsedUp};
ghost use Rattle.plist_base.specs.Events.{event_of};
ghost use Rattle.plist_base.specs.Outcomes.{IfFault};
ghost use Rattle.plist_base.specs.Faults.{LimitReached};
ghost use Rattle.plist_base.specs.Limits.{Admits, Refuses, limited_items, limited_by, IsLimitReached};

use crate::{Allowance, Error, ErrorKind, Event, EventShape};

/// Limits on how much of a property list is read.
///
/// ```text
/// Limits { depth: 64, items: 100_000 }
/// ```
#[derive(Clone, Copy, Debug, PartialEq, Eq)]
pub struct Limits {
    /// The maximum number of collections that may be open at once.
    pub depth: u64,
    /// The maximum number of events.
    pub items: u64,
}

/// Which of the [`Limits`] was reached.
#[derive(Clone, Copy, Debug, PartialEq, Eq)]
pub enum Limit {
    /// The start of a collection would exceed [`Limits::depth`].
    Depth,
    /// An event would exceed [`Limits::items`].
    Items,
}

/// Counts the events and the open collections of a property list under [`Limits`].
#[derive(Clone, Copy)]
pub struct LimitCounter {
    limits: Limits,
    // The number of events admitted so far.
    admitted: u64,
    // The number of open collections.
    level: u64,
}

impl LimitCounter {
    /// Creates a counter that has admitted no event.
    pub fn new(limits: Limits) -> LimitCounter
        ensures items { limited_by result ≡ limited_items limits }
    {
        LimitCounter {
            limits,
            admitted: 0,
            level: 0,
        }
    }
}

impl Allowance for LimitCounter {
    ghost lets = { limited_by };

    ghost may_reach = { IsLimitReached };

    /// Counts an event.
    ///
    /// # Errors
    ///
    /// `LimitReached`, without an offset, if the event would exceed the limit of items, or else the
    /// limit of depth. The counts are unchanged then.
    fn admit(&mut self, event: &Event<'_>) -> Result<(), Error>
        ensures admitted { OnOk result (Admits self.old (event_of event.now) self.new) }
        ensures refused { IfFault result (Refuses self.old (event_of event.now)) }
        ensures unchanged { OnErr result (self.new ≡ self.old) }
    {
        if self.admitted >= self.limits.items {
            return Err(ErrorKind::LimitReached(Limit::Items).without_position());
        }
        match event.shape() {
            EventShape::StartArray | EventShape::StartDictionary => {
                if self.level >= self.limits.depth {
                    return Err(ErrorKind::LimitReached(Limit::Depth).without_position());
                }
                self.level += 1;
            }
            EventShape::EndCollection => self.level = self.level.saturating_sub(1),
            EventShape::Scalar => {}
        }
        self.admitted += 1;
        Ok(())
    }
}

/// The total number of bytes that further strings, including keys, and data may have.
///
/// A string counts by its bytes in UTF-8, even if the file stores it in UTF-16, and it counts again
/// for every further reference to it.
#[derive(Clone, Copy)]
pub struct ByteBudget {
    left: u64,
}

impl ByteBudget {
    /// Creates a budget of the given number of bytes.
    pub fn new(bytes: u64) -> ByteBudget
        ensures items { within_budget result ≡ within_bytes bytes }
    {
        ByteBudget { left: bytes }
    }
}

impl Allowance for ByteBudget {
    ghost lets = { within_budget };

    ghost may_reach = { IsBudgetUsedUp };

    /// Subtracts the bytes of the event's string or data from the budget.
    ///
    /// # Errors
    ///
    /// `OutOfMemory`, without an offset, if more bytes are needed than are left. The budget is
    /// unchanged then.
    fn admit(&mut self, event: &Event<'_>) -> Result<(), Error>
        ensures admitted { OnOk result (AdmitsEvent within_budget self.old (event_of event.now)
            self.new) }
        ensures refused { IfFault result (RefusesEvent within_budget IsBudgetUsedUp self.old
            (event_of event.now)) }
        ensures unchanged { OnErr result (self.new ≡ self.old) }
    {
        let Some(left) = self.left.checked_sub(event.text_or_data().len() as u64) else {
            return Err(ErrorKind::OutOfMemory.without_position());
        };
        self.left = left;
        Ok(())
    }
}
