//! An iterator that yields the items of another iterator up to the first that isn't allowed.

ghost use Rattle.std.specs.Prelude.{◌≡◌, false, OnOk, List};
ghost use Rattle.plist_base.specs.Allowances.{AdmitsEvent, RefusesEvent, iterator_of, GivesAllowed};
ghost use Rattle.plist_base.specs.Budgets.{items_within_budget, within_bytes};
ghost use Rattle.plist_base.specs.Events.{event_of, Item};
ghost use Rattle.plist_base.specs.Limits.{items_admitted, limited_items};
ghost use Rattle.plist_base.specs.Outcomes.{IfFault};
ghost use Rattle.plist_base.specs.Faults.{Fault};

use crate::{ByteBudget, Error, Event, LimitCounter, Limits, OwnedEvent};

/// Admits the events of a property list one after another, up to the first that isn't allowed.
///
/// A [`LimitCounter`] counts events and open collections, a [`ByteBudget`] the bytes of strings and
/// data.
pub trait Allowance: Drop {
    // Maps a list of items to those that are yielded under this allowance.
    ghost lets: { Self → List Item → List Item };

    // The faults that may replace an event.
    ghost may_reach: { Fault → Type 0 };

    /// Admits an event.
    ///
    /// # Errors
    ///
    /// The error that replaces the event if the event isn't allowed. After an error it is
    /// unspecified which events are admitted.
    fn admit(&mut self, event: &Event<'_>) -> Result<(), Error>
        ensures admitted { OnOk result (AdmitsEvent lets self.old (event_of event.now) self.new) }
        ensures refused { IfFault result (RefusesEvent lets may_reach self.old
            (event_of event.now)) };
}

/// Yields the items of another iterator, up to its first error or the first event that isn't
/// allowed by [`Limits`] ([`LimitedItems::new`]) or by a budget of bytes
/// ([`LimitedItems::within_bytes`]).
///
/// The first event that isn't allowed is replaced by an error without an offset. An error of the
/// other iterator is yielded unchanged. After either of them, and after the other iterator's
/// `None`, the iterator has ended, and the other isn't called again.
#[derive(Drop)]
pub struct LimitedItems<I, A = LimitCounter> {
    inner: I,
    limiter: A,
    // Whether an error was yielded, or the other iterator returned `None`.
    ended: bool,
}

impl<I> LimitedItems<I, LimitCounter> {
    /// Limits the number of items and the depth: the first event that exceeds the limit of items,
    /// or else the limit of depth, is replaced by `LimitReached`, without an offset.
    pub fn new(inner: I, limits: Limits) -> Self
        ensures items { items_admitted result ≡ limited_items limits }
        ensures inner { iterator_of result ≡ inner }
    {
        LimitedItems {
            inner,
            limiter: LimitCounter::new(limits),
            ended: false,
        }
    }
}

impl<I> LimitedItems<I, ByteBudget> {
    /// Limits the bytes that all strings, including keys, and data have together: the first event
    /// that exceeds the budget is replaced by `OutOfMemory`, without an offset, since the memory
    /// that the caller allows is used up. A string counts by its bytes in UTF-8.
    ///
    /// # Examples
    ///
    /// ```rust
    /// let reader = Reader::new(alloc, file);
    /// Value::from_events(alloc, LimitedItems::within_bytes(reader, 16))
    /// ```
    pub fn within_bytes(inner: I, bytes: u64) -> Self
        ensures items { items_within_budget result ≡ within_bytes bytes }
        ensures inner { iterator_of result ≡ inner }
    {
        LimitedItems {
            inner,
            limiter: ByteBudget::new(bytes),
            ended: false,
        }
    }
}

impl<I: Iterator<Item = Result<OwnedEvent, Error>>, A: Allowance> Iterator for LimitedItems<I, A> {
    type Item = Result<OwnedEvent, Error>;

    ghost can_next = { λ s. I.can_next s.inner };

    ghost next_gives = { GivesAllowed A.lets A.may_reach I.next_gives };

    ghost remaining = { λ s. I.remaining s.inner };

    fn next(&mut self) -> Option<Result<OwnedEvent, Error>> {
        if self.ended {
            return None;
        }
        let item = match self.inner.next() {
            Some(Ok(event)) => match self.limiter.admit(&event) {
                Ok(()) => return Some(Ok(event)),
                Err(reached) => Some(Err(reached)),
            },
            other => other,
        };
        self.ended = true;
        item
    }
}
