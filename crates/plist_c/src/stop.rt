//! Why reading stops before the input ends.

ghost use Rattle.std.specs.Prelude.{◌≡◌};
ghost use Rattle.plist_c.specs.Rooms.{full_number as number_of_full};
ghost use Rattle.plist_c.specs.inner.Stops.{outcome_of_stop};

use crate::flat::Outcome;
use crate::numbers::{kind_number, limit_number};
use plist_base::{EventKind, Limit};

/// What has no room for an event.
#[derive(Clone, Copy)]
pub(crate) enum Full {
    /// The caller's records.
    Events,
    /// The caller's bytes.
    Bytes,
    /// The limit of bytes.
    Limit,
}

/// Why an event isn't taken.
#[derive(Clone, Copy)]
pub(crate) enum Halt {
    /// The event exceeds a limit.
    Limit(Limit),
    /// The event can't follow the preceding ones.
    Misplaced {
        /// What can follow them.
        expected: EventKind,
        /// The kind of the event.
        found: EventKind,
    },
    /// The value is complete.
    Surplus {
        /// The kind of the event.
        found: EventKind,
    },
    /// There is no room for the event.
    Full(Full),
    /// An allocation failed.
    OutOfMemory,
}

// Returns the number of what is full.
fn full_number(full: Full) -> u64
    ensures { result ≡ number_of_full full }
{
    match full {
        Full::Events => 0,
        Full::Bytes => 1,
        Full::Limit => 2,
    }
}

impl Halt {
    /// Returns the outcome of a call that stopped for this reason, after this many events and
    /// bytes.
    pub(crate) fn outcome(self, events: usize, bytes: usize) -> Outcome
        ensures { result ≡ outcome_of_stop self events bytes }
    {
        let mut outcome = Outcome::new(events, bytes);
        match self {
            Halt::Limit(limit) => {
                outcome.fault = 30;
                outcome.detail = limit_number(limit);
            }
            Halt::Misplaced { expected, found } => {
                outcome.fault = 21;
                outcome.detail = kind_number(found);
                outcome.expected = kind_number(expected);
            }
            Halt::Surplus { found } => {
                outcome.fault = 22;
                outcome.detail = kind_number(found);
            }
            Halt::Full(full) => {
                outcome.fault = 31;
                outcome.detail = full_number(full);
            }
            Halt::OutOfMemory => outcome.fault = 25,
        }
        outcome
    }
}
