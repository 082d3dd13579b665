//! The functions that C calls to read.

ghost use Rattle.std.specs.Prelude.{Err};
ghost use Rattle.plist_c.specs.Reading.{AreEventsRead, IsValueRead};
ghost use Rattle.plist_c.specs.inner.Ordering.{asked_in};
ghost use Rattle.plist_c.specs.inner.Runs.{Fills, IsNewOrder, SaysWhy};

use crate::filler::Filler;
use crate::flat::{FlatEvent, Outcome, ReadLimits};
use crate::numbers::{fault_detail, fault_expected, fault_number};
use crate::order::Order;
use crate::stop::Halt;
use plist_base::{Error, EventSource, Visited};
use plist_reader::Reader;
use std::alloc::Global;

/// What is asked of the events that are read.
#[derive(Drop)]
pub(crate) struct Start {
    pub(crate) limits: ReadLimits,
    // The order before the first event.
    pub(crate) order: Order,
}

// Returns the outcome of an error, after what a filler has stored.
fn outcome_of_error(error: &Error, filler: &Filler<'_>) -> Outcome
    ensures { SaysWhy (Err error.now) filler.now result }
{
    let kind = error.kind();
    let mut outcome = Outcome::with_fault(filler.count, filler.used, fault_number(kind));
    outcome.detail = fault_detail(kind);
    outcome.expected = fault_expected(kind);
    if let Some(offset) = error.offset() {
        outcome.has_offset = 1;
        outcome.offset = offset;
    }
    outcome
}

// Says how a visit ended, and what a filler has stored.
fn outcome_of_visit(visited: &Result<Visited, Error>, filler: &Filler<'_>) -> Outcome
    ensures { SaysWhy visited.now filler.now result }
{
    match visited {
        Ok(Visited::Ended) => {
            if filler.order.may_end() {
                return Outcome::new(filler.count, filler.used);
            }
            Outcome::with_fault(filler.count, filler.used, 23)
        }
        Ok(Visited::Stopped) => filler.stop.outcome(filler.count, filler.used),
        Err(error) => outcome_of_error(error, filler),
    }
}

// Stores the remaining events of a source.
fn fill<S: EventSource>(
    source: &mut S,
    start: Start,
    events: &mut [FlatEvent],
    bytes: &mut [u8],
) -> Outcome
    requires { IsNewOrder (asked_in start.order) }
    ensures { Fills S.yields start source.old result
        (record { events = events.new; bytes = bytes.new }) }
{
    let Start { limits, mut order } = start;
    let mut filler = Filler {
        limits,
        order: &mut order,
        level: 0,
        events,
        bytes,
        count: 0,
        used: 0,
        stop: Halt::OutOfMemory,
    };
    let visited = source.visit(&mut filler);
    outcome_of_visit(&visited, &filler)
}

/// Reads the property list of an input, which has to be exactly one value, into the caller's
/// memory: a record for every event, and the bytes of all strings and data, one after another. A
/// key that is repeated stays repeated; its last value is the one that counts.
///
/// # Errors
///
/// The outcome has the number of the first fault: one of the input, `LimitReached`, one of the
/// three about the order of events, `OutOfMemory`, or 31 if an event has no room. The records of
/// the events before it are stored.
#[unsafe(no_mangle)]
pub extern "C" fn sizhetom_read(
    alloc: Global,
    input: &[u8],
    limits: &ReadLimits,
    events: &mut [FlatEvent],
    bytes: &mut [u8],
) -> Outcome
    ensures { IsValueRead limits.now input.now result
        (record { events = events.new; bytes = bytes.new }) }
{
    let start = Start {
        limits: *limits,
        order: Order::of_value(alloc),
    };
    let mut reader = Reader::new(alloc, input);
    fill(&mut reader, start, events, bytes)
}

/// Reads the events of an input, whatever their order, as [`sizhetom_read`] does.
#[unsafe(no_mangle)]
pub extern "C" fn sizhetom_read_events(
    alloc: Global,
    input: &[u8],
    limits: &ReadLimits,
    events: &mut [FlatEvent],
    bytes: &mut [u8],
) -> Outcome
    ensures { AreEventsRead limits.now input.now result
        (record { events = events.new; bytes = bytes.new }) }
{
    let start = Start {
        limits: *limits,
        order: Order::of_events(alloc),
    };
    let mut reader = Reader::new(alloc, input);
    fill(&mut reader, start, events, bytes)
}
