//! Proved callers of limits, and of iterators under limits.

ghost use Rattle.std.specs.Prelude.{◌≡◌, false, true};
ghost use Rattle.plist_callers.specs.LimitedItems.{IsEvent, IsLimit, IsStart};

use plist_base::{
    Allowance, ByteBudget, Error, ErrorKind, Event, EventShape, LimitCounter, LimitedItems, Limits,
    OwnedEvent, Source,
};
use plist_binread::BinaryReader;
use plist_reader::Reader;
use std::alloc::Global;

/// Returns `true` if, under limits or within a budget, an item follows `None`, even if the inner
/// iterator may yield more. It never does.
pub fn comes_after_none<I: Iterator<Item = Result<OwnedEvent, Error>>, A: Allowance>(
    limited: &mut LimitedItems<I, A>,
) -> bool
    requires { (items : I) → I.can_next items }
    ensures { result ≡ false }
{
    match limited.next() {
        None => limited.next().is_some(),
        Some(_item) => false,
    }
}

/// Asks a counter of limits and a budget whether they admit an event, and returns what each says.
/// The one that doesn't admit the event is unchanged.
pub fn counts_a_refused_event(
    limits: &mut LimitCounter,
    budget: &mut ByteBudget,
    event: &Event<'_>,
) -> (bool, bool)
    ensures limits { result.0 ≡ false → limits.new ≡ limits.old }
    ensures budget { result.1 ≡ false → budget.new ≡ budget.old }
{
    let counted = limits.admit(event).is_ok();
    let paid = budget.admit(event).is_ok();
    (counted, paid)
}

// Returns whether an item is an event.
fn is_event(item: Option<Result<OwnedEvent, Error>>) -> bool
    ensures { result ≡ true → IsEvent item.entry }
{
    matches!(item, Some(Ok(_)))
}

// Returns whether an item is the start of a collection.
fn is_start(item: Option<Result<OwnedEvent, Error>>) -> bool
    ensures { result ≡ true → IsStart item.entry }
{
    match item {
        Some(Ok(event)) => {
            let shape = event.shape();
            matches!(shape, EventShape::StartArray | EventShape::StartDictionary)
        }
        Some(Err(_error)) => false,
        None => false,
    }
}

// Returns whether an item is the error of a limit.
fn is_limit(item: Option<Result<OwnedEvent, Error>>) -> bool
    ensures { result ≡ true → IsLimit item.entry }
{
    match item {
        Some(Err(error)) => matches!(error.kind(), ErrorKind::LimitReached(_)),
        Some(Ok(_event)) => false,
        None => false,
    }
}

/// Returns whether a reader of a binary file yields an event although its limits allow none. It
/// never does, whatever its source does.
pub fn yields_an_event<R: Source>(alloc: Global, source: R, depth: u64) -> bool
    ensures { result ≡ false }
{
    let mut reader = BinaryReader::with_limits(alloc, source, Limits { depth, items: 0 });
    is_event(reader.next())
}

/// Like [`yields_an_event`], for a reader of either format.
pub fn either_yields_an_event<R: Source>(alloc: Global, source: R, depth: u64) -> bool
    ensures { result ≡ false }
{
    let mut reader = Reader::with_limits(alloc, source, Limits { depth, items: 0 });
    is_event(reader.next())
}

/// Requests two items of a reader whose limits allow one open collection, and returns which of them
/// are starts of collections. If the first one is a start, the second one isn't, whatever the
/// source does.
pub fn opens_a_second_collection<R: Source>(alloc: Global, source: R, items: u64) -> (bool, bool)
    ensures { result.0 ≡ true → result.1 ≡ false }
{
    let mut reader = BinaryReader::with_limits(alloc, source, Limits { depth: 1, items });
    let first = is_start(reader.next());
    let second = is_start(reader.next());
    (first, second)
}

/// Returns whether the first item of a reader whose limits allow one event and one open collection
/// is the error of a limit. It never is, whatever the source does.
pub fn reaches_a_limit_early<R: Source>(alloc: Global, source: R) -> bool
    ensures { result ≡ false }
{
    let mut reader = BinaryReader::with_limits(alloc, source, Limits { depth: 1, items: 1 });
    is_limit(reader.next())
}
