//! Proved callers that read values within limits.

ghost use Rattle.std.specs.Prelude.{◌≤◌, length};
ghost use Rattle.plist_base.specs.Allowances.{iterator_of};
ghost use Rattle.plist_base.specs.Budgets.{GivesWithinBudget, total_bytes};
ghost use Rattle.plist_base.specs.Events.{event_of};
ghost use Rattle.plist_base.specs.Limits.{GivesLimited};
ghost use Rattle.plist_base.specs.declared.limits.ByteBudget.{ByteBudget};
ghost use Rattle.plist_base.specs.declared.limited_items.LimitedItems.{LimitedItems};
ghost use Rattle.plist_reader.specs.Reader.{Gives, IsNewReader};
ghost use Rattle.plist.specs.Collecting.{CollectsWithin, built_tree};
ghost use Rattle.plist.specs.FromReader.{LimitedReader};

use plist::{Limits, Value};
use plist_base::{Error, Source};
use std::alloc::Global;

/// Reads a value from at most 100 events of a source, even if the source has more, or if its bytes
/// aren't known.
///
/// # Errors
///
/// The errors are those of [`Value::from_reader_with_limits`].
pub fn takes_at_most_100_events<R: Source>(alloc: Global, source: R) -> Result<Value, Error>
    ensures few { (limited : LimitedReader R.known R.failures)
        × IsNewReader (iterator_of limited) source
        × CollectsWithin event_of (GivesLimited (Gives R.known R.failures)) limited
        (λ events. length events ≤ 100) (built_tree result) }
{
    let limits = Limits {
        depth: 64,
        items: 100,
    };
    Value::from_reader_with_limits(alloc, source, limits)
}

/// Reads a value from at most 100 events of a source, with at most 1,000 bytes of strings and data.
///
/// # Errors
///
/// The errors are those of [`Value::from_reader_within`].
pub fn takes_at_most_1000_bytes<R: Source>(alloc: Global, source: R) -> Result<Value, Error>
    ensures few { (budgeted : LimitedItems (LimitedReader R.known R.failures) ByteBudget)
        × IsNewReader (iterator_of (iterator_of budgeted)) source
        × CollectsWithin event_of (GivesWithinBudget (GivesLimited (Gives R.known R.failures)))
        budgeted (λ events. (length events ≤ 100) × (total_bytes events ≤ 1000))
        (built_tree result) }
{
    let limits = Limits {
        depth: 64,
        items: 100,
    };
    Value::from_reader_within(alloc, source, limits, 1000)
}
