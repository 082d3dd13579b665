//! Finds out whether a dictionary contains a key twice.

ghost use Rattle.std.specs.Prelude.{◌≡◌, ◌≢◌, ◌+◌, ◌<◌, true, false, length, slice_index, set, IfOk};
ghost use Rattle.plist_base.specs.Outcomes.{OnlyMemory};
ghost use Rattle.plist_base.specs.Events.{shape_of};
ghost use Rattle.plist_buffer.specs.EventTable.{plain_events, scalars_of, AllBelow, table_event};
ghost use Rattle.plist_buffer.specs.RepeatedKeys.{TestsKeysOnce, TestsRepeats};

use crate::children::{Children, Half};
use crate::event_table::EventTable;
use plist_base::{Error, EventShape};
use std::alloc::Global;

// Sets the stamp of a scalar, and returns whether it had this stamp already.
fn stamp(stamps: &mut Vec<usize>, scalar: usize, mark: usize) -> bool
    requires { scalar < length stamps.old.items }
    ensures repeated { result ≡ true → slice_index stamps.old.items scalar ≡ mark }
    ensures other { result ≡ false → slice_index stamps.old.items scalar ≢ mark }
    ensures stamped { stamps.new.items ≡ set stamps.old.items scalar mark }
{
    let stood = stamps.as_slice()[scalar] == mark;
    stamps[scalar] = mark;
    stood
}

// Returns whether a dictionary that contains a key twice begins at an index. The list `stamps` has
// a number for each different scalar: 0 if it hasn't been a key yet, and otherwise 1 plus the index
// of the start of the last dictionary in which it was a key.
fn repeats_at(events: &EventTable<'_>, start: usize, stamps: &mut Vec<usize>) -> bool
    requires start { start < length (plain_events events.now) }
    requires long { length stamps.old.items ≡ length (scalars_of events.now) }
    requires older { AllBelow (start + 1) stamps.old.items }
    ensures long { length stamps.new.items ≡ length (scalars_of events.now) }
    ensures newer { AllBelow (start + 2) stamps.new.items }
    ensures begins { result ≡ true
        → shape_of (table_event events.now start) ≡ EventShape.StartDictionary }
    ensures repeats { TestsRepeats events.now start result }
{
    let EventShape::StartDictionary = events.kind_at(start) else {
        return false;
    };
    let mark = start + 1;
    for key in Children::new(events, start, Half::Keys) {
        let Some(scalar) = events.scalar_index(key) else {
            return false;
        };
        if stamp(stamps, scalar, mark) {
            return true;
        }
    }
    false
}

/// Returns `true` if any dictionary in the property list with the given events contains a key
/// twice. If none does, each key has a single value in its dictionary.
///
/// # Errors
///
/// `OutOfMemory`, without an offset, if an allocation fails.
pub fn repeats_key(alloc: Global, events: &EventTable<'_>) -> Result<bool, Error>
    ensures once { IfOk result (TestsKeysOnce events.now) }
    ensures memory { OnlyMemory result }
{
    let mut stamps = vec![in alloc; 0usize; events.count_scalars()]?;
    for index in 0..events.len() {
        if repeats_at(events, index, &mut stamps) {
            return Ok(true);
        }
    }
    Ok(false)
}
