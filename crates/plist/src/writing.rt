//! Writes the events of values to a writer.

ghost use Rattle.std.specs.Prelude.{◌≡◌, ◌++◌, map, IfOk, OnOk};
ghost use Rattle.plist_base.specs.Bracketing.{lengthless, without_length};
ghost use Rattle.plist_base.specs.Outcomes.{OnlyMemory};
ghost use Rattle.plist_buffer.specs.EventTable.{plain_events};
ghost use Rattle.plist.specs.WrittenEvents.{WritesValue};
ghost use Rattle.plist.specs.Events.{remaining_events};
ghost use Rattle.plist.specs.ValueTrees.{tree_of};

use crate::Value;
use crate::stream::Events;
use plist_base::{Error, Writer, copy_events};
use plist_binwrite::EventTable;
use std::alloc::Global;

/// Writes the events of the value to the writer, in order.
///
/// # Errors
///
/// The writer's first error, or `OutOfMemory` if the iterator over the events can't allocate memory
/// for a start. No event is written after an error.
///
/// # Examples
///
/// ```rust
/// let mut writer = SharingWriter::new(alloc, Vec::new(alloc));
/// let written = write_value(alloc, value, &mut writer);
/// let file = writer.into_inner();
/// written.map(|()| file)
/// ```
pub fn write_value<W: Writer>(alloc: Global, value: &Value, writer: &mut W) -> Result<(), Error>
    ensures written { WritesValue W.Step writer.old value.now result writer.new }
{
    copy_events(&mut value.events(alloc), writer)
}

// Appends the events that remain of a value to the table. This is a function of its own, so that
// the table and the iterator aren't dropped at each exit of the loop.
#[tactic(auto, using(crate::proofs::EventTables::gathering))]
fn push_all<'a>(table: &mut EventTable<'a>, events: &mut Events<'a>) -> Result<(), Error>
    ensures events { OnOk result (plain_events table.new
        ≡ plain_events table.old ++ map without_length (remaining_events events.old)) }
    ensures memory { OnlyMemory result }
{
    while let Some(item) = events.next() {
        table.push(item?)?;
    }
    Ok(())
}

/// Returns a table of the value's events, in order, which stores every different scalar once.
/// Strings and data of more than 38 bytes are borrowed from the value.
///
/// # Errors
///
/// `OutOfMemory`, without an offset, if an allocation fails.
#[tactic(auto, using(crate::proofs::EventTables::gathering))]
pub fn collect_events<'a>(alloc: Global, value: &'a Value) -> Result<EventTable<'a>, Error>
    ensures events { IfOk result (λ table. plain_events table ≡ lengthless (tree_of value.now)) }
    ensures memory { OnlyMemory result }
{
    let mut table = EventTable::new(alloc);
    let mut events = value.events(alloc);
    push_all(&mut table, &mut events)?;
    Ok(table)
}
