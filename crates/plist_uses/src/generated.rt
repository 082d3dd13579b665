//! Writing a list directly as events, without building its value.

ghost use Rattle.std.specs.Prelude.{OnOk};
ghost use Rattle.plist.specs.WrittenEvents.{TakesAll};
ghost use Rattle.plist_base.specs.Bracketing.{bracketing};
ghost use Rattle.plist_uses.specs.Generated.{reading_tree, readings_tree};

use plist::stream::Writer;
use plist::{Error, Integer};
use std::borrow::CowStr;

/// A reading of a meter: the time, in Unix seconds, and the level.
#[derive(Clone, Copy)]
pub struct Reading {
    pub second: u64,
    pub level: u64,
}

// Writes a reading as a dictionary.
fn write_reading<W: Writer>(reading: &Reading, writer: &mut W) -> Result<(), Error>
    ensures written { OnOk result
        (TakesAll W.Step writer.old (bracketing (reading_tree reading.now)) writer.new) }
{
    writer.write_start_dictionary(Some(2))?;
    writer.write_string(CowStr::Borrowed("second"))?;
    writer.write_integer(Integer::from(reading.second))?;
    writer.write_string(CowStr::Borrowed("level"))?;
    writer.write_integer(Integer::from(reading.level))?;
    writer.write_end_collection()
}

/// Writes readings as an array of dictionaries, event by event, to a `BinaryWriter`, a
/// `SharingWriter` or any other writer. It builds no value for them.
///
/// # Errors
///
/// The writer's first error, after which nothing more is written.
pub fn write_readings<W: Writer>(readings: &[Reading], writer: &mut W) -> Result<(), Error>
    ensures written { OnOk result
        (TakesAll W.Step writer.old (bracketing (readings_tree readings.now)) writer.new) }
{
    writer.write_start_array(Some(readings.len() as u64))?;
    for reading in readings {
        write_reading(reading, writer)?;
    }
    writer.write_end_collection()?;
    Ok(())
}
