//! A converter: reads a property list of either format, and writes a binary one.

ghost use Rattle.std.specs.Prelude.{IfErr, IfOk, Ok};
ghost use Rattle.plist.specs.SendingValues.{SendsValue};
ghost use Rattle.plist.specs.ValueTrees.{tree_of};
ghost use Rattle.plist_uses.specs.Converting.{RefusesConverting};
ghost use Rattle.plist_uses.specs.Settings.{IsReadOf};

use plist::stream::Source;
use plist::{Error, Value};
use std::alloc::Global;
use std::io::Write;

/// Reads a property list, writes it as a binary one, and returns its value. The written file has
/// that value. If the bytes of the source are known, the value is built from their items.
///
/// # Errors
///
/// Any error of [`Value::from_reader`] or [`Value::to_writer_binary`].
pub fn convert<R: Source, W: Write>(
    alloc: Global,
    source: R,
    writer: &mut W,
) -> Result<Value, Error>
    ensures read { IfOk result (λ value. IsReadOf (R.known source) (Ok (tree_of value))) }
    ensures sent { IfOk result
        (λ value. SendsValue W.contents value (Ok tt) writer.old writer.new) }
    ensures refused { IfErr result
        (RefusesConverting (R.known source) W.contents writer.old writer.new) }
{
    let value = Value::from_reader(alloc, source)?;
    value.to_writer_binary(alloc, writer)?;
    Ok(value)
}
