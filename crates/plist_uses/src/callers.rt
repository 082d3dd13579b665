//! Proved callers of the examples.

ghost use Rattle.std.specs.Prelude.{◌≡◌, ◌∷◌, [], IfOk, IfSome, OnOk, string_bytes};
ghost use Rattle.std.specs.Option.{option_copied};
ghost use Rattle.plist_base.specs.Bracketing.{bracketing};
ghost use Rattle.plist.specs.WrittenEvents.{TakesAll};
ghost use Rattle.plist.specs.LimitedValues.{NestsWithin};
ghost use Rattle.plist.specs.ValueTrees.{tree_of};
ghost use Rattle.plist_reader.specs.Reader.{items_of_input};
ghost use Rattle.plist_uses.specs.Converting.{IsFileOfInput};
ghost use Rattle.plist_uses.specs.Counting.{AreCountedOf};
ghost use Rattle.plist_uses.specs.Generated.{readings_tree};
ghost use Rattle.plist_uses.specs.Roots.{IsRootText};
ghost use Rattle.plist_uses.specs.Settings.{IsChanged, text_at};

use crate::archive::root_of;
use crate::convert::convert;
use crate::counting::{Counts, count};
use crate::generated::{Reading, write_readings};
use crate::settings::{Settings, SettingsError};
use crate::untrusted_file::read_upload;
use plist::stream::{Source, Writer};
use plist::{Error, Value};
use plist_keyed::KeyedError;
use std::alloc::Global;

/// Returns the setting of a name, if it is a string.
pub fn text_of<'a>(settings: &'a Settings, name: &str) -> Option<&'a str>
    ensures { option_copied result ≡ text_at name.now settings.now }
{
    match settings.get(name) {
        Some(value) => value.as_string(),
        None => None,
    }
}

/// Reads the settings of a file, sets one setting, and returns the bytes of a binary file with the
/// changed settings.
///
/// # Errors
///
/// The errors are those of [`Settings::open`] and [`Settings::save`], and `OutOfMemory` if an
/// allocation fails.
pub fn changed<R: Source>(
    alloc: Global,
    file: R,
    name: String,
    setting: Value,
) -> Result<Vec<u8>, SettingsError>
    ensures file { IfOk result (λ f. IsChanged (R.known file) (string_bytes name) setting f.items) }
{
    let mut settings = Settings::open(alloc, file)?;
    settings.set(name, setting)?;
    let mut bytes = Vec::new(alloc);
    settings.save(alloc, &mut bytes)?;
    Ok(bytes)
}

/// Converts a property list of either format, and returns the bytes of the binary one.
///
/// # Errors
///
/// Any error of [`convert`].
pub fn converted(alloc: Global, bytes: &[u8]) -> Result<Vec<u8>, Error>
    ensures file { IfOk result (λ file. IsFileOfInput bytes.now file.items) }
{
    let mut file = Vec::new(alloc);
    let _value = convert(alloc, bytes, &mut file)?;
    Ok(file)
}

/// Returns the root of an archive, if it is a string.
///
/// # Errors
///
/// Any error of [`root_of`].
pub fn root_text(alloc: Global, archive: &Value) -> Result<Option<String>, KeyedError>
    ensures root { IfOk result (λ r. IfSome r (λ t. IsRootText archive.now (string_bytes t))) }
{
    match root_of(alloc, archive)? {
        Some(root) => Ok(root.into_string()),
        None => Ok(None),
    }
}

/// Counts the content of the property list in the given bytes.
///
/// # Errors
///
/// Any error of [`count`].
pub fn counted(alloc: Global, bytes: &[u8]) -> Result<Counts, Error>
    ensures counts { AreCountedOf (items_of_input bytes.now) result }
{
    count(alloc, bytes)
}

/// Writes a list of one reading.
///
/// # Errors
///
/// Any error of [`write_readings`].
pub fn write_one<W: Writer>(reading: Reading, writer: &mut W) -> Result<(), Error>
    ensures written { OnOk result
        (TakesAll W.Step writer.old (bracketing (readings_tree (reading ∷ []))) writer.new) }
{
    write_readings(&[reading], writer)
}

/// Returns the value of untrusted bytes, which nests at most 64 collections.
///
/// # Errors
///
/// Any error of [`read_upload`].
pub fn uploaded(alloc: Global, bytes: &[u8]) -> Result<Value, Error>
    ensures shallow { IfOk result (λ value. NestsWithin (tree_of value) 64) }
{
    read_upload(alloc, bytes)
}
