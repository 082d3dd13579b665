//! A settings store: one dictionary in a file.

ghost use Rattle.std.specs.Prelude.{◌≡◌, IfErr, IfOk, Ok, OnErr, OnOk, string_bytes};
ghost use Rattle.std.specs.Map.{lookup};
ghost use Rattle.std.specs.Option.{option_copied};
ghost use Rattle.std.specs.Str.{bytes_eq};
ghost use Rattle.plist_base.specs.Outcomes.{OnlyMemory};
ghost use Rattle.plist_base.specs.Writing.{answer_of};
ghost use Rattle.plist.specs.SendingValues.{SendsTree};
ghost use Rattle.plist.specs.Collecting.{built_tree};
ghost use Rattle.plist_uses.specs.Settings.{IsReadOf, RefusesOpening, Sets, settings_in, tree_in};

use plist::stream::Source;
use plist::{Dictionary, Error, Value};
use std::alloc::Global;
use std::io::Write;

/// Settings by name, in the order in which the names first occurred.
#[derive(Drop)]
pub struct Settings {
    pairs: Dictionary,
}

/// The error of opening settings.
#[derive(Debug, Drop)]
pub enum SettingsError {
    /// The file is invalid, or couldn't be read.
    Fault(Error),
    /// The property list isn't a dictionary.
    NoDictionary,
}

impl From<Error> for SettingsError {
    ghost use Rattle.std.specs.Prelude.{◌≡◌};
    ghost use Rattle.plist_uses.specs.declared.settings.SettingsError.TheVariants as made;

    ghost from_gives = { λ error failure. failure ≡ made.Fault error };

    fn from(error: Error) -> SettingsError {
        SettingsError::Fault(error)
    }
}

// Reads the value of a file.
fn value_in<R: Source>(alloc: Global, file: R) -> Result<Value, Error>
    ensures { IsReadOf (R.known file) (built_tree result) }
{
    let value = Value::from_reader(alloc, file)?;
    Ok(value)
}

impl Settings {
    /// Reads the settings of a file, binary or in ASCII.
    ///
    /// # Errors
    ///
    /// `Fault` with the error of [`Value::from_reader`], and `NoDictionary`.
    pub fn open<R: Source>(alloc: Global, file: R) -> Result<Settings, SettingsError>
        ensures opened { IfOk result
            (λ settings. IsReadOf (R.known file) (Ok (tree_in settings))) }
        ensures refused { IfErr result (RefusesOpening (R.known file)) }
    {
        let value = value_in(alloc, file)?;
        match value.into_dictionary() {
            Some(pairs) => Ok(Settings { pairs }),
            None => Err(SettingsError::NoDictionary),
        }
    }

    /// Returns the setting of a name, or `None` if it has none.
    pub fn get(&self, name: &str) -> Option<&Value>
        ensures { option_copied result ≡ lookup (bytes_eq name.now) (settings_in self.now) }
    {
        self.pairs.get(name)
    }

    /// Sets the setting of a name, and leaves the others and their order unchanged. The old setting
    /// of the name is dropped.
    ///
    /// # Errors
    ///
    /// `OutOfMemory` if an allocation fails. Nothing changes then, and the name and the setting are
    /// dropped.
    pub fn set(&mut self, name: String, setting: Value) -> Result<(), Error>
        ensures done { OnOk result (Sets self.old (string_bytes name) setting self.new) }
        ensures memory { OnlyMemory result }
        ensures unchanged { OnErr result (settings_in self.new ≡ settings_in self.old) }
    {
        let _old = self.pairs.insert(name, setting)?;
        Ok(())
    }

    /// Writes the settings as a binary file.
    ///
    /// # Errors
    ///
    /// Any error of [`Value::to_writer_binary`].
    pub fn save<W: Write>(self, alloc: Global, out: &mut W) -> Result<(), Error>
        ensures sent { SendsTree W.contents (tree_in self) (answer_of result) out.old out.new }
    {
        Value::Dictionary(self.pairs).to_writer_binary(alloc, out)
    }
}
