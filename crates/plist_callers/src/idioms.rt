//! Proved callers of idioms of `docs/PORTING.md` that no other crate of this repository has.

use plist::stream::{OwnedEvent, Reader, Source};
use plist::{Date, Dictionary, Error, Value};
use std::alloc::{AllocError, AllocFailed, Global};
use std::collections::HashMap;
use std::rt::{Clock, Files};
use std::time::{SystemTime, UNIX_EPOCH};

/// The error of a program, with the conversions that `?` needs.
#[derive(Drop)]
pub enum ProgramError {
    /// An error of the library, or an allocation failed.
    Plist(Error),
    /// This text isn't a number.
    NoNumber(String),
}

impl From<Error> for ProgramError {
    fn from(error: Error) -> ProgramError {
        ProgramError::Plist(error)
    }
}

impl From<AllocError> for ProgramError {
    fn from(error: AllocError) -> ProgramError {
        ProgramError::Plist(Error::from(error))
    }
}

impl<T: Drop> From<AllocFailed<T>> for ProgramError {
    fn from(error: AllocFailed<T>) -> ProgramError {
        ProgramError::Plist(Error::from(error))
    }
}

impl From<(String, Value)> for ProgramError {
    fn from(error: (String, Value)) -> ProgramError {
        ProgramError::Plist(Error::from(error))
    }
}

/// Parses a number. The error contains the text.
///
/// # Errors
///
/// `NoNumber`, or `OutOfMemory` if an allocation fails.
pub fn number_of(alloc: Global, text: &str) -> Result<Value, ProgramError> {
    match text.parse::<i64>() {
        Ok(number) => Ok(Value::from(number)),
        Err(_) => Err(ProgramError::NoNumber(text.to_string(alloc)?)),
    }
}

/// Sets a key to a number.
///
/// # Errors
///
/// The errors of [`number_of`], and `OutOfMemory` if an allocation fails.
pub fn set_number(
    alloc: Global,
    pairs: &mut Dictionary,
    key: &str,
    text: &str,
) -> Result<(), ProgramError> {
    let number = number_of(alloc, text)?;
    let _old = pairs.insert(key.to_string(alloc)?, number)?;
    Ok(())
}

/// Returns the present second as a date.
pub fn now<R: Clock>(rt: &R) -> Option<Value> {
    let passed = SystemTime::now(rt).ok()?.duration_since(UNIX_EPOCH).ok()?;
    let second = i64::try_from(passed.as_secs()).ok()?;
    Some(Value::Date(Date::from_unix_secs(second)?))
}

/// Prints an error to standard error.
///
/// # Errors
///
/// `Io` if the line can't be printed.
pub fn report<R: Eprint>(rt: &R, error: &Error) -> Result<(), Error> {
    eprintln!(rt; "{}", error.reason())?;
    Ok(())
}

/// Doubles all integers of a dictionary.
///
/// # Errors
///
/// `OutOfMemory` if an allocation fails.
pub fn doubled(alloc: Global, pairs: Dictionary) -> Result<Dictionary, Error> {
    let mut changed = Dictionary::new(alloc);
    for (key, value) in pairs {
        let value = match value {
            Value::Integer(number) => match number.as_signed() {
                Some(number) => Value::from(number.saturating_mul(2)),
                None => Value::Integer(number),
            },
            other => other,
        };
        let _none = changed.insert(key, value)?;
    }
    Ok(changed)
}

/// Returns the keys by their lower-case forms.
///
/// # Errors
///
/// `OutOfMemory` if an allocation fails.
pub fn keys_by_lower_case(
    alloc: Global,
    pairs: &Dictionary,
) -> Result<HashMap<String, Vec<&str>>, ProgramError> {
    let mut names: HashMap<String, Vec<&str>> = HashMap::new(alloc);
    for key in pairs.keys() {
        names
            .entry(key.to_ascii_lowercase(alloc)?)?
            .or_insert_with(|| Vec::new(alloc))
            .push(key.as_str())?;
    }
    Ok(names)
}

/// Returns the keys, in their order.
///
/// # Errors
///
/// `OutOfMemory` if an allocation fails.
pub fn keys_of(alloc: Global, pairs: &Dictionary) -> Result<Vec<&str>, ProgramError> {
    Ok(pairs.keys().map(String::as_str).collect(alloc)?)
}

/// Returns the dictionary at a path of keys.
pub fn dictionary_at<'d>(base: &'d mut Dictionary, path: &str) -> Option<&'d mut Dictionary> {
    let mut at = base;
    for key in path.split('.') {
        at = at.get_mut(key)?.as_dictionary_mut()?;
    }
    Some(at)
}

// Returns the string at a key.
fn text<'d>(object: &'d Dictionary, key: &str) -> Option<&'d str> {
    object.get(key).and_then(Value::as_string)
}

/// Objects that refer to one another by their keys.
#[derive(Clone, Copy)]
pub struct Objects<'a> {
    objects: &'a Dictionary,
}

impl<'a> Objects<'a> {
    /// Creates a view of objects.
    pub fn new(objects: &'a Dictionary) -> Self {
        Objects { objects }
    }

    fn object(&self, id: &str) -> Option<&'a Dictionary> {
        self.objects.get(id)?.as_dictionary()
    }

    /// Returns the name of an object, or its path.
    pub fn name(&self, id: &str) -> &'a str {
        self.object(id)
            .and_then(|object| text(object, "name").or_else(|| text(object, "path")))
            .unwrap_or("(no name)")
    }

    /// Counts the objects below an object that have no children, down to a number of levels.
    pub fn leaves(&self, id: &str, levels: u64) -> u64 {
        if levels == 0 {
            return 0;
        }
        let Some(children) = self.object(id).and_then(|it| it.get("children")) else {
            return 1;
        };
        let mut count: u64 = 0;
        if let Some(ids) = children.as_array() {
            for id in ids {
                if let Some(id) = id.as_string() {
                    count = count.saturating_add(self.leaves(id, levels - 1));
                }
            }
        }
        count
    }
}

// Returns the next event, or `None` after the last one.
fn step<S: Source>(reader: &mut Reader<S>) -> Result<Option<OwnedEvent>, Error> {
    match reader.next() {
        Some(event) => Ok(Some(event?)),
        None => Ok(None),
    }
}

/// Counts the events of a source, by a function that calls the reader.
///
/// # Errors
///
/// The first error of the reader.
pub fn count_steps<S: Source>(alloc: Global, source: S) -> Result<u64, Error> {
    let mut reader = Reader::new(alloc, source);
    let mut count: u64 = 0;
    for _ in 0..u64::MAX {
        let Some(_event) = step(&mut reader)? else {
            break;
        };
        count = count.saturating_add(1);
    }
    Ok(count)
}

/// Reads a value, with the error of a program that uses `anyhow`.
///
/// # Errors
///
/// The text of the error of [`Value::from_file`].
pub fn value_in<R: Files>(rt: &R, alloc: Global, path: &str) -> Result<Value, anyhow::Error> {
    let value = Value::from_file(rt, alloc, path).map_err(|error| anyhow::Error::msg(
        error.reason(),
    ))?;
    Ok(value)
}
