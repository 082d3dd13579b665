//! A settings tool. It executes its arguments in turn: `open=FILE`, `list`, `get=PATH`,
//! `set=PATH=TEXT`, `delete=PATH`, `save=FILE`, and `idioms=FILE`, which runs the idioms that a
//! file lists. A path consists of keys, separated by dots. Apart from the idioms, the program is
//! the port of `examples/settings.rs`, which uses the Rust crate `plist`.
#![tactic(auto)]

mod idioms;

use plist::{Dictionary, Error, Value};
use std::alloc::{AllocError, Global};
use std::env::Env;
use std::io::Write;
use std::process::ExitCode;
use std::rt::Files;
use std::{env, fmt, io};

/// The error of executing an argument.
#[derive(Drop)]
enum Failure {
    /// A file can't be read or written, a line can't be printed, or an allocation fails.
    Plist(Error),
    /// The root of the file isn't a dictionary.
    NoDictionary,
    /// There is no such setting, or it can't be added.
    NoSetting,
    /// The argument isn't a command.
    Usage,
}

impl From<Error> for Failure {
    fn from(error: Error) -> Failure {
        Failure::Plist(error)
    }
}

impl From<io::Error> for Failure {
    fn from(error: io::Error) -> Failure {
        Failure::Plist(Error::from(error))
    }
}

impl From<AllocError> for Failure {
    fn from(error: AllocError) -> Failure {
        Failure::Plist(Error::from(error))
    }
}

/// Formats the error. For an I/O error the text includes the reason.
impl fmt::Display for Failure {
    fn fmt<W: fmt::Write>(&self, f: &mut fmt::Formatter<W>) -> fmt::Result {
        match self {
            Failure::Plist(error) => write!(f, "{}", error.reason()),
            Failure::NoDictionary => f.write_str("the root isn't a dictionary"),
            Failure::NoSetting => f.write_str("no such setting"),
            Failure::Usage => {
                f.write_str(
                    "open=FILE list get=PATH set=PATH=TEXT delete=PATH save=FILE idioms=FILE",
                )
            }
        }
    }
}

// Returns the setting at a path.
fn get<'a>(place: &'a Dictionary, path: &str) -> Option<&'a Value> {
    match path.split_once('.') {
        None => place.get(path),
        Some((key, rest)) => get(place.get(key)?.as_dictionary()?, rest),
    }
}

// Returns the dictionary at a key, or `None` if there is another value. A missing one is added.
fn dictionary_at<'a>(
    alloc: Global,
    place: &'a mut Dictionary,
    key: &str,
) -> Result<Option<&'a mut Dictionary>, Error> {
    let empty = Value::Dictionary(Dictionary::new(alloc));
    let below = place.entry(key.to_string(alloc)?).or_insert(empty)?;
    Ok(below.as_dictionary_mut())
}

// Sets the setting at a path, and returns whether it could be set. Missing dictionaries are added.
fn set(alloc: Global, place: &mut Dictionary, path: &str, setting: Value) -> Result<bool, Error> {
    match path.split_once('.') {
        None => {
            place.insert(path.to_string(alloc)?, setting)?;
            Ok(true)
        }
        Some((key, rest)) => match dictionary_at(alloc, place, key)? {
            Some(inner) => set(alloc, inner, rest, setting),
            None => Ok(false),
        },
    }
}

// Removes the setting at a path, and returns it.
fn delete(place: &mut Dictionary, path: &str) -> Option<Value> {
    match path.split_once('.') {
        None => place.remove(path),
        Some((key, rest)) => delete(place.get_mut(key)?.as_dictionary_mut()?, rest),
    }
}

// Converts a string to a setting: an integer, a Boolean, or the string itself.
fn setting_of(alloc: Global, text: &str) -> Result<Value, Error> {
    if let Ok(number) = text.parse::<i64>() {
        return Ok(Value::from(number));
    }
    match text {
        "true" => Ok(Value::Boolean(true)),
        "false" => Ok(Value::Boolean(false)),
        _ => Value::try_from_str(alloc, text),
    }
}

// Writes a number of things.
fn write_count<W: fmt::Write>(
    f: &mut fmt::Formatter<W>,
    count: usize,
    things: &str,
) -> fmt::Result {
    write!(f, "{count} {things}")
}

// A setting, as it is printed.
#[derive(Clone, Copy)]
struct Shown<'a>(&'a Value);

impl fmt::Display for Shown<'_> {
    fn fmt<W: fmt::Write>(&self, f: &mut fmt::Formatter<W>) -> fmt::Result {
        match self.0 {
            Value::Array(items) => write_count(f, items.len(), "items"),
            Value::Dictionary(pairs) => write_count(f, pairs.len(), "settings"),
            Value::Boolean(flag) => flag.fmt(f),
            Value::Data(bytes) => write_count(f, bytes.len(), "bytes"),
            Value::Date(date) => write!(f, "second {}", date.unix_secs()),
            Value::Real(number) => number.to_f64().fmt(f),
            Value::Integer(number) => number.fmt(f),
            Value::String(text) => f.write_str(text.as_str()),
            Value::Uid(uid) => write!(f, "object {}", uid.get()),
        }
    }
}

// Prints a setting with its path, and each setting in it.
#[cycle(list)]
fn list_at<W: Write>(
    alloc: Global,
    out: &mut W,
    value: &Value,
    path: &str,
    key: &str,
) -> Result<(), Error> {
    match value {
        Value::Dictionary(inner) => {
            let below = format!(in alloc; "{path}{key}.")?;
            list(alloc, out, inner, below.as_str())
        }
        other => Ok(writeln!(out, "{path}{key} = {}", Shown(other))?),
    }
}

// Prints each setting with its path.
#[cycle(list)]
fn list<W: Write>(alloc: Global, out: &mut W, at: &Dictionary, path: &str) -> Result<(), Error> {
    for (key, value) in at.iter() {
        list_at(alloc, out, value, path, key.as_str())?;
    }
    Ok(())
}

// Reads the dictionary in a file.
fn open<R: Files>(rt: &R, alloc: Global, path: &str) -> Result<Dictionary, Failure> {
    match Value::from_file(rt, alloc, path)? {
        Value::Dictionary(settings) => Ok(settings),
        _ => Err(Failure::NoDictionary),
    }
}

// Prints the setting at a path.
fn print_setting<W: Write>(out: &mut W, settings: &Dictionary, path: &str) -> Result<(), Failure> {
    match get(settings, path) {
        Some(setting) => Ok(writeln!(out, "{}", Shown(setting))?),
        None => Err(Failure::NoSetting),
    }
}

// Sets the setting that `PATH=TEXT` describes.
fn set_text(alloc: Global, settings: &mut Dictionary, what: &str) -> Result<(), Failure> {
    let (path, text) = what.split_once('=').ok_or(Failure::Usage)?;
    if set(alloc, settings, path, setting_of(alloc, text)?)? {
        Ok(())
    } else {
        Err(Failure::NoSetting)
    }
}

// Removes the setting at a path, and prints it.
fn print_deleted<W: Write>(
    out: &mut W,
    settings: &mut Dictionary,
    path: &str,
) -> Result<(), Failure> {
    match delete(settings, path) {
        Some(setting) => Ok(writeln!(out, "{path} was {}", Shown(&setting))?),
        None => Err(Failure::NoSetting),
    }
}

// Writes the settings to a file.
fn save<R: Files>(rt: &R, alloc: Global, settings: &Dictionary, path: &str) -> Result<(), Error> {
    Value::Dictionary(settings.clone()?).to_file_binary(rt, alloc, path)
}

// Executes an argument.
fn perform<R: Files + AllocGlobal, W: Write>(
    rt: &R,
    alloc: Global,
    settings: &mut Dictionary,
    word: &str,
    out: &mut W,
) -> Result<(), Failure> {
    let (verb, what) = word.split_once('=').unwrap_or((word, ""));
    match verb {
        "open" => *settings = open(rt, alloc, what)?,
        "list" => list(alloc, out, settings, "")?,
        "get" => print_setting(out, settings, what)?,
        "set" => set_text(alloc, settings, what)?,
        "delete" => print_deleted(out, settings, what)?,
        "idioms" => idioms::print(rt, alloc, what, out)?,
        "save" => save(rt, alloc, settings, what)?,
        _ => return Err(Failure::Usage),
    }
    Ok(())
}

fn run<R: Files + Env + AllocGlobal, W: Write>(rt: &R, out: &mut W) -> Result<(), Failure> {
    let mut settings = Dictionary::new(rt.alloc());
    for word in env::args(rt)?.skip(1) {
        perform(rt, rt.alloc(), &mut settings, word.as_str(), out)?;
    }
    Ok(())
}

fn main(rt: HostRuntime) -> ExitCode {
    match run(&rt, &mut rt.stdout()) {
        Ok(()) => ExitCode::SUCCESS,
        Err(failure) => {
            let _ = eprintln!(rt; "settings: {failure}");
            ExitCode::FAILURE
        }
    }
}
