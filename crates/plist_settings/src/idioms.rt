//! Many idioms of `docs/PORTING.md`, each run once, on `settings.plist` or `lines.plist` if it
//! needs a file. `examples/idioms.rs` runs most of the idioms on the Rust crate `plist`, and says
//! which lines of `crates/plist_settings/stdout` it prints.

use crate::{Failure, Shown, open};
use plist::stream::reading::format_of;
use plist::stream::{BinaryWriter, Event, Reader, Seeking, Writer};
use plist::{Date, Dialect, Dictionary, Error, Limits, RealBits, Value};
use std::alloc::{AllocError, Global};
use std::borrow::CowStr;
use std::fs;
use std::io::Write;
use std::rt::Files;

const FILE: &str = "settings.plist";

// Returns the integer under a key of a dictionary.
fn number_at(value: &Value, key: &str) -> Option<i64> {
    value.as_dictionary()?.get(key)?.as_signed_integer()
}

// Returns the version of settings. Any other value is returned as it is.
fn version_or_value(value: Value) -> Value {
    match number_at(&value, "Version") {
        Some(version) => Value::from(version),
        None => value,
    }
}

// Counts the events of a reader, or returns its first error.
fn count_events<R: Files>(reader: &mut Reader<Seeking<R::File>>) -> Result<u64, Error> {
    let mut count: u64 = 0;
    while let Some(event) = reader.next() {
        let _event = event?;
        count = count.saturating_add(1);
    }
    Ok(count)
}

// Counts the events of the settings file.
fn count_of<R: Files + AllocGlobal>(rt: &R, alloc: Global) -> Result<u64, Error> {
    let file = fs::open(rt, FILE)?;
    let mut reader = Reader::new(alloc, Seeking::with_windows(alloc, file));
    let count = count_events::<R>(&mut reader);
    drop(reader);
    count
}

// Writes the settings to memory, and returns the length of the file.
fn length_of<R: Files + AllocGlobal>(rt: &R, alloc: Global) -> Result<u64, Error> {
    let settings = Value::from_file(rt, alloc, FILE)?;
    let mut out = Vec::new(alloc);
    settings.to_writer_binary(alloc, &mut out)?;
    Ok(out.len() as u64)
}

// Writes a file of one string, and returns its length.
fn written(alloc: Global) -> Result<u64, Error> {
    let mut writer = BinaryWriter::new(alloc, Vec::new(alloc));
    let done = writer.write(Event::String(CowStr::Borrowed("text")));
    let length = writer.into_inner().len() as u64;
    done.map(|()| length)
}

// Runs an idiom whose result is a number.
fn measured<R: Files + AllocGlobal>(rt: &R, alloc: Global, name: &str) -> Result<u64, Failure> {
    match name {
        "to_writer_binary" => Ok(length_of(rt, alloc)?),
        "stream::Reader" => Ok(count_of(rt, alloc)?),
        "BinaryWriter" => Ok(written(alloc)?),
        _ => Err(Failure::NoSetting),
    }
}

// Reads the settings file by its events.
fn from_events<R: Files + AllocGlobal>(rt: &R, alloc: Global) -> Result<Value, Error> {
    let bytes = fs::read(rt, FILE)?;
    Value::from_events(alloc, Reader::new(alloc, bytes))
}

// Returns the name of the settings file's format.
fn format_name<R: Files + AllocGlobal>(rt: &R, alloc: Global) -> Result<String, Error> {
    let format = format_of(&mut fs::read(rt, FILE)?)?;
    Ok(format!(in alloc; "{format:?}")?)
}

// Reads the settings file under limits.
fn limited<R: Files + AllocGlobal>(rt: &R, alloc: Global, depth: u64) -> Result<Value, Error> {
    let limits = Limits { depth, items: 100 };
    Value::from_file_with_limits(rt, alloc, FILE, limits)
}

// Copies the settings file, and reads the copy.
fn copied<R: Files + AllocGlobal>(rt: &R, alloc: Global) -> Result<Value, Error> {
    Value::from_file(rt, alloc, FILE)?.to_file_binary(rt, alloc, "copy.plist")?;
    Value::from_file(rt, alloc, "copy.plist")
}

// Reads the settings file from its bytes.
fn read_bytes<R: Files + AllocGlobal>(rt: &R, alloc: Global) -> Result<Value, Error> {
    Value::from_reader(alloc, fs::read(rt, FILE)?)
}

// Reads the settings file from an open file.
fn read_open<R: Files + AllocGlobal>(rt: &R, alloc: Global) -> Result<Value, Error> {
    let file = fs::open(rt, FILE)?;
    Value::from_reader(alloc, Seeking::with_windows(alloc, file))
}

// Runs an idiom that reads or writes a file, or returns `None` if the idiom is another one.
fn read_by<R: Files + AllocGlobal>(
    rt: &R,
    alloc: Global,
    name: &str,
) -> Option<Result<Value, Error>> {
    let value = match name {
        "from_file" => Value::from_file(rt, alloc, FILE),
        "a missing file" => Value::from_file(rt, alloc, "missing.plist"),
        "a value a line" => {
            Value::from_file_with_dialect(rt, alloc, "lines.plist", Dialect::Tight)
        }
        "an untrusted file" => limited(rt, alloc, 3),
        "a deep file" => limited(rt, alloc, 1),
        "from_reader of bytes" => read_bytes(rt, alloc),
        "from_reader of a file" => read_open(rt, alloc),
        "to_file_binary" => copied(rt, alloc),
        "from_events" => from_events(rt, alloc),
        "format_of" => format_name(rt, alloc).map(Value::String),
        _ => return None,
    };
    Some(value)
}

// Runs an idiom of files and streams.
fn streamed<R: Files + AllocGlobal>(rt: &R, alloc: Global, name: &str) -> Result<Value, Failure> {
    match read_by(rt, alloc, name) {
        Some(read) => Ok(version_or_value(read?)),
        None => measured(rt, alloc, name).map(Value::from),
    }
}

// Returns the key of the setting that an idiom borrows.
fn key_seen(name: &str) -> &'static str {
    match name {
        "as_boolean" => "Enabled",
        "as_array" => "Offsets",
        "as_data" => "Icon",
        "as_real" => "Scale",
        _ => "Name",
    }
}

// Runs an idiom that borrows the content of a setting.
fn content_seen(alloc: Global, setting: &Value, name: &str) -> Option<Value> {
    match name {
        "as_string" => Value::try_from_str(alloc, setting.as_string()?).ok(),
        "as_boolean" => setting.as_boolean().map(Value::Boolean),
        "as_array" => Some(Value::from(setting.as_array()?.len() as u64)),
        "as_data" => Some(Value::from(setting.as_data()?.len() as u64)),
        "as_real" => Some(Value::Real(RealBits::from_f64(setting.as_real()?.to_f64()))),
        "match on a reference" => match setting {
            Value::String(text) => text.clone().ok().map(Value::String),
            _ => None,
        },
        _ => None,
    }
}

// Runs an idiom that borrows from the settings.
fn seen(alloc: Global, settings: &Dictionary, name: &str) -> Option<Value> {
    match name {
        "contains_key" => Some(Value::Boolean(settings.contains_key("Version"))),
        "len" => Some(Value::from(settings.len() as u64)),
        _ => content_seen(alloc, settings.get(key_seen(name))?, name),
    }
}

// Adds an item to an array of the settings, and returns the number of items.
fn pushed(settings: &mut Dictionary) -> Option<u64> {
    let items = settings.get_mut("Offsets")?.as_array_mut()?;
    items.push(Value::from(7_i64)).ok()?;
    Some(items.len() as u64)
}

// Runs an idiom that takes values out of the settings.
fn taken(alloc: Global, settings: &mut Dictionary, name: &str) -> Option<Value> {
    match name {
        "match by value" => match settings.remove("Name")? {
            Value::String(text) => Some(Value::String(text)),
            _ => None,
        },
        "into_string" => settings.remove("Name")?.into_string().map(Value::String),
        "into_array" => {
            let Some(Value::Array(items)) = settings.remove("Offsets") else {
                return None;
            };
            Some(Value::from(items.len() as u64))
        }
        "remove" => {
            let _gone = settings.remove("Name")?;
            keys_of(alloc, settings).ok().map(Value::String)
        }
        "get_mut" => pushed(settings).map(Value::from),
        _ => None,
    }
}

// Returns the keys of a borrowed dictionary, in their order.
fn keys_of(alloc: Global, settings: &Dictionary) -> Result<String, AllocError> {
    let mut keys = String::new(alloc);
    for (key, _value) in settings {
        keys.push_str(key.as_str())?;
        keys.push_str(" ")?;
    }
    Ok(keys)
}

// Returns the keys of a dictionary that is iterated by value, in their order.
fn keys_out_of(alloc: Global, settings: Dictionary) -> Result<String, AllocError> {
    let mut keys = String::new(alloc);
    for (key, _value) in settings {
        keys.push_str(key.as_str())?;
        keys.push_str(" ")?;
    }
    Ok(keys)
}

// Returns a dictionary of two pairs, which are inserted one by one.
fn made(alloc: Global) -> Result<Dictionary, Error> {
    let mut settings = Dictionary::new(alloc);
    let _none = settings.insert("b".to_string(alloc)?, Value::from(7_i64))?;
    let _none = settings.insert("a".to_string(alloc)?, Value::Boolean(true))?;
    Ok(settings)
}

// Calls the entries of a key that is there and of one that isn't.
fn add_entries(alloc: Global, settings: &mut Dictionary) -> Result<(), Error> {
    for key in ["b", "c"] {
        let _value = settings
            .entry(key.to_string(alloc)?)
            .or_insert(Value::Boolean(false))?;
    }
    Ok(())
}

// Runs an idiom on the settings.
fn used(alloc: Global, settings: &mut Dictionary, group: &str, name: &str) -> Option<Value> {
    match group {
        "look" => seen(alloc, settings, name),
        "take" => taken(alloc, settings, name),
        _ => None,
    }
}

// Makes a dictionary, and changes it by one of the idioms.
fn changed(alloc: Global, name: &str) -> Result<Dictionary, Failure> {
    let mut settings = made(alloc)?;
    match name {
        "insert" | "iteration by value" => {}
        "entry" => add_entries(alloc, &mut settings)?,
        "sort_keys" => settings.sort_keys()?,
        "from_pairs" => return Ok(Dictionary::from_pairs(alloc, settings)?),
        "clone of a dictionary" => return Ok(settings.clone()?),
        _ => return Err(Failure::NoSetting),
    }
    Ok(settings)
}

// Makes a date, and returns its text.
fn date_text(alloc: Global) -> Option<String> {
    let value = Value::Date(Date::from_unix_secs(0)?);
    value.as_date()?.to_xml_format(alloc).ok()
}

// Reads a value from an ASCII property list in memory.
fn from_ascii(alloc: Global) -> Result<Value, Error> {
    let text: &[u8] = b"{ b = 7; a = x; }";
    Value::from_reader_ascii(alloc, text)
}

// Makes a value by one of the idioms.
fn built(alloc: Global, name: &str) -> Result<Value, Failure> {
    match name {
        "a string" => Ok(Value::try_from_str(alloc, "text")?),
        "a number" => Ok(Value::from(7_i64)),
        "a Boolean" => Ok(Value::Boolean(true)),
        "a real" => Ok(Value::Real(RealBits::from_f64(0.1))),
        "data" => Ok(Value::Data(Vec::from_slice(alloc, &[0, 255])?)),
        "clone of a value" => Ok(Value::Dictionary(made(alloc)?).clone(alloc)?),
        "from_reader_ascii" => Ok(from_ascii(alloc)?),
        _ => Err(Failure::NoSetting),
    }
}

// Returns the text of an idiom's result. The keys of a dictionary are iterated by value.
fn content_of(alloc: Global, value: Value) -> Result<String, AllocError> {
    match value {
        Value::Dictionary(settings) => keys_out_of(alloc, settings),
        other => Shown(&other).to_string(alloc),
    }
}

// Runs an idiom.
fn result_of<R: Files + AllocGlobal>(
    rt: &R,
    alloc: Global,
    group: &str,
    name: &str,
) -> Result<Value, Failure> {
    match group {
        "stream" => streamed(rt, alloc, name),
        "look" | "take" => {
            let mut settings = open(rt, alloc, FILE)?;
            used(alloc, &mut settings, group, name).ok_or(Failure::NoSetting)
        }
        "change" => Ok(Value::Dictionary(changed(alloc, name)?)),
        "text" => date_text(alloc)
            .map(Value::String)
            .ok_or(Failure::NoSetting),
        "build" => built(alloc, name),
        _ => Err(Failure::NoSetting),
    }
}

// Returns the result of an idiom, or its error, as a string.
fn idiom_text<R: Files + AllocGlobal>(
    rt: &R,
    alloc: Global,
    group: &str,
    name: &str,
) -> Result<String, AllocError> {
    match result_of(rt, alloc, group, name) {
        Ok(value) => content_of(alloc, value),
        Err(failure) => failure.to_string(alloc),
    }
}

// Prints a line with the result of the idiom that it names.
fn print_line<R: Files + AllocGlobal, W: Write>(
    rt: &R,
    alloc: Global,
    line: &str,
    out: &mut W,
) -> Result<(), Error> {
    if let Some((group, name)) = line.split_once(" | ") {
        let text = idiom_text(rt, alloc, group, name)?;
        writeln!(out, "{line} | {}", text.as_str().trim_end())?;
    }
    Ok(())
}

/// Prints a line for every idiom that the given file lists. The error of an idiom is printed in its
/// line.
///
/// # Errors
///
/// `Io` if the file can't be read or a line can't be printed, `OutOfMemory` if an allocation fails.
pub fn print<R: Files + AllocGlobal, W: Write>(
    rt: &R,
    alloc: Global,
    file: &str,
    out: &mut W,
) -> Result<(), Error> {
    let idioms = fs::read_to_string(rt, file)?;
    for line in idioms.as_str().lines() {
        print_line(rt, alloc, line, out)?;
    }
    Ok(())
}
