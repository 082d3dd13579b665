//! Examples of doc comments: reading values, their content, dictionaries and scalars. The doc
//! comments quote the bodies of these functions. What the functions return is printed.

use crate::dictionaries::value_at;
use crate::stream_examples::shared;
use crate::values::{again, of_text};
use plist::{
    Data, Date, Dialect, Dictionary, Error, EventKind, Integer, LazyFile, Limits, RealBits, Uid,
    Value, kind_of_value,
};
use std::alloc::Global;
use std::fmt;
use std::io::Write;
use std::rt::Files;

const SETTINGS: &[u8] = b"{ Name = Example; Version = 3; Sizes = (1, 2); Hidden = YES; }";

fn version_in(alloc: Global, file: &[u8]) -> Option<i64> {
    let settings = Value::from_reader(alloc, file).ok()?;
    settings
        .as_dictionary()?
        .get("Version")?
        .as_signed_integer()
}

fn lines_in(alloc: Global) -> Result<Value, Error> {
    let text: &[u8] = b"(\n  a\n  b\n)";
    Value::from_reader_with_dialect(alloc, text, Dialect::Tight)
}

fn tight_pairs(alloc: Global) -> Result<Value, Error> {
    let text: &[u8] = b"{a=b}";
    Value::from_reader_ascii_with_dialect(alloc, text, Dialect::Tight)
}

fn at_most_ten_events(alloc: Global, file: &[u8]) -> Result<Value, Error> {
    let limits = Limits {
        depth: 64,
        items: 10,
    };
    Value::from_reader_with_limits(alloc, file, limits)
}

fn kind_in(alloc: Global, file: &[u8]) -> Result<EventKind, Error> {
    let value = Value::from_reader(alloc, file)?;
    let kind = kind_of_value(&value);
    value.destroy();
    Ok(kind)
}

fn sum_of(value: &Value) -> Option<u64> {
    let mut sum: u64 = 0;
    for item in value.as_array()? {
        sum = sum.saturating_add(item.as_unsigned_integer()?);
    }
    Some(sum)
}

fn sum_at(settings: &Value, key: &str) -> Option<u64> {
    sum_of(settings.as_dictionary()?.get(key)?)
}

fn last_item(value: Value) -> Option<Value> {
    let mut items = value.into_array()?;
    items.pop()
}

fn is_enabled(settings: &Dictionary) -> bool {
    match settings.get("Enabled") {
        Some(value) => value.as_boolean() == Some(true),
        None => false,
    }
}

fn first_byte(icon: &Value) -> Option<u8> {
    icon.as_data()?.first().copied()
}

fn size_of_data(icon: Value) -> Option<usize> {
    let bytes = icon.into_data()?;
    Some(bytes.len())
}

fn number_of(reference: &Value) -> Option<u64> {
    Some(reference.as_uid()?.get())
}

fn in_eight_bytes(value: &Value) -> Option<Value> {
    let number = value.as_real()?.to_f64();
    Some(Value::Real(RealBits::from_f64(number)))
}

fn rename(settings: &mut Value, name: String) -> Option<()> {
    let pairs = settings.as_dictionary_mut()?;
    *pairs.get_mut("Name")? = Value::String(name);
    Some(())
}

fn emptied_copy(alloc: Global, settings: &Value) -> Result<Value, Error> {
    let mut copy = settings.clone(alloc)?;
    if let Some(pairs) = copy.as_dictionary_mut() {
        pairs.clear();
    }
    Ok(copy)
}

fn name_of(settings: &Dictionary) -> Option<&str> {
    settings.get("Name")?.as_string()
}

fn copied_pairs(alloc: Global, settings: &Dictionary) -> Result<Dictionary, Error> {
    Dictionary::from_pairs(alloc, settings.clone()?)
}

fn flag_at(settings: &mut Dictionary, key: String) -> Result<bool, Error> {
    let flag = settings.entry(key).or_insert_with(|| Value::Boolean(true))?;
    Ok(flag.as_boolean() == Some(true))
}

fn take_name(settings: &mut Dictionary) -> Option<String> {
    settings.remove("Name")?.into_string()
}

fn add_all(settings: &mut Dictionary, others: Dictionary) -> Result<usize, Error> {
    settings.extend(others)?;
    Ok(settings.len())
}

fn keep_strings(settings: &mut Dictionary) {
    settings.retain(|_key, value| value.as_string().is_some());
}

fn strings_in(settings: &Dictionary) -> usize {
    let mut count: usize = 0;
    for value in settings.values() {
        if value.as_string().is_some() {
            count = count.saturating_add(1);
        }
    }
    count
}

fn number_in_hexadecimal() -> Option<i64> {
    let number = Integer::from_str("0x10").ok()?;
    number.as_signed()
}

fn second_day() -> Option<i64> {
    let day = Date::from_xml_format("2001-01-02T00:00:00Z").ok()?;
    Some(day.plist_secs())
}

fn text_of_second(alloc: Global, value: &Value) -> Option<String> {
    let second = value.as_date()?.start_of_second();
    second.to_xml_format(alloc).ok()
}

// Returns the text of the second in which the date half a second after 2001-01-01T00:00:00Z lies.
fn text_without_half(alloc: Global) -> Option<String> {
    let half = Date::from_plist_real([0x3f, 0xe0, 0, 0, 0, 0, 0, 0]).ok()?;
    text_of_second(alloc, &Value::Date(half))
}

fn data_again(alloc: Global) -> Option<String> {
    let data = Data::from_xml_format(alloc, "AP 8=").ok()?;
    data.to_xml_format(alloc).ok()
}

fn store<R: Files>(rt: &R, alloc: Global, path: &str, value: &Value) -> Result<(), Error> {
    let mut file = LazyFile::new(rt, path);
    file.store(alloc, value)
}

// Reads the file in which equal collections of a value are shared.
fn shared_again(alloc: Global, value: &Value) -> Result<Value, Error> {
    let file = shared(alloc, value)?;
    Value::from_reader(alloc, file)
}

// Prints a line with a name and a result.
pub fn print_result<W: Write, T: fmt::Debug>(
    out: &mut W,
    name: &str,
    found: &T,
) -> Result<(), Error> {
    Ok(writeln!(out, "{name}: {found:?}")?)
}

fn print_read<W: Write>(alloc: Global, out: &mut W) -> Result<(), Error> {
    print_result(out, "version_in", &version_in(alloc, SETTINGS))?;
    print_result(out, "lines_in", &lines_in(alloc).ok())?;
    print_result(out, "tight_pairs", &tight_pairs(alloc).ok())?;
    print_result(
        out,
        "at_most_ten_events",
        &at_most_ten_events(alloc, SETTINGS).is_err(),
    )?;
    print_result(out, "kind_in", &kind_in(alloc, SETTINGS).ok())
}

fn print_scalars<W: Write>(alloc: Global, out: &mut W) -> Result<(), Error> {
    let icon = Value::Data(Vec::from_slice(alloc, &[7, 8, 9])?);
    print_result(out, "first_byte", &first_byte(&icon))?;
    print_result(out, "size_of_data", &size_of_data(icon))?;
    print_result(out, "number_of", &number_of(&Value::Uid(Uid::new(4))))?;
    let half = Value::Real(RealBits::Four([0x3f, 0, 0, 0]));
    print_result(out, "in_eight_bytes", &in_eight_bytes(&half))?;
    print_result(out, "number_in_hexadecimal", &number_in_hexadecimal())?;
    print_result(out, "second_day", &second_day())?;
    print_result(out, "text_of_second", &text_without_half(alloc))?;
    print_result(out, "data_again", &data_again(alloc))
}

fn print_values<W: Write>(alloc: Global, out: &mut W, settings: &mut Value) -> Result<(), Error> {
    print_result(out, "sum_of", &sum_at(settings, "Sizes"))?;
    print_result(out, "rename", &rename(settings, "New".to_string(alloc)?))?;
    print_result(out, "again", &again(alloc, settings).ok())?;
    print_result(out, "of_text", &of_text(alloc, "text").ok())?;
    print_result(out, "emptied_copy", &emptied_copy(alloc, settings).ok())?;
    print_result(out, "shared", &shared_again(alloc, settings).ok())
}

fn print_pairs<W: Write>(alloc: Global, out: &mut W, settings: &Dictionary) -> Result<(), Error> {
    print_result(out, "is_enabled", &is_enabled(settings))?;
    print_result(out, "strings_in", &strings_in(settings))?;
    print_result(out, "name_of", &name_of(settings))?;
    print_result(out, "value_at", &value_at(settings, "Version"))?;
    print_result(out, "copied_pairs", &copied_pairs(alloc, settings).ok())
}

fn print_changes<W: Write>(
    alloc: Global,
    out: &mut W,
    settings: &mut Dictionary,
) -> Result<(), Error> {
    print_result(
        out,
        "last_item",
        &settings.remove("Sizes").and_then(last_item),
    )?;
    print_result(out, "take_name", &take_name(settings))?;
    print_result(
        out,
        "flag_at",
        &flag_at(settings, "Added".to_string(alloc)?).ok(),
    )?;
    keep_strings(settings);
    print_result(out, "keep_strings", settings)?;
    print_result(
        out,
        "add_all",
        &add_all(settings, Dictionary::new(alloc)).ok(),
    )
}

// Prints the examples of a dictionary, if the value is one.
fn print_dictionary<W: Write>(
    alloc: Global,
    out: &mut W,
    settings: &mut Value,
) -> Result<(), Error> {
    let Some(pairs) = settings.as_dictionary_mut() else {
        return Ok(());
    };
    print_pairs(alloc, out, pairs)?;
    print_changes(alloc, out, pairs)
}

pub fn print<R: Files + AllocGlobal, W: Write>(
    rt: &R,
    alloc: Global,
    out: &mut W,
) -> Result<(), Error> {
    print_read(alloc, out)?;
    print_scalars(alloc, out)?;
    let mut settings = Value::from_reader(alloc, SETTINGS)?;
    let printed = print_values(alloc, out, &mut settings);
    let stored = store(rt, alloc, "stored.plist", &settings);
    let changed = print_dictionary(alloc, out, &mut settings);
    drop(settings);
    printed?;
    stored?;
    changed
}
