//! The entries of a dictionary.

use plist::Value;
use plist::dictionary::Entry::{Occupied, Vacant};
use plist::dictionary::{Entry, OccupiedEntry, VacantEntry};

pub fn insert_by<'a>(entry: Entry<'a>, value: Value) -> Result<&'a mut Value, (String, Value)> {
    let _key: &String = entry.key();
    match entry {
        Vacant(vacant) => insert_vacant(vacant, value),
        Occupied(occupied) => Ok(replace(occupied, value)),
    }
}

pub fn insert_vacant<'a>(
    entry: VacantEntry<'a>,
    value: Value,
) -> Result<&'a mut Value, (String, Value)> {
    let _key: &String = entry.key();
    entry.insert(value)
}

pub fn replace<'a>(mut entry: OccupiedEntry<'a>, value: Value) -> &'a mut Value {
    let _key: &String = entry.key();
    let _value: &Value = entry.get();
    let _lent: &mut Value = entry.get_mut();
    let _old: Value = entry.insert(value);
    entry.into_mut()
}

pub fn removed(entry: OccupiedEntry<'_>) -> Value {
    entry.remove()
}

pub fn or_inserted<'a>(entry: Entry<'a>, value: Value) -> Result<&'a mut Value, (String, Value)> {
    entry.or_insert(value)
}

pub fn or_made(entry: Entry<'_>) -> Result<&mut Value, (String, Value)> {
    entry.or_insert_with(|| Value::Boolean(true))
}
