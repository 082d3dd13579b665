//! Proved callers of the calls of a dictionary that borrow or yield values. Each value is less deep
//! than the dictionary, so a recursion over the values ends, whichever call yields them.

use plist::dictionary::Entry;
use plist::{Dictionary, Error, ErrorKind, Value};
use std::alloc::Global;

// Adds one, up to the greatest number.
fn one_more(count: u64) -> u64 {
    count.saturating_add(1)
}

/// Counts the values other than dictionaries in a dictionary, at any depth, by its iterator.
pub fn count_by_iter(pairs: &Dictionary) -> u64 {
    let mut count = 0;
    for (_key, value) in pairs.iter() {
        count = match value {
            Value::Dictionary(inner) => count_by_iter(inner).saturating_add(count),
            _ => one_more(count),
        };
    }
    count
}

/// Like [`count_by_iter`], but by the dictionary's keys and its values.
pub fn count_by_columns(pairs: &Dictionary) -> u64 {
    let mut count = 0;
    for (_key, value) in pairs.keys().zip(pairs.values()) {
        count = match value {
            Value::Dictionary(inner) => count_by_columns(inner).saturating_add(count),
            _ => one_more(count),
        };
    }
    count
}

/// Like [`count_by_iter`], but for a dictionary by value.
pub fn count_of(pairs: Dictionary) -> u64 {
    let mut count = 0;
    for (_key, value) in pairs {
        count = match value {
            Value::Dictionary(inner) => count_of(inner).saturating_add(count),
            _ => one_more(count),
        };
    }
    count
}

/// Counts the values that are nested under the given key in a value.
pub fn levels_in(value: &Value, key: &str) -> u64 {
    match value.as_dictionary() {
        Some(pairs) => match pairs.get(key) {
            Some(inner) => one_more(levels_in(inner, key)),
            None => 0,
        },
        None => 0,
    }
}

/// Counts the values other than arrays in a value.
pub fn count_in_arrays(value: &Value) -> u64 {
    let Some(items) = value.as_array() else {
        return 1;
    };
    let mut count = 0;
    for item in items {
        count = count_in_arrays(item).saturating_add(count);
    }
    count
}

/// Counts the dictionaries that are nested under the given key, by entries, as far as there is
/// memory for copies of the key.
pub fn levels_by_entry(alloc: Global, pairs: &mut Dictionary, key: &str) -> u64 {
    let Ok(copy) = key.to_string(alloc) else {
        return 0;
    };
    match pairs.entry(copy) {
        Entry::Occupied(found) => match found.into_mut() {
            Value::Dictionary(inner) => one_more(levels_by_entry(alloc, inner, key)),
            _ => 0,
        },
        Entry::Vacant(_entry) => 0,
    }
}

/// Counts the dictionaries that are nested under the given key, by mutable references.
pub fn levels_by_get_mut(pairs: &mut Dictionary, key: &str) -> u64 {
    match pairs.get_mut(key) {
        Some(Value::Dictionary(inner)) => one_more(levels_by_get_mut(inner, key)),
        _ => 0,
    }
}

/// Counts the values other than dictionaries in a dictionary, or returns `None` if there is a date.
pub fn count_without_dates(pairs: Dictionary) -> Option<u64> {
    let mut count = 0;
    for (_key, value) in pairs {
        count = match value {
            Value::Dictionary(inner) => count_without_dates(inner)?.saturating_add(count),
            Value::Date(_) => return None,
            _ => one_more(count),
        };
    }
    Some(count)
}

/// Counts the dictionaries in a dictionary that contains no other values, at any depth, by
/// [`Value::into_dictionary`].
///
/// # Errors
///
/// `UnexpectedEndOfEventStream` if there is any other value.
pub fn try_count_dictionaries(pairs: Dictionary) -> Result<u64, Error> {
    let mut count = 0;
    for (_key, value) in pairs {
        let Some(inner) = value.into_dictionary() else {
            return Err(ErrorKind::UnexpectedEndOfEventStream.without_position());
        };
        count = one_more(try_count_dictionaries(inner)?).saturating_add(count);
    }
    Ok(count)
}

/// Merges a dictionary into another one, by entries. If both have a dictionary at a key, these are
/// merged; otherwise the value at the key is replaced. The dictionary that gets less deep is the
/// first parameter, so the prover finds that the recursion ends.
///
/// # Errors
///
/// `OutOfMemory` if an allocation fails; a part has been merged then.
pub fn merge_by_entries(over: Dictionary, base: &mut Dictionary) -> Result<(), Error> {
    for (key, value) in over {
        let empty = Value::Dictionary(Dictionary::new(base.allocator()));
        let below = base.entry(key).or_insert(empty)?;
        match value {
            Value::Dictionary(inner) => match below.as_dictionary_mut() {
                Some(below) => merge_by_entries(inner, below)?,
                None => *below = Value::Dictionary(inner),
            },
            other => *below = other,
        }
    }
    Ok(())
}

/// Like [`merge_by_entries`], but takes both dictionaries by value, and returns the merged one.
///
/// # Errors
///
/// `OutOfMemory` if an allocation fails.
pub fn merge_by_value(over: Dictionary, mut base: Dictionary) -> Result<Dictionary, Error> {
    for (key, value) in over {
        let new = match (value, base.remove(key.as_str())) {
            (Value::Dictionary(inner), Some(Value::Dictionary(below))) => {
                Value::Dictionary(merge_by_value(inner, below)?)
            }
            (value, _) => value,
        };
        let _old = base.insert(key, new)?;
    }
    Ok(base)
}

/// Merges a value into another one. Two dictionaries are merged as [`merge_by_entries`] does;
/// any other value replaces the old one.
///
/// # Errors
///
/// `OutOfMemory` if an allocation fails; a part has been merged then.
#[cycle(merging)]
pub fn merge_value(over: Value, base: &mut Value) -> Result<(), Error> {
    match over {
        Value::Dictionary(pairs) => match base.as_dictionary_mut() {
            Some(below) => merge_each(pairs, below),
            None => {
                *base = Value::Dictionary(pairs);
                Ok(())
            }
        },
        other => {
            *base = other;
            Ok(())
        }
    }
}

// Merges each value of a dictionary into the value at its key in another one.
#[cycle(merging)]
fn merge_each(over: Dictionary, base: &mut Dictionary) -> Result<(), Error> {
    for (key, value) in over {
        match base.get_mut(key.as_str()) {
            Some(below) => merge_value(value, below)?,
            None => {
                let _old = base.insert(key, value)?;
            }
        }
    }
    Ok(())
}

/// Counts the keys that two dictionaries have in common, at any depth.
///
/// # Errors
///
/// `OverflowOrNanDate` if the recursion reaches a date in the first dictionary.
pub fn try_count_common(pairs: &Dictionary, others: &Dictionary) -> Result<u64, Error> {
    let mut count = 0;
    for (key, value) in pairs {
        let inner = match (value, others.get(key.as_str())) {
            (Value::Date(_), _) => return Err(ErrorKind::OverflowOrNanDate.without_position()),
            (Value::Dictionary(inner), Some(Value::Dictionary(other))) => {
                one_more(try_count_common(inner, other)?)
            }
            (_, Some(_)) => 1,
            (_, None) => 0,
        };
        count = inner.saturating_add(count);
    }
    Ok(count)
}
