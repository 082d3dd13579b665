//! Dictionaries: their calls and iterators.

use crate::traits::{is_debug, is_eq};
use plist::dictionary::{Entry, IntoIter, Iter, Keys, Values};
use plist::{Dictionary, Value};
use plist_base::Error;
use std::alloc::Global;
use std::io::Write;

pub fn lent(pairs: &Dictionary, key: &str) {
    is_debug(pairs);
    is_eq(pairs);
    let _value: Option<&Value> = pairs.get(key);
    let _is_there: bool = pairs.contains_key(key);
    let _count: usize = pairs.len();
    let _is_empty: bool = pairs.is_empty();
    let mut pairs_left: Iter<'_> = pairs.iter();
    let _pair: Option<(&String, &Value)> = pairs_left.next();
    let _left: usize = pairs_left.len();
    let mut keys: Keys<'_> = pairs.keys();
    let _key: Option<&String> = keys.next();
    let _keys_left: usize = keys.len();
    let mut values: Values<'_> = pairs.values();
    let _lent: Option<&Value> = values.next();
    let _values_left: usize = values.len();
}

pub fn value_at<'a>(pairs: &'a Dictionary, key: &str) -> Option<&'a Value> {
    if pairs.contains_key(key) {
        return Some(&pairs[key]);
    }
    None
}

pub fn set_at(pairs: &mut Dictionary, key: &str) {
    if pairs.contains_key(key) {
        pairs[key] = Value::Boolean(false);
    }
    let _value: Option<&mut Value> = pairs.get_mut(key);
}

pub fn inserted(
    pairs: &mut Dictionary,
    key: String,
    value: Value,
) -> Result<Option<Value>, (String, Value)> {
    pairs.insert(key, value)
}

pub fn changed(pairs: &mut Dictionary, key: &str) -> Option<Value> {
    let _sorted: Result<(), Error> = pairs.sort_keys();
    pairs.retain(|_key, value| value.as_boolean().is_none());
    let removed: Option<Value> = pairs.remove(key);
    pairs.clear();
    removed
}

pub fn entry_of(pairs: &mut Dictionary, key: String) -> Entry<'_> {
    pairs.entry(key)
}

pub fn copied(pairs: &Dictionary) -> Result<Dictionary, Error> {
    pairs.clone()
}

pub fn extended(pairs: &mut Dictionary, more: Vec<(String, Value)>) -> Result<(), Error> {
    pairs.extend(more)
}

pub fn collected(alloc: Global, pairs: Vec<(String, Value)>) -> Result<Dictionary, Error> {
    Dictionary::from_pairs(alloc, pairs)
}

// Returns the number of pairs, counted one by one.
pub fn counted(pairs: &Dictionary) -> u64 {
    let mut count: u64 = 0;
    for (_key, _value) in pairs {
        count = count.saturating_add(1);
    }
    count
}

pub fn first_of(pairs: Dictionary) -> Option<(String, Value)> {
    let mut left: IntoIter = pairs.into_iter();
    let _count: usize = left.len();
    left.next()
}

// Returns the number of pairs, which are iterated by value.
pub fn taken(pairs: Dictionary) -> u64 {
    let mut count: u64 = 0;
    for (_key, _value) in pairs {
        count = count.saturating_add(1);
    }
    count
}

// Makes a dictionary of these keys, in order. The value of each is its number, from 1 on.
pub fn numbered(alloc: Global, keys: &[&str]) -> Result<Dictionary, Error> {
    let mut pairs: Dictionary = Dictionary::new(alloc);
    let mut number: u64 = 0;
    for key in keys {
        number = number.saturating_add(1);
        let _old: Option<Value> = pairs.insert(key.to_string(alloc)?, Value::from(number))?;
    }
    Ok(pairs)
}

pub fn print_keys<W: Write>(out: &mut W, name: &str, pairs: &Dictionary) -> Result<(), Error> {
    write!(out, "{name}:")?;
    for key in pairs.keys() {
        write!(out, " {key}")?;
    }
    writeln!(out)?;
    Ok(())
}

fn print_removed<W: Write>(alloc: Global, out: &mut W) -> Result<(), Error> {
    let mut pairs = numbered(alloc, &["a", "b", "c"])?;
    drop(pairs.remove("a"));
    let printed = print_keys(out, "[a, b, c] after remove(a)", &pairs);
    drop(pairs);
    printed
}

fn print_sorted<W: Write>(alloc: Global, out: &mut W) -> Result<(), Error> {
    let mut pairs = numbered(alloc, &["b", "a", "é", "Z"])?;
    pairs.sort_keys()?;
    let printed = print_keys(out, "[b, a, é, Z] after sort_keys", &pairs);
    drop(pairs);
    printed
}

pub fn print<W: Write>(alloc: Global, out: &mut W) -> Result<(), Error> {
    print_removed(alloc, out)?;
    print_sorted(alloc, out)
}
