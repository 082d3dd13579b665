//! Dictionaries: in which order `retain` calls its closure, and one run of each call that no
//! program of this repository makes.

use crate::support::{expect_value, must, same, some, value_of};
use plist::dictionary::Entry;
use plist::{Dictionary, Value};
use std::cell::Cell;
use std::process::Abort;

// Returns the dictionary of these events.
fn dictionary_of(rt: &(impl Abort + AllocGlobal), words: &str) -> Dictionary {
    some(rt, words, value_of(rt, words).into_dictionary())
}

fn expect_dictionary(rt: &(impl Abort + AllocGlobal), pairs: Dictionary, wanted: &str) {
    expect_value(rt, Ok(Value::from(pairs)), wanted);
}

#[test]
fn retain_asks_once_in_order(rt: HostRuntime) {
    let asked = Cell::new(0u8);
    let mut pairs = dictionary_of(&rt, "{ 'a' 1 'b' 2 'c' 3 'd' 4 end");
    pairs.retain(|_: &String, _: &Value| {
        asked.set(asked.get().wrapping_add(1));
        asked.get() == 2
    });
    expect_dictionary(&rt, pairs, "{1 'b' 2 end");
}

// Returns the key of an entry twice, as both types of entries return it, and the value of an
// occupied one.
fn words_of_entry(rt: &(impl Abort + AllocGlobal), entry: &Entry<'_>) -> String {
    let words = match entry {
        Entry::Vacant(vacant) => format!(in rt.alloc(); "{} {}", entry.key(), vacant.key()),
        Entry::Occupied(found) => {
            format!(in rt.alloc(); "{} {} {:?}", entry.key(), found.key(), found.get())
        }
    };
    must(rt, words)
}

#[test]
fn keys_of_entries(rt: HostRuntime) {
    let mut pairs = dictionary_of(&rt, "{ 'a' 1 end");
    for (key, wanted) in [("a", "a a Integer(1)"), ("b", "b b")] {
        let entry = pairs.entry(must(&rt, String::from_str(rt.alloc(), key)));
        let words = words_of_entry(&rt, &entry);
        drop(entry);
        same(&rt, key, &words.as_str(), &wanted);
    }
    drop(pairs);
}

#[test]
fn a_key_is_an_index(rt: HostRuntime) {
    let mut pairs = dictionary_of(&rt, "{ 'a' 1 'b' 2 end");
    for key in ["a", "b", "c"] {
        if pairs.contains_key(key) {
            let number = pairs[key].as_unsigned_integer();
            pairs[key] = Value::from(number == Some(2));
        }
    }
    expect_dictionary(&rt, pairs, "{2 'a' false 'b' true end");
}

#[test]
fn iterators_count_what_remains(rt: HostRuntime) {
    let pairs = dictionary_of(&rt, "{ 'a' 1 'b' 2 end");
    let (iter, keys, values) = (pairs.iter(), pairs.keys(), pairs.values());
    let owned = dictionary_of(&rt, "{ 'a' 1 'b' 2 end").into_iter();
    let counts = [iter.len(), keys.len(), values.len(), owned.len()];
    same(&rt, "the numbers of items", &counts, &[2; 4]);
    let bounds = [iter.size_hint(), keys.size_hint(), values.size_hint()];
    same(&rt, "the bounds", &bounds, &[(2, Some(2)); 3]);
}
