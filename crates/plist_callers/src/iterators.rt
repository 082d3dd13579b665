//! Proved callers of the iterators over a dictionary: how many items each iterator reports, and its
//! first item.

ghost use Rattle.std.specs.Prelude.{◌≡◌, length, option_map, slice_get, Some};
ghost use Rattle.std.specs.Map.Iter.{deref};
ghost use Rattle.std.specs.Map.{keys_of, values_of};
ghost use Rattle.plist.specs.ValueTrees.{pairs_of};
ghost use Rattle.plist_pairs.specs.Keys.{shown_key, shown_owned_pair, shown_pair};

use plist::{Dictionary, Value};

/// The numbers that an iterator reported before its first call, and what that call returned.
pub struct FirstCall<T> {
    /// The number of remaining items.
    pub left: usize,
    /// The bounds on the number of remaining items.
    pub hint: (usize, Option<usize>),
    /// The first item.
    pub first: Option<T>,
}

/// Starts to iterate over the pairs. Returns how many there are, as the iterator reports it, and
/// the first one.
pub fn begin_pairs(pairs: &Dictionary) -> FirstCall<(&String, &Value)>
    ensures left { result.left ≡ length (pairs_of pairs.now) }
    ensures hint { result.hint ≡ (length (pairs_of pairs.now), Some (length (pairs_of pairs.now))) }
    ensures first { option_map shown_pair result.first ≡ slice_get (pairs_of pairs.now) 0 }
{
    let mut iter = pairs.into_iter();
    let (left, hint) = (iter.len(), iter.size_hint());
    let first = iter.next();
    FirstCall { left, hint, first }
}

/// Starts to iterate over the keys. Returns how many there are, as the iterator reports it, and
/// the first one.
pub fn begin_keys(pairs: &Dictionary) -> FirstCall<&String>
    ensures left { result.left ≡ length (keys_of (pairs_of pairs.now)) }
    ensures hint { result.hint ≡ (result.left, Some result.left) }
    ensures first { option_map shown_key result.first ≡ slice_get (keys_of (pairs_of pairs.now)) 0 }
{
    let mut keys = pairs.keys();
    let (left, hint) = (keys.len(), keys.size_hint());
    let first = keys.next();
    FirstCall { left, hint, first }
}

/// Starts to iterate over the values. Returns how many there are, as the iterator reports it, and
/// the first one.
pub fn begin_values(pairs: &Dictionary) -> FirstCall<&Value>
    ensures left { result.left ≡ length (values_of (pairs_of pairs.now)) }
    ensures hint { result.hint ≡ (result.left, Some result.left) }
    ensures first { option_map deref result.first ≡ slice_get (values_of (pairs_of pairs.now)) 0 }
{
    let mut values = pairs.values();
    let (left, hint) = (values.len(), values.size_hint());
    let first = values.next();
    FirstCall { left, hint, first }
}

/// Starts to iterate over the pairs by value. Returns how many there are, as the iterator reports
/// it, and the first one.
pub fn begin_own_pairs(pairs: Dictionary) -> FirstCall<(String, Value)>
    ensures left { result.left ≡ length (pairs_of pairs) }
    ensures hint { result.hint ≡ (result.left, Some result.left) }
    ensures first { option_map shown_owned_pair result.first ≡ slice_get (pairs_of pairs) 0 }
{
    let mut iter = pairs.into_iter();
    let (left, hint) = (iter.len(), iter.size_hint());
    let first = iter.next();
    FirstCall { left, hint, first }
}
