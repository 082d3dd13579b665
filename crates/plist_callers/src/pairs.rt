//! Proved callers of the calls on pairs: what was set is found, and the other pairs are unchanged.

ghost use Rattle.std.specs.Prelude.{◌≡◌, ◌+◌, ◌∷◌, [], IfErr, IfOk, IfSome, IsNone, IsPermutation, IsSome, IsSorted, OnErr, OnOk, OnSome, Some, length, string_bytes, unwrap_or};
ghost use Rattle.std.specs.Cmp.Lexicographic.{slice_cmp};
ghost use Rattle.std.specs.Ordering.{nat_cmp};
ghost use Rattle.std.specs.Map.{keys_of, lookup, set_value};
ghost use Rattle.std.specs.Str.{bytes_eq};
ghost use Rattle.plist.specs.ValueTrees.{pairs_of};
ghost use Rattle.plist_base.specs.Outcomes.{OnlyMemory};
ghost use Rattle.plist_pairs.specs.Keys.{IsSetAt};

use plist::{Dictionary, Error, Value};
use std::mem;

/// Makes the given pair the only one.
///
/// # Errors
///
/// The key and the value if an allocation fails. There are no pairs then.
pub fn make_only(pairs: &mut Dictionary, key: String, value: Value) -> Result<(), (String, Value)>
    ensures only { OnOk result (pairs_of pairs.new ≡ (string_bytes key, value) ∷ []) }
    ensures refused { OnErr result (pairs_of pairs.new ≡ []) }
{
    pairs.clear();
    let _old = pairs.insert(key, value)?;
    Ok(())
}

/// Returns the value of a key, or another one if the key is missing.
pub fn value_or<'a>(pairs: &'a Dictionary, key: &str, other: &'a Value) -> &'a Value
    ensures { result.now ≡ unwrap_or (lookup (bytes_eq key.now) (pairs_of pairs.now)) other.now }
{
    if pairs.contains_key(key) {
        &pairs[key]
    } else {
        other
    }
}

/// Replaces the value of a key that must be there, and returns the old value.
pub fn replace_at(pairs: &mut Dictionary, key: &str, value: Value) -> Value
    requires { IsSome (lookup (bytes_eq key.now) (pairs_of pairs.old)) }
    ensures old { lookup (bytes_eq key.now) (pairs_of pairs.old) ≡ Some result }
    ensures pairs { pairs_of pairs.new ≡ set_value (bytes_eq key.now) (pairs_of pairs.old) value }
{
    mem::replace(&mut pairs[key], value)
}

/// Sets the value of a key if it is there, which allocates no memory, and returns the old value.
/// Returns `None` if the key is missing.
pub fn set_where_there(pairs: &mut Dictionary, key: String, value: Value) -> Option<Value>
    ensures old { result ≡ lookup (bytes_eq (string_bytes key)) (pairs_of pairs.old) }
    ensures pairs { OnSome result (IsSetAt (pairs_of pairs.old) (string_bytes key) value
        (pairs_of pairs.new)) }
{
    if !pairs.contains_key(key.as_str()) {
        return None;
    }
    match pairs.insert(key, value) {
        Ok(old) => old,
        Err(_) => unreachable!(),
    }
}

/// Sets a key's value. If memory runs out, the pairs are unchanged, and the error is `OutOfMemory`.
pub fn set_or_fault(pairs: &mut Dictionary, key: String, value: Value) -> Result<(), Error>
    ensures done { OnOk result (IsSetAt (pairs_of pairs.old) (string_bytes key) value
        (pairs_of pairs.new)) }
    ensures refused { OnErr result (pairs_of pairs.new ≡ pairs_of pairs.old) }
    ensures memory { OnlyMemory result }
{
    let _old = pairs.insert(key, value)?;
    Ok(())
}

/// Returns the index of the last pair, or `None` if there are no pairs.
pub fn last_index(pairs: &Dictionary) -> Option<usize>
    ensures index { IfSome result (λ index. index + 1 ≡ length (pairs_of pairs.now)) }
    ensures none { IsNone result → pairs_of pairs.now ≡ [] }
{
    if pairs.is_empty() {
        None
    } else {
        Some(pairs.len() - 1)
    }
}

/// Returns the pairs in the order of their keys or, if memory runs out, unchanged.
pub fn sorted(pairs: Dictionary) -> Result<Dictionary, Dictionary>
    ensures sorted { IfOk result (λ done. IsSorted (slice_cmp nat_cmp)
        (keys_of (pairs_of done))) }
    ensures pairs { IfOk result (λ done. IsPermutation (pairs_of pairs) (pairs_of done)) }
    ensures handed_back { IfErr result (λ back. back ≡ pairs) }
{
    let mut done = pairs;
    match done.sort_keys() {
        Ok(()) => Ok(done),
        Err(_) => Err(done),
    }
}
