//! Proved callers of entries: the entry of a key has that key and its value, which is set and
//! removed through the entry.

ghost use Rattle.std.specs.Prelude.{◌≡◌, IfErr, IfOk, OnErr, OnOk, OnSome, string_bytes, unwrap_or, option_and_then, false};
ghost use Rattle.std.specs.Map.{lookup};
ghost use Rattle.std.specs.Str.{bytes_eq};
ghost use Rattle.plist.specs.Accessors.{boolean_in};
ghost use Rattle.plist.specs.ValueTrees.{pairs_of, tree_of};
ghost use Rattle.plist.specs.declared.value.Value.TheVariants as made;
ghost use Rattle.plist_base.specs.Outcomes.{OnlyMemory};
ghost use Rattle.plist_pairs.specs.Keys.{IsSetAt, IsTakenAt};

use plist::dictionary::Entry;
use plist::dictionary::Entry::{Occupied, Vacant};
use plist::{Dictionary, Error, Value};

/// Returns `true` if the entry of a key has that key.
pub fn entry_has_key(pairs: &mut Dictionary, key: String, name: &str) -> bool
    ensures { result ≡ bytes_eq (string_bytes key) name.now }
{
    pairs.entry(key).key().as_str() == name
}

/// Returns the Boolean of a key, by its entry, or `None` if the key has none.
pub fn flag_by_entry(pairs: &mut Dictionary, key: String) -> Option<bool>
    ensures { result ≡ option_and_then (λ value. boolean_in (tree_of value))
        (lookup (bytes_eq (string_bytes key)) (pairs_of pairs.old)) }
{
    match pairs.entry(key) {
        Entry::Occupied(found) => found.get().as_boolean(),
        Entry::Vacant(_entry) => None,
    }
}

/// Returns the Boolean of a key, or `None` if its value isn't a Boolean. If the key is missing, it
/// is added with `false`.
///
/// # Errors
///
/// The key and `false` if an allocation fails. Nothing changes then.
pub fn flag_or_false(pairs: &mut Dictionary, key: String) -> Result<Option<bool>, (String, Value)>
    ensures { IfOk result (λ flag. flag ≡ boolean_in (tree_of
        (unwrap_or (lookup (bytes_eq (string_bytes key)) (pairs_of pairs.old))
        (made.Boolean false)))) }
{
    let lent = pairs.entry(key).or_insert(Value::Boolean(false))?;
    Ok(lent.as_boolean())
}

/// Like [`flag_or_false`], but drops the key if an allocation fails.
///
/// # Errors
///
/// `OutOfMemory` if an allocation fails. Nothing changes then.
pub fn flag_or_fault(pairs: &mut Dictionary, key: String) -> Result<Option<bool>, Error>
    ensures flag { IfOk result (λ flag. flag ≡ boolean_in (tree_of
        (unwrap_or (lookup (bytes_eq (string_bytes key)) (pairs_of pairs.old))
        (made.Boolean false)))) }
    ensures memory { OnlyMemory result }
{
    let lent = pairs.entry(key).or_insert(Value::Boolean(false))?;
    Ok(lent.as_boolean())
}

/// Sets a key's value through its entry. If the key is missing, it is first added with another
/// value.
///
/// # Errors
///
/// The key and `first` if an allocation fails. Nothing changes then.
pub fn set_by_entry(
    pairs: &mut Dictionary,
    key: String,
    first: Value,
    value: Value,
) -> Result<(), (String, Value)>
    ensures done { OnOk result (IsSetAt (pairs_of pairs.old) (string_bytes key) value
        (pairs_of pairs.new)) }
    ensures refused { OnErr result (pairs_of pairs.new ≡ pairs_of pairs.old) }
    ensures handed_back { IfErr result (λ back. back ≡ (key, first)) }
{
    let lent = pairs.entry(key).or_insert(first)?;
    *lent = value;
    Ok(())
}

/// Sets a key's value through its entry. If the key is missing, it is first added with a value that
/// the closure makes.
///
/// # Errors
///
/// The key and the closure's value if an allocation fails. Nothing changes then.
pub fn set_by_made_entry<F: FnOnce() -> Value>(
    pairs: &mut Dictionary,
    key: String,
    first: F,
    value: Value,
) -> Result<(), (String, Value)>
    requires { F.pre first }
    ensures done { OnOk result (IsSetAt (pairs_of pairs.old) (string_bytes key) value
        (pairs_of pairs.new)) }
    ensures refused { OnErr result (pairs_of pairs.new ≡ pairs_of pairs.old) }
    ensures handed_back { IfErr result (λ back. (back.0 ≡ key) × F.post first back.1) }
{
    let lent = pairs.entry(key).or_insert_with(first)?;
    *lent = value;
    Ok(())
}

/// Removes a key through its entry, and returns its value, or `None` if the key is missing.
pub fn take_by_entry(pairs: &mut Dictionary, key: String) -> Option<Value>
    ensures value { result ≡ lookup (bytes_eq (string_bytes key)) (pairs_of pairs.old) }
    ensures pairs { OnSome result (IsTakenAt (pairs_of pairs.old) (string_bytes key)
        (pairs_of pairs.new)) }
{
    match pairs.entry(key) {
        Occupied(entry) => Some(entry.remove()),
        Vacant(_entry) => None,
    }
}
