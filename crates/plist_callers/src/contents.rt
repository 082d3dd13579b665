//! Proved callers of the conversions into values and of the accessors: what was converted is
//! returned by the accessors of its kind, and by no others.

ghost use Rattle.std.specs.Prelude.{◌≡◌, IfErr, IfOk, IsSome, IsTrue, None, Some, option_map, string_bytes, true};
ghost use Rattle.std.specs.Option.{option_copied};
ghost use Rattle.plist_base.specs.declared.error.EventKind.TheVariants as event_kind;
ghost use Rattle.plist_base.specs.Trees.{Array, Dictionary as Pairs, NoMembers, NoTrees};
ghost use Rattle.plist.specs.Accessors.{array_in, boolean_in, dictionary_in, text_in, uid_in};
ghost use Rattle.plist.specs.ValueTrees.{item_trees, kind_of_tree, pair_trees, pairs_of, tree_of};

use plist::{Dictionary, Value, kind_of_value};
use plist_base::{Date, Error, EventKind, RealBits, Uid};
use std::alloc::Global;

/// Converts a Boolean to a value and back.
pub fn boolean_again(flag: bool) -> Option<bool>
    ensures { result ≡ Some flag }
{
    Value::from(flag).as_boolean()
}

/// Converts a date to a value and back. Its fraction is kept.
pub fn date_again(date: Date) -> Option<Date>
    ensures { result ≡ Some date }
{
    Value::from(date).as_date()
}

/// Converts a real to a value and back. Its width and all its bytes are kept.
pub fn real_again(bits: RealBits) -> Option<RealBits>
    ensures { result ≡ Some bits }
{
    Value::Real(bits).as_real()
}

/// Converts an identifier to a value and back.
pub fn uid_again(uid: Uid) -> Option<Uid>
    ensures { result ≡ Some uid }
{
    Value::Uid(uid).into_uid()
}

/// Converts the bytes of data to a value and back.
pub fn data_again(bytes: Vec<u8>) -> Option<Vec<u8>>
    ensures { option_map (λ found. found.items) result ≡ Some bytes.items }
{
    Value::Data(bytes).into_data()
}

/// Converts a string to a value and back.
pub fn text_again(text: String) -> Option<String>
    ensures { option_map string_bytes result ≡ Some (string_bytes text) }
{
    Value::from(text).into_string()
}

/// Takes the content out of a value, and makes a value of it again, which is equal to the first
/// one.
pub fn value_again(value: Value) -> Value
    ensures { result ≡ value }
{
    match value {
        Value::Array(items) => Value::from(items),
        Value::Dictionary(pairs) => Value::from(pairs),
        other => other,
    }
}

/// Returns the string of a value, or else the value unchanged.
pub fn text_or_value(value: Value) -> Result<String, Value>
    ensures text { IfOk result (λ text. text_in (tree_of value) ≡ Some (string_bytes text)) }
    ensures other { IfErr result (λ other. other ≡ value) }
{
    match value {
        Value::String(text) => Ok(text),
        other => Err(other),
    }
}

/// Returns the identifier of a value, by a pattern, or `None` if the value isn't one.
pub fn uid_in_value(value: Value) -> Option<Uid>
    ensures { result ≡ uid_in (tree_of value) }
{
    if let Value::Uid(uid) = value {
        Some(uid)
    } else {
        None
    }
}

/// Returns `true` if a value is `true`.
pub fn is_true(value: Value) -> bool
    ensures { IsTrue result → boolean_in (tree_of value) ≡ Some true }
{
    matches!(value, Value::Boolean(true))
}

/// Converts the items of an array to a value and back.
pub fn items_again(items: Vec<Value>) -> Option<Vec<Value>>
    ensures { option_map (λ v. item_trees v.items) result ≡ Some (item_trees items.items) }
{
    Value::from(items).into_array()
}

/// Converts a dictionary to a value and back.
pub fn pairs_again(pairs: Dictionary) -> Option<Dictionary>
    ensures { option_map (λ again. pair_trees (pairs_of again)) result
        ≡ Some (pair_trees (pairs_of pairs)) }
{
    Value::from(pairs).into_dictionary()
}

/// Converts an `i64` to a value and back.
pub fn i64_again(number: i64) -> Option<i64>
    ensures { result ≡ Some number }
{
    Value::from(number).as_signed_integer()
}

/// Converts an `i32` to a value and back.
pub fn i32_again(number: i32) -> Option<i64>
    ensures { result ≡ Some number }
{
    Value::from(number).as_signed_integer()
}

/// Converts an `i16` to a value and back.
pub fn i16_again(number: i16) -> Option<i64>
    ensures { result ≡ Some number }
{
    Value::from(number).as_signed_integer()
}

/// Converts an `i8` to a value and back.
pub fn i8_again(number: i8) -> Option<i64>
    ensures { result ≡ Some number }
{
    Value::from(number).as_signed_integer()
}

/// Converts a `u64` to a value and back.
pub fn u64_again(number: u64) -> Option<u64>
    ensures { result ≡ Some number }
{
    Value::from(number).as_unsigned_integer()
}

/// Converts a `u32` to a value and back.
pub fn u32_again(number: u32) -> Option<u64>
    ensures { result ≡ Some number }
{
    Value::from(number).as_unsigned_integer()
}

/// Converts a `u16` to a value and back.
pub fn u16_again(number: u16) -> Option<u64>
    ensures { result ≡ Some number }
{
    Value::from(number).as_unsigned_integer()
}

/// Converts a `u8` to a value and back.
pub fn u8_again(number: u8) -> Option<u64>
    ensures { result ≡ Some number }
{
    Value::from(number).as_unsigned_integer()
}

/// Converts a borrowed number to a value, and returns the number of that value.
pub fn lent_again(number: &u64) -> Option<u64>
    ensures { result ≡ Some number.now }
{
    Value::from(number).as_unsigned_integer()
}

/// Converts a string to a value. Returns `true` if the string that is borrowed from the value has
/// as many bytes as the converted one, which is always true.
pub fn lends_its_text(text: String) -> bool
    ensures { result ≡ true }
{
    let size = text.len();
    match Value::from(text).as_string() {
        Some(lent) => lent.len() == size,
        None => false,
    }
}

/// Returns the number of a value that is a string. There is none, whatever the string spells.
pub fn number_of_text(text: String) -> Option<i64>
    ensures { result ≡ None }
{
    Value::from(text).as_signed_integer()
}

/// Replaces a value by an array, and returns the array from it.
pub fn put_array(dest: &mut Value, items: Vec<Value>) -> Option<&Vec<Value>>
    ensures { option_map (λ v. item_trees v.now.items) result ≡ Some (item_trees items.items) }
{
    *dest = Value::from(items);
    dest.as_array()
}

/// Replaces a value by a dictionary, and returns the dictionary from it.
pub fn put_dictionary(dest: &mut Value, pairs: Dictionary) -> Option<&Dictionary>
    ensures { option_map (λ lent. pair_trees (pairs_of lent.now)) result
        ≡ Some (pair_trees (pairs_of pairs)) }
{
    *dest = Value::from(pairs);
    dest.as_dictionary()
}

/// Replaces a value by data, and returns the bytes from it.
pub fn put_data(dest: &mut Value, bytes: Vec<u8>) -> Option<&[u8]>
    ensures { option_copied result ≡ Some bytes.items }
{
    *dest = Value::Data(bytes);
    dest.as_data()
}

/// Replaces a value by an identifier, and returns the identifier from it.
pub fn put_uid(dest: &mut Value, uid: Uid) -> Option<&Uid>
    ensures { option_copied result ≡ Some uid }
{
    *dest = Value::Uid(uid);
    dest.as_uid()
}

/// Removes the items of an array. Any other value is unchanged.
pub fn drop_items(value: &mut Value)
    ensures items { IsSome (array_in (tree_of value.old)) → tree_of value.new ≡ Array NoTrees }
    ensures other { array_in (tree_of value.old) ≡ None → value.new ≡ value.old }
{
    match value.as_array_mut() {
        Some(items) => items.clear(),
        None => {}
    }
}

/// Removes the pairs of a dictionary. Any other value is unchanged.
pub fn drop_pairs(value: &mut Value)
    ensures pairs { IsSome (dictionary_in (tree_of value.old)) → tree_of value.new
        ≡ Pairs NoMembers }
    ensures other { dictionary_in (tree_of value.old) ≡ None → value.new ≡ value.old }
{
    match value.as_dictionary_mut() {
        Some(pairs) => pairs.clear(),
        None => {}
    }
}

/// Copies a string into a value, and returns the string of that value.
///
/// # Errors
///
/// `OutOfMemory` if an allocation fails.
pub fn copied_text(alloc: Global, text: &str) -> Result<Option<String>, Error>
    ensures { IfOk result (λ again. option_map string_bytes again ≡ Some text.now) }
{
    Ok(Value::try_from_str(alloc, text)?.into_string())
}

/// Returns the kind of an identifier.
pub fn kind_of_uid(uid: Uid) -> EventKind
    ensures { result ≡ event_kind.Uid }
{
    kind_of_value(&Value::Uid(uid))
}

/// Returns the kind of a value's copy, which is the value's kind.
///
/// # Errors
///
/// `OutOfMemory` if an allocation fails.
pub fn kind_of_copy(alloc: Global, value: &Value) -> Result<EventKind, Error>
    ensures { IfOk result (λ kind. kind ≡ kind_of_tree (tree_of value.now)) }
{
    Ok(kind_of_value(&value.clone(alloc)?))
}
