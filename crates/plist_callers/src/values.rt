//! Proved callers of values: the value of bytes, why there is none, what a builder returns, a
//! dictionary's copy, and a value's copy, which is equal to it.

ghost use Rattle.std.specs.Prelude.{◌≡◌, ◌≤◌, ◌^◌, Err, IfOk, IfSome, false, true};
ghost use Rattle.plist_decode.specs.declared.format.Format.TheVariants.{Ascii};
ghost use Rattle.plist_base.specs.Bracketing.{bracketing};
ghost use Rattle.plist_base.specs.Budgets.{total_bytes};
ghost use Rattle.plist_base.specs.Faults.{WriterFailed, fault_without_offset};
ghost use Rattle.plist_reader.specs.Reader.{items_in_format, items_of_dialect, items_of_input};
ghost use Rattle.plist.specs.Collecting.{built_tree};
ghost use Rattle.plist.specs.ValueOfItems.{IsValueOf};
ghost use Rattle.plist.specs.LimitedValues.{NestsWithin};
ghost use Rattle.plist.specs.FromReader.{IsReadWithinBudget};
ghost use Rattle.plist.specs.ValueTrees.{pairs_of, tree_of, tree_pairs};

use crate::lemmas::are_equal;
use plist::{Builder, Dialect, Dictionary, Limits, Value};
use plist_base::{Error, ErrorKind, Event, Source, Writer};
use std::alloc::Global;
use std::rt::Files;

/// Returns the value of bytes, binary or in ASCII.
pub fn value_of_bytes(alloc: Global, bytes: &[u8]) -> Result<Value, Error>
    ensures value { IsValueOf (items_of_input bytes.now) (built_tree result) }
{
    Value::from_reader(alloc, bytes)
}

/// Returns the value of bytes, binary or in ASCII of the tight dialect.
pub fn value_of_tight_bytes(alloc: Global, bytes: &[u8]) -> Result<Value, Error>
    ensures value { IsValueOf (items_of_dialect Dialect.Tight bytes.now) (built_tree result) }
{
    Value::from_reader_with_dialect(alloc, bytes, Dialect::Tight)
}

/// Returns the value of an ASCII property list in the tight dialect.
pub fn value_of_tight(alloc: Global, text: &[u8]) -> Result<Value, Error>
    ensures value { IsValueOf (items_in_format Dialect.Tight Ascii text.now) (built_tree result) }
{
    Value::from_reader_ascii_with_dialect(alloc, text, Dialect::Tight)
}

/// Returns the value of a file, which nests at most 64 collections.
pub fn shallow_file<R: Files>(rt: &R, alloc: Global, path: &str) -> Result<Value, Error>
    ensures shallow { IfOk result (λ value. NestsWithin (tree_of value) 64) }
{
    let limits = Limits {
        depth: 64,
        items: 100_000,
    };
    Value::from_file_with_limits(rt, alloc, path, limits)
}

/// Returns the value of a file, which nests at most 64 collections, and whose strings and data have
/// at most 16 MiB.
pub fn light_file<R: Files>(rt: &R, alloc: Global, path: &str) -> Result<Value, Error>
    ensures shallow { IfOk result (λ value. NestsWithin (tree_of value) 64) }
    ensures light { IfOk result (λ value. total_bytes (bracketing (tree_of value)) ≤ 2 ^ 24) }
{
    let limits = Limits {
        depth: 64,
        items: 100_000,
    };
    Value::from_file_within(rt, alloc, path, limits, 1 << 24)
}

/// Returns `true` if a builder that has returned a value has no other value, which is always true.
pub fn finishes_once(builder: &mut Builder) -> bool
    ensures { result ≡ true }
{
    match builder.finish() {
        Ok(_) => builder.finish().is_err(),
        Err(_) => true,
    }
}

/// Returns the result of `finish` after an event for which memory ran out: `WriterFailed`. If
/// memory doesn't run out for the event, returns `None`.
pub fn finish_without_memory(
    builder: &mut Builder,
    event: Event<'_>,
) -> Option<Result<Value, Error>>
    ensures { IfSome result (λ answer. built_tree answer ≡ Err
        (fault_without_offset WriterFailed)) }
{
    match builder.write(event) {
        Ok(()) => None,
        Err(error) => match error.kind() {
            ErrorKind::OutOfMemory => Some(builder.finish()),
            _ => None,
        },
    }
}

/// Returns `true` if the error of storing a value is `UnexpectedEof`, which it never is.
pub fn meets_an_end<R: Files>(rt: &R, alloc: Global, value: &Value, path: &str) -> bool
    ensures { result ≡ false }
{
    match value.to_file_binary(rt, alloc, path) {
        Ok(()) => false,
        Err(error) => error.is_eof(),
    }
}

/// Returns a copy of a dictionary, which has the same trees at the same keys, in the same order.
///
/// # Errors
///
/// `OutOfMemory` if an allocation fails.
pub fn copy_of(pairs: &Dictionary) -> Result<Dictionary, Error>
    ensures copy { IfOk result (λ copy.
        tree_pairs (pairs_of copy) ≡ tree_pairs (pairs_of pairs.now)) }
{
    pairs.clone()
}

/// Returns `true` if a copy of a value is equal to it, which is always true.
///
/// # Errors
///
/// `OutOfMemory` if the value can't be copied.
pub fn equals_its_copy(alloc: Global, value: &Value) -> Result<bool, Error>
    ensures equal { IfOk result (λ equal. equal ≡ true) }
{
    Ok(are_equal(&value.clone(alloc)?, value))
}

/// Returns `true` if the value of a slice can't be read because a read failed. No read of a slice
/// fails.
pub fn from_reader_makes_up_a_failure(alloc: Global, bytes: &[u8]) -> bool
    ensures { result ≡ false }
{
    match Value::from_reader(alloc, bytes) {
        Ok(_) => false,
        Err(error) => error.is_io(),
    }
}

/// Reads a value whose strings and data have at most 100 bytes. It is built from the items within
/// this budget, which also admits the string or data that uses the budget's last byte.
///
/// # Errors
///
/// Any error of [`Value::from_reader_within`].
pub fn budget_refuses_the_last_byte<R: Source>(
    alloc: Global,
    source: R,
    limits: Limits,
) -> Result<Value, Error>
    ensures { IsReadWithinBudget limits 100 R.known R.failures source (built_tree result) }
{
    Value::from_reader_within(alloc, source, limits, 100)
}
