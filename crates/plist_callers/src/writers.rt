//! Proved callers of the writers, for a value that is written to a vector: what they write is a
//! file of the value, and is read back as the value.

ghost use Rattle.std.specs.Prelude.{◌≡◌, IfErr, IfOk, false};
ghost use Rattle.plist_base.specs.Faults.{error_kind_of, kind_of};
ghost use Rattle.plist_binwrite.specs.Files.{IsFileOf};
ghost use Rattle.plist_binwrite.specs.Sizes.{HasObjects};
ghost use Rattle.plist_share.specs.SharedFiles.{IsLeastOfAll, IsSharedFileOf, distinct_subtrees};
ghost use Rattle.plist.specs.ValueTrees.{tree_of};
ghost use Rattle.plist_callers.specs.ReadBackFaults.{PreventsReadBack};

use crate::lemmas::{are_equal, file_by_events};
use plist::{Error, Value};
use plist_binwrite::EqualScalars;
use plist_share::EqualTrees;
use std::alloc::Global;

/// Writes a value as a file, and reads the file again. The result is equal to `value`.
///
/// # Errors
///
/// `PlistTooLarge` if the file would have 2^64 bytes or more, `Io` if the vector can't grow, and
/// `OutOfMemory` if another allocation fails.
pub fn write_back(alloc: Global, value: &Value) -> Result<Value, Error>
    ensures same { IfOk result (λ again. tree_of again ≡ tree_of value.now) }
    ensures refused { IfErr result
        (λ e. PreventsReadBack (kind_of (error_kind_of e)) (tree_of value.now)) }
{
    let mut bytes = Vec::new(alloc);
    value.to_writer_binary(alloc, &mut bytes)?;
    Value::from_reader(alloc, bytes)
}

/// Returns the file that a `BinaryWriter` writes for a value's events.
///
/// # Errors
///
/// Any error of [`BinaryWriter`](plist_binwrite::BinaryWriter).
pub fn plain_file(alloc: Global, value: &Value) -> Result<Vec<u8>, Error>
    ensures file { IfOk result (λ file. IsFileOf (tree_of value.now) file.items) }
{
    file_by_events::<EqualScalars>(alloc, value)
}

/// Returns the file that a sharing writer writes for a value's events. It has as many objects as
/// the value has different subtrees, and no file of the same events has fewer.
///
/// # Errors
///
/// Any error of [`SharingWriter`](plist_share::SharingWriter).
pub fn shared_file(alloc: Global, value: &Value) -> Result<Vec<u8>, Error>
    ensures file { IfOk result (λ file. IsSharedFileOf (tree_of value.now) file.items) }
    ensures count { IfOk result (λ f. HasObjects f.items (distinct_subtrees (tree_of value.now))) }
    ensures least { IfOk result (λ _. IsLeastOfAll (tree_of value.now)) }
{
    file_by_events::<EqualTrees>(alloc, value)
}

/// Writes a value and reads it back. Returns `true` if the value has changed, as it would if two
/// strings of one length were stored as one.
///
/// # Errors
///
/// Any error of [`write_back`].
pub fn texts_by_length(alloc: Global, value: &Value) -> Result<bool, Error>
    ensures { IfOk result (λ changed. changed ≡ false) }
{
    let again = write_back(alloc, value)?;
    Ok(!are_equal(&again, value))
}
