//! Reading an untrusted file.

ghost use Rattle.std.specs.Prelude.{◌≤◌, ◌^◌, IfOk, length};
ghost use Rattle.plist_base.specs.Bracketing.{bracketing};
ghost use Rattle.plist_base.specs.Budgets.{total_bytes};
ghost use Rattle.plist.specs.Collecting.{built_tree};
ghost use Rattle.plist.specs.ValueOfItems.{IsValueOf};
ghost use Rattle.plist.specs.LimitedValues.{NestsWithin};
ghost use Rattle.plist.specs.ValueTrees.{tree_of};
ghost use Rattle.plist_uses.specs.Uploads.{items_of_upload};

use plist::{Error, Limits, Value};
use std::alloc::Global;

/// Reads the value of untrusted bytes: at most 64 levels of collections, at most 100,000 events,
/// and at most 16 MiB of strings and data, whatever the bytes contain. So no file makes the value
/// take more memory than the limits allow, and dropping or comparing it recurses no deeper than
/// their levels.
///
/// # Errors
///
/// Any error of [`Value::from_reader_within`].
pub fn read_upload(alloc: Global, bytes: &[u8]) -> Result<Value, Error>
    ensures value { IsValueOf (items_of_upload bytes.now) (built_tree result) }
    ensures shallow { IfOk result (λ value. NestsWithin (tree_of value) 64) }
    ensures short { IfOk result (λ value. length (bracketing (tree_of value)) ≤ 100000) }
    ensures light { IfOk result (λ value. total_bytes (bracketing (tree_of value)) ≤ 2 ^ 24) }
{
    let limits = Limits {
        depth: 64,
        items: 100_000,
    };
    Value::from_reader_within(alloc, bytes, limits, 1 << 24)
}
