//! The root of a keyed archive.

ghost use Rattle.std.specs.Prelude.{IfErr, IfNone, IfOk, IfSome};
ghost use Rattle.plist.specs.ValueTrees.{tree_of};
ghost use Rattle.plist_uses.specs.Roots.{HasNoRoot, IsRootOf, RefusesRoot};

use plist::Value;
use plist_keyed::{Archive, KeyedError};
use std::alloc::Global;

/// Returns the object that an archive names `root`, with every Uid in it replaced by the object
/// that it names, or `None` if the archive names no root.
///
/// # Errors
///
/// Any error of [`Archive::open`] or [`Archive::tree`].
pub fn root_of(alloc: Global, archive: &Value) -> Result<Option<Value>, KeyedError>
    ensures root { IfOk result (λ top. IfSome top (λ root. IsRootOf archive.now (tree_of root))) }
    ensures none { IfOk result (λ top. IfNone top (HasNoRoot archive.now)) }
    ensures refused { IfErr result (RefusesRoot archive.now) }
{
    let opened = Archive::open(archive)?;
    match opened.top("root") {
        Some(uid) => Ok(Some(opened.tree(alloc, uid)?)),
        None => Ok(None),
    }
}
