//! Proved callers of an archive: the calls that allocate no memory, and the error of a tree.

ghost use Rattle.std.specs.Prelude.{◌≡◌, Err, IfSome, IsNone, false, map};
ghost use Rattle.plist.specs.ValueTrees.{tree_of};
ghost use Rattle.plist_keyed.specs.Archives.{RecursiveUid, objects_of, resolved_tree};
ghost use Rattle.plist_callers.specs.Objects.{HasNoObjectAt, IsObjectAt};

use plist::{Uid, Value};
use plist_keyed::{Archive, KeyedError};
use std::alloc::Global;

/// Returns the object that a key of an archive names, or `None` if it refers to none. No Uid in the
/// object is resolved.
pub fn object_at<'a>(archive: &Archive<'a>, key: &str) -> Option<&'a Value>
    ensures found { IfSome result (λ object. IsObjectAt key.now archive.now object.now) }
    ensures missing { IsNone result → HasNoObjectAt key.now archive.now }
{
    match archive.top(key) {
        Some(uid) => archive.get(uid),
        None => None,
    }
}

/// Requests a tree that can't be made, because the object of the Uid `nested` contains `nested`
/// again, possibly through other Uids. Returns `true` if the error names another Uid.
pub fn names_another_open_uid(alloc: Global, archive: &Archive<'_>, uid: Uid, nested: u64) -> bool
    requires { resolved_tree (map tree_of (objects_of archive.now)) uid
        ≡ Err (RecursiveUid nested) }
    ensures { result ≡ false }
{
    match archive.tree(alloc, uid) {
        Err(KeyedError::RecursiveUid(named)) => named != nested,
        _ => false,
    }
}
