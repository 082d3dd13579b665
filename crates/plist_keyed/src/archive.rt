//! An archive, with its objects and the names of its roots.

ghost use Rattle.std.specs.Prelude.{◌≡◌, ℕ, Ok, IfErr, IfOk, IfSome, IsNone, map, slice_get};
ghost use Rattle.std.specs.Option.{option_copied};
ghost use Rattle.plist_keyed.specs.Archives.{IsUidAt, names_of, objects_of, IsArchiveOf, IsNoArchive, resolved_tree, IsFaultOf};
ghost use Rattle.plist.specs.ValueTrees.{tree_of};

use crate::KeyedError;
use crate::walk::value_at;
use plist::{Dictionary, Uid, Value};
use std::alloc::Global;

/// An archive in a property list. Its objects are in the array at `$objects`, and the dictionary at
/// `$top` names some of them by their Uids.
///
/// An object's Uid is its index among the objects, from 0 on.
#[derive(Clone, Copy)]
pub struct Archive<'a> {
    objects: &'a Vec<Value>,
    names: &'a Dictionary,
}

impl<'a> Archive<'a> {
    /// Opens an archive, given its property list. It allocates nothing.
    ///
    /// # Errors
    ///
    /// `NotAnArchive` unless the property list is a dictionary with an array at `$objects` and a
    /// dictionary at `$top`.
    ///
    /// # Examples
    ///
    /// ```rust
    /// let opened = Archive::open(archive)?;
    /// match opened.top("root") {
    ///     Some(uid) => Ok(Some(opened.tree(alloc, uid)?)),
    ///     None => Ok(None),
    /// }
    /// ```
    pub fn open(root: &'a Value) -> Result<Archive<'a>, KeyedError>
        ensures archive { IfOk result (λ archive. IsArchiveOf root.now (objects_of archive)
            (names_of archive)) }
        ensures refused { IfErr result (IsNoArchive root.now) }
    {
        let Value::Dictionary(pairs) = root else {
            return Err(KeyedError::NotAnArchive);
        };
        let Some(Value::Array(objects)) = pairs.get("$objects") else {
            return Err(KeyedError::NotAnArchive);
        };
        let Some(Value::Dictionary(names)) = pairs.get("$top") else {
            return Err(KeyedError::NotAnArchive);
        };
        Ok(Archive { objects, names })
    }

    /// Returns the Uid at a key of `$top`, or `None` if the key is missing or its value isn't a
    /// Uid. It allocates nothing.
    ///
    /// # Examples
    ///
    /// ```rust
    /// let opened = Archive::open(archive)?;
    /// match opened.top("root") {
    ///     Some(uid) => Ok(Some(opened.tree(alloc, uid)?)),
    ///     None => Ok(None),
    /// }
    /// ```
    pub fn top(&self, key: &str) -> Option<Uid>
        ensures found { IfSome result (IsUidAt key.now (names_of self.now)) }
        ensures missing { IsNone result → (uid : ℕ) → ¬ (IsUidAt key.now (names_of self.now) uid) }
    {
        let Some(Value::Uid(uid)) = self.names.get(key) else {
            return None;
        };
        Some(*uid)
    }

    /// Returns the object that a Uid names, with its Uids unchanged, or `None` if the archive has
    /// no such object. It allocates nothing.
    ///
    /// # Examples
    ///
    /// ```rust
    /// let root = archive.get(archive.top("root")?)?;
    /// let name = root.as_dictionary()?.get("name")?.as_uid()?;
    /// archive.get(*name)
    /// ```
    pub fn get(&self, uid: Uid) -> Option<&'a Value>
        ensures { option_copied result ≡ slice_get (objects_of self.now) uid }
    {
        self.objects.get(uid.get() as usize)
    }

    /// Returns the tree of the object that a Uid names, with every Uid in it replaced by the tree
    /// of the object that it names. An object that is reached more than once appears in the tree
    /// each time.
    ///
    /// So the tree may be exponentially larger than the archive: if each of thirty arrays names the
    /// next object twice, and the last object is a string, the tree has 2^30 leaves. To walk over
    /// an archive without making its tree, follow its Uids by [`Archive::get`].
    ///
    /// Each Uid is followed once to find a fault, before any part of the tree is made. So the time
    /// to find a fault depends on the objects only, and the time of the whole call on the objects
    /// and the tree. The Uids that were followed are stored until the call returns.
    ///
    /// The walks store the open objects in lists, so the call stack doesn't grow with the depth.
    /// The returned value may be deep, too; [`Value::destroy`] drops it without recursion.
    ///
    /// # Errors
    ///
    /// The first fault in depth-first order, in which a Uid precedes the contents of the object
    /// that it names:
    ///
    /// - `UidOutOfRange` for a Uid that names no object.
    /// - `RecursiveUid` for a Uid that is reached while its own object is open.
    /// - `OutOfMemory` if an allocation fails.
    ///
    /// # Examples
    ///
    /// ```rust
    /// let opened = Archive::open(archive)?;
    /// match opened.top("root") {
    ///     Some(uid) => Ok(Some(opened.tree(alloc, uid)?)),
    ///     None => Ok(None),
    /// }
    /// ```
    pub fn tree(&self, alloc: Global, uid: Uid) -> Result<Value, KeyedError>
        ensures value { IfOk result (λ v. resolved_tree (map tree_of (objects_of self.now)) uid
            ≡ Ok (tree_of v)) }
        ensures fault { IfErr result
            (IsFaultOf (resolved_tree (map tree_of (objects_of self.now)) uid)) }
    {
        value_at(alloc, self.objects.as_slice(), uid.get())
    }
}
