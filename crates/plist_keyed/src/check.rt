//! The walk that finds the first fault below a Uid of an archive, if there is a fault.
//!
//! It follows every Uid once. A Uid that it reaches again is either open, which is a fault, or
//! settled, and then there is no fault below it.

ghost use Rattle.std.specs.Prelude.{◌≡◌, [], ◌∷◌, IfErr, OnOk, ℕ, nat_eq, slice_get};
ghost use Rattle.std.specs.List.{list_any};
ghost use Rattle.std.specs.Option.{option_and_then, option_map_or};
ghost use Rattle.plist_keyed.specs.declared.error.KeyedError.TheVariants.{OutOfMemory as NoMemory};
ghost use Rattle.plist_keyed.specs.Archives.{IsFaultOf, object_found, resolved_tree};
ghost use Rattle.plist_keyed.specs.inner.Walks.{IsIn, end_in, settled_in};
ghost use Rattle.plist.specs.Accessors.{uid_in};

use crate::KeyedError;
use crate::state::{ArchiveWalk, uid_of};
use indexmap::IndexSet;

impl<'a> ArchiveWalk<'a> {
    ghost use Rattle.plist_keyed.specs.inner.Walks.{AreAllSettled, FollowsUid, objects_in};

    // Opens the object of a Uid, unless the Uid is settled. The open Uids are those of the path,
    // outermost first.
    fn follow(&mut self, path: &mut IndexSet<u64>, uid: u64) -> Result<(), KeyedError>
        // Result.
        ensures followed { OnOk result (FollowsUid self.old path.old.keys uid self.new
            path.new.keys) }
        // Errors.
        ensures refused { IfErr result (IsFaultOf (object_found
            (slice_get (objects_in self.old) uid) (list_any (nat_eq uid) path.old.keys) uid)) }
        // State afterwards.
        ensures objects { OnOk result (self.new.objects ≡ self.old.objects) }
        ensures ends { OnOk result (self.new.ends ≡ self.old.ends) }
    {
        if self.ends.contains_key(&uid) {
            return Ok(());
        }
        let Some(object) = self.look_up(uid) else {
            return Err(KeyedError::UidOutOfRange(uid));
        };
        if path.contains(&uid) {
            return Err(KeyedError::RecursiveUid(uid));
        }
        path.insert(uid)?;
        self.levels.push(object.events(self.alloc))?;
        Ok(())
    }

    // Settles a Uid whose object has no items left. If the object is a Uid, both have the same
    // end.
    fn settle(&mut self, uid: u64) -> Result<(), KeyedError>
        requires { IsIn uid (settled_in self.old.ends) → ⊥ }
        // Errors.
        ensures memory { IfErr result (λ e. e ≡ NoMemory) }
        // State afterwards.
        ensures settled { OnOk result (settled_in self.new.ends ≡ uid ∷ settled_in self.old.ends) }
        ensures end { OnOk result (end_in self.new.ends uid ≡ option_map_or (end_in self.old.ends)
            (option_and_then uid_in (slice_get (objects_in self.old) uid)) uid) }
        ensures kept { OnOk result ((other : ℕ) → IsIn other (settled_in self.old.ends)
            → end_in self.new.ends other ≡ end_in self.old.ends other) }
        ensures objects { OnOk result (self.new.objects ≡ self.old.objects) }
        ensures levels { OnOk result (self.new.levels ≡ self.old.levels) }
    {
        let end = match self.next_of(uid) {
            Some(next) => self.end_of(next),
            None => uid,
        };
        self.ends.insert(uid, end)?;
        Ok(())
    }

    /// Walks over everything below a Uid, and settles every Uid that it reaches.
    ///
    /// # Errors
    ///
    /// The first fault in depth-first order: `UidOutOfRange` for a Uid that names no object, or
    /// `RecursiveUid` for a Uid that is reached while its own object is open. `OutOfMemory` if an
    /// allocation fails.
    pub(crate) fn check(&mut self, uid: u64) -> Result<(), KeyedError>
        requires levels { self.old.levels.items ≡ [] }
        requires ends { self.old.ends.entries ≡ [] }
        // Result.
        ensures settled { OnOk result (AreAllSettled self.new) }
        ensures reached { OnOk result (IsIn uid (settled_in self.new.ends)) }
        // Errors.
        ensures refused { IfErr result (IsFaultOf (resolved_tree (objects_in self.old) uid)) }
        // State afterwards.
        ensures levels { OnOk result (self.new.levels.items ≡ []) }
        ensures objects { OnOk result (self.new.objects ≡ self.old.objects) }
    {
        let mut path = IndexSet::new(self.alloc);
        self.follow(&mut path, uid)?;
        while let Some(mut left) = self.levels.pop() {
            let Some(item) = left.next() else {
                // This always finds a Uid, since each open object has one.
                let Some(walked) = path.pop() else {
                    continue;
                };
                self.settle(walked)?;
                continue;
            };
            self.levels.push_reserved(left);
            let Ok(event) = item else {
                return Err(KeyedError::OutOfMemory);
            };
            let Some(found) = uid_of(&event) else {
                continue;
            };
            self.follow(&mut path, found)?;
        }
        // The tree may be less deep than what was walked.
        self.levels = Vec::new(self.alloc);
        Ok(())
    }
}
