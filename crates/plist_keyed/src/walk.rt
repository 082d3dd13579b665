//! The walk over an archive that yields the events of a Uid's tree.

ghost use Rattle.std.specs.Prelude.{◌≡◌, ◌+◌, ◌++◌, IfErr, IfOk, length, map, None, Ok, OnErr, OnOk};
ghost use Rattle.plist_base.specs.Bracketing.{bracketing};
ghost use Rattle.plist_base.specs.Trees.{Tree};
ghost use Rattle.plist_keyed.specs.declared.error.KeyedError.TheVariants.{OutOfMemory as NoMemory};
ghost use Rattle.plist_keyed.specs.Archives.{IsFaultOf, resolved_tree};
ghost use Rattle.plist_keyed.specs.inner.Walks.{IsIn, events_at, settled_in};
ghost use Rattle.plist.specs.Accessors.{uid_in};
ghost use Rattle.plist.specs.ValueTrees.{tree_of};

use crate::KeyedError;
use crate::state::{ArchiveWalk, uid_of};
use indexmap::IndexMap;
use plist::stream::Event;
use plist::{Error, ErrorKind, Value};
use std::alloc::Global;

impl<'a> ArchiveWalk<'a> {
    ghost use Rattle.plist_keyed.specs.inner.Walks.{IsWalk, events_left, events_in_levels, objects_in};

    // Enters the object at the end of a settled Uid's chain.
    fn enter(&mut self, uid: u64) -> Result<(), KeyedError>
        requires walk { IsWalk self.old }
        requires settled { IsIn uid (settled_in self.old.ends) }
        ensures entered { OnOk result (events_left self.new
            ≡ events_at (objects_in self.old) uid ++ events_left self.old) }
        ensures first { OnOk result ((object : Tree) × (uid_in object ≡ None)
            × (events_in_levels self.new ≡ bracketing object ++ events_in_levels self.old)) }
        ensures levels { OnOk result (length self.new.levels.items
            ≡ 1 + length self.old.levels.items) }
        ensures walk { IsWalk self.new }
        ensures memory { IfErr result (λ e. e ≡ NoMemory) }
        ensures unchanged { OnErr result (events_left self.new ≡ events_left self.old) }
    {
        let object = self.object_at(self.end_of(uid));
        self.levels.push(object.events(self.alloc))?;
        Ok(())
    }
}

impl<'a> Iterator for ArchiveWalk<'a> {
    type Item = Result<Event<'a>, Error>;

    ghost use Rattle.std.specs.Iterator.{at_most};
    ghost use Rattle.plist_keyed.specs.inner.Walks.{GivesItemOfUid, IsWalk, events_left};

    ghost can_next = { IsWalk };

    ghost next_gives = { GivesItemOfUid };

    ghost remaining = { λ walk. at_most (length (events_left walk)) };

    // An event that is a Uid is replaced by the events of the object at the end of its chain, which
    // isn't a Uid.
    fn next(&mut self) -> Option<Result<Event<'a>, Error>> {
        while let Some(mut left) = self.levels.pop() {
            let Some(item) = left.next() else {
                continue;
            };
            self.levels.push_reserved(left);
            let event = match item {
                Ok(event) => event,
                Err(error) => return Some(Err(error)),
            };
            let Some(uid) = uid_of(&event) else {
                return Some(Ok(event));
            };
            if self.enter(uid).is_err() {
                return Some(Err(ErrorKind::OutOfMemory.without_position()));
            }
        }
        None
    }
}

/// Returns the value of the object that a Uid names, in which every Uid is replaced by its own
/// tree.
///
/// # Errors
///
/// The first fault in depth-first order: `UidOutOfRange` for a Uid that names no object, or
/// `RecursiveUid` for a Uid that is reached while its own object is open. `OutOfMemory` if an
/// allocation fails.
pub(crate) fn value_at(alloc: Global, objects: &[Value], uid: u64) -> Result<Value, KeyedError>
    ensures value { IfOk result (λ v. resolved_tree (map tree_of objects.now) uid
        ≡ Ok (tree_of v)) }
    ensures refused { IfErr result (IsFaultOf (resolved_tree (map tree_of objects.now) uid)) }
{
    let mut walk = ArchiveWalk {
        alloc,
        objects,
        levels: Vec::new(alloc),
        ends: IndexMap::new(alloc),
    };
    walk.check(uid)?;
    walk.enter(uid)?;
    match Value::from_events(alloc, walk) {
        Ok(value) => Ok(value),
        Err(_) => Err(KeyedError::OutOfMemory),
    }
}
