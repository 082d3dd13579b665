//! The state of the two walks over the objects of an archive.

ghost use Rattle.std.specs.Prelude.{◌≡◌, ◌<◌, length, slice_get, Some};
ghost use Rattle.std.specs.Option.{option_and_then, option_copied};
ghost use Rattle.plist_base.specs.Events.{event_of};
ghost use Rattle.plist_keyed.specs.inner.Walks.{end_in, uid_of_event};
ghost use Rattle.plist.specs.Accessors.{uid_in};

use indexmap::IndexMap;
use plist::Value;
use plist::stream::{Event, Events};
use std::alloc::Global;

// Returns the number of the Uid that an event is, or `None` for any other event.
pub(crate) fn uid_of(event: &Event<'_>) -> Option<u64>
    ensures { result ≡ uid_of_event (event_of event.now) }
{
    let Event::Uid(uid) = event else {
        return None;
    };
    Some(uid.get())
}

// A walk over the objects of an archive. It first settles each Uid that it can reach, and then
// yields the events of a tree.
#[derive(Drop)]
pub(crate) struct ArchiveWalk<'a> {
    pub(crate) alloc: Global,
    pub(crate) objects: &'a [Value],
    // The remaining items of the open objects, outermost first.
    pub(crate) levels: Vec<Events<'a>>,
    // The settled Uids, whose objects were walked completely, in the order in which they were
    // settled. Each is stored with the end of its chain. In a chain, the object of each Uid is the
    // next Uid.
    pub(crate) ends: IndexMap<u64, u64>,
}

impl<'a> ArchiveWalk<'a> {
    ghost use Rattle.plist_keyed.specs.inner.Walks.{objects_in};

    // Returns the object of a Uid, if the archive has one.
    pub(crate) fn look_up(&self, uid: u64) -> Option<&'a Value>
        ensures { option_copied result ≡ slice_get self.now.objects.now uid }
    {
        self.objects.get(uid as usize)
    }

    // Returns the object of a Uid that has one.
    pub(crate) fn object_at(&self, uid: u64) -> &'a Value
        requires { uid < length self.now.objects.now }
        ensures { slice_get self.now.objects.now uid ≡ Some result.now }
    {
        let objects = self.objects;
        &objects[uid as usize]
    }

    // Returns the end of a settled Uid's chain, or any other Uid itself.
    pub(crate) fn end_of(&self, uid: u64) -> u64
        ensures { result ≡ end_in self.now.ends uid }
    {
        match self.ends.get(&uid) {
            Some(end) => *end,
            None => uid,
        }
    }

    // Returns the Uid that the object of a Uid is, if it is one.
    pub(crate) fn next_of(&self, uid: u64) -> Option<u64>
        ensures { result ≡ option_and_then uid_in (slice_get (objects_in self.now) uid) }
    {
        Some(self.look_up(uid)?.as_uid()?.get())
    }
}
