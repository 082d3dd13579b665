//! Stores the state of a walk: the open collections, and what is known about every object.

ghost use Rattle.std.specs.Prelude.{◌≡◌, length, reverse};
ghost use Rattle.std.proofs.Props.{props};
ghost use Rattle.plist_base.specs.Packing.{packable_prop};
ghost use Rattle.plist_binread.specs.Remaining.{ArePacked, MarksOpenPath};

use crate::frames::{Frame, Frames, NextChild};
use crate::references::References;
use plist_decode::packed::{open_kind, open_start, set_tag};
use std::alloc::Global;

/// The state of a walk over the objects of a file.
#[derive(Drop)]
pub struct Walk {
    /// The tag of every object, by its number. It encodes what the content is, or that the object
    /// is an open collection, and where its references lie.
    pub tags: Vec<u8>,
    /// The content of every object, which is its offset or a small scalar that is cached.
    pub contents: Vec<u64>,
    /// The open collections, the innermost one last.
    pub frames: Frames,
    ghost same: { length contents.items ≡ length tags.items } by { Prim.hlevel props },
    ghost path: { MarksOpenPath tags.items (reverse frames) } by { Prim.hlevel props },
    ghost packed: { ArePacked tags.items contents.items } by { Prim.hlevel (props, packable_prop) },
}

impl Walk {
    ghost use Rattle.std.specs.Prelude.{◌≡◌, ◌<◌, ℕ, List};
    ghost use Rattle.plist_decode.specs.declared.head.Bounds.{Bounds};
    ghost use Rattle.plist_binread.specs.Step.{ParentIsOpen, TakesChild, WeightFalls, stored_references};
    ghost use Rattle.plist_binread.specs.Tokens.{KeepsCached};
    ghost use Rattle.plist_binread.specs.Walking.{IsEmptyWalk, IsWalkOf, cached_in, walk_objects};

    /// Creates a walk over a file. Its objects aren't known yet.
    pub fn new(alloc: Global) -> Self
        ensures { IsEmptyWalk result }
    {
        Walk {
            tags: Vec::new(alloc),
            contents: Vec::new(alloc),
            frames: Frames::new(alloc),
        }
    }

    /// Returns the next child of the innermost collection, or closes the collection if no child is
    /// left.
    pub fn next_child(&mut self) -> NextChild
        // Result.
        ensures remaining { (bytes : List ℕ) (bounds : Bounds) → IsWalkOf bytes bounds self.old
            → TakesChild bytes bounds self.old result self.new × IsWalkOf bytes bounds self.new }
        ensures within { ParentIsOpen self.new result }
        // State afterwards.
        ensures size { walk_objects self.new ≡ walk_objects self.old }
        ensures counted { cached_in self.new ≡ cached_in self.old }
        ensures weight { (count : ℕ) → WeightFalls count self.old result self.new }
        ensures contents { self.new.contents.items ≡ self.old.contents.items }
        ensures still_cached { KeepsCached self.old self.new }
    {
        match self.frames.next_child() {
            NextChild::Nothing => NextChild::Nothing,
            NextChild::End(object) => {
                set_tag(&mut self.tags, object as usize, 0);
                NextChild::End(object)
            }
            NextChild::Child(frame) => NextChild::Child(frame),
        }
    }

    /// Returns where the references of an open collection lie.
    #[inline(always)]
    pub fn references(&self, frame: Frame) -> References
        requires { frame.object < walk_objects self.now }
        ensures { result ≡ stored_references self.now frame }
    {
        let tag = self.tags[frame.object as usize];
        References {
            place: self.contents[frame.object as usize],
            kind: open_kind(tag),
            start: open_start(tag),
            count: frame.count,
        }
    }

    /// Returns the tag of an object, or 0 if the object doesn't exist.
    #[inline(always)]
    pub fn tag_of(&self, number: u64) -> u8 {
        if number >= self.tags.len() as u64 {
            return 0;
        }
        self.tags[number as usize]
    }

    /// Returns the offset of an object, or `None` if it is cached or open, or doesn't exist.
    #[inline(always)]
    pub fn offset_of(&self, number: u64) -> Option<u64> {
        if number >= self.tags.len() as u64 || self.tags[number as usize] != 0 {
            return None;
        }
        Some(self.contents[number as usize])
    }
}
