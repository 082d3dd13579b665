//! Stores the open collections compactly.

ghost use Rattle.std.specs.Prelude.{◌≡◌, [], ◌∷◌, ◌++◌, None, reverse, OnOk, OnErr};
ghost use Rattle.plist_binread.specs.Remaining.{NextOf, frame_of, with_innermost};

use plist_base::{Compact, CompactList};
use std::alloc::{AllocError, Global};
use std::marker::Model;

/// An open collection.
#[derive(Clone, Copy)]
pub struct Frame {
    /// The number of the collection's object.
    pub object: u64,
    /// How many children of the collection have been entered.
    pub next: u64,
    /// How many children the collection has.
    pub count: u64,
}

/// An open collection with numbers that fit into four bytes each.
#[derive(Clone, Copy)]
pub struct NarrowFrame {
    /// The number of the collection's object.
    pub object: u32,
    /// How many children of the collection have been entered.
    pub next: u32,
    /// How many children the collection has.
    pub count: u32,
}

/// A frame has a smaller form if its numbers fit into four bytes each.
impl Compact for Frame {
    ghost use Rattle.plist_binread.specs.Remaining.{frame_of};

    type Narrow = NarrowFrame;

    ghost widened = { λ narrow. frame_of narrow.object narrow.next narrow.count };

    #[inline(always)]
    fn narrowed(self) -> Option<NarrowFrame> {
        if self.object >= 1 << 32 || self.next >= 1 << 32 || self.count >= 1 << 32 {
            return None;
        }
        Some(NarrowFrame {
            object: self.object as u32,
            next: self.next as u32,
            count: self.count as u32,
        })
    }

    #[inline(always)]
    fn widen(narrow: NarrowFrame) -> Frame {
        Frame {
            object: u64::from(narrow.object),
            next: u64::from(narrow.next),
            count: u64::from(narrow.count),
        }
    }
}

/// What follows in the innermost collection.
#[derive(Clone, Copy)]
pub enum NextChild {
    /// No collection is open.
    Nothing,
    /// The collection had no more children and was closed. The field is the number of its object.
    End(u64),
    /// A child of the collection is next. Its index is how many children were entered before it.
    Child(Frame),
}

/// The open collections, the innermost one last.
///
/// Frames are stored with numbers of four bytes until one of them needs more. That frame and all
/// frames above it are stored with numbers of eight bytes.
#[derive(Drop)]
pub struct Frames {
    // The collections around the innermost one.
    outer: CompactList<Frame>,
    innermost: Option<Frame>,
}

impl Model for Frames {
    ghost use Rattle.std.specs.Prelude.{◌≡◌, List, [], None};
    ghost use Rattle.plist_binread.specs.declared.frames.Frame.{Frame};
    ghost use Rattle.plist_binread.specs.Remaining.{with_innermost};

    ghost Value = { List Frame };

    ghost view = { λ frames. with_innermost frames.outer frames.innermost };

    ghost invariant = { λ frames. frames.innermost ≡ None → frames.outer ≡ [] };
}

impl Frames {
    /// Creates an empty stack.
    pub fn new(alloc: Global) -> Self
        ensures { result ≡ [] }
    {
        Frames {
            outer: CompactList::new(alloc),
            innermost: None,
        }
    }

    /// Opens the collection with the object number `object` and with `count` children.
    #[inline(always)]
    pub fn push(&mut self, object: u64, count: u64) -> Result<(), AllocError>
        ensures value { OnOk result (self.new ≡ self.old ++ frame_of object 0 count ∷ []) }
        ensures unchanged { OnErr result (self.new ≡ self.old) }
    {
        if let Some(frame) = self.innermost {
            self.outer.push(frame)?;
        }
        self.innermost = Some(Frame {
            object,
            next: 0,
            count,
        });
        Ok(())
    }

    /// Returns the next child of the innermost collection, or closes the collection if no child is
    /// left.
    pub fn next_child(&mut self) -> NextChild
        ensures { NextOf (reverse self.old) result (reverse self.new) }
    {
        match &mut self.innermost {
            None => NextChild::Nothing,
            Some(frame) if frame.next < frame.count => {
                let child = *frame;
                frame.next += 1;
                NextChild::Child(child)
            }
            Some(frame) => {
                let object = frame.object;
                self.innermost = self.outer.pop();
                NextChild::End(object)
            }
        }
    }
}
