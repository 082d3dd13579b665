//! The children of a collection among the buffered events.

ghost use Rattle.std.specs.Prelude.{◌≡◌, ◌<◌, ◌⊎◌, [], true, false, length, ◌^◌, ◌-◌};
ghost use Rattle.plist_base.specs.Events.{shape_of};
ghost use Rattle.plist_buffer.specs.Children.{half_of, indices_left, child_at, last_at};
ghost use Rattle.plist_buffer.specs.declared.children.Half.{Half};
ghost use Rattle.plist_buffer.specs.EventTable.{plain_events, table_event};

use crate::event_table::EventTable;
use plist_base::EventShape;

/// One half of a collection's children. An array has no keys.
#[derive(Clone, Copy)]
pub enum Half {
    /// The keys of a dictionary.
    Keys,
    /// The items of an array, or the values of a dictionary.
    Values,
}

/// The role of a child in its collection.
#[derive(Clone, Copy)]
pub enum Child {
    /// An item of an array.
    Item,
    /// The key of a pair.
    Key,
    /// The value of a pair.
    Value,
}

impl Child {
    // Returns the index of the child, given the index at which its item or pair begins.
    #[inline(always)]
    fn index(self, first: usize) -> usize
        requires { first < 2 ^ 64 - 1 }
        ensures { result ≡ child_at self first }
    {
        match self {
            Child::Item | Child::Key => first,
            Child::Value => first + 1,
        }
    }

    // Returns the index of the item, or of the value of the pair, given the index at which the item
    // or pair begins.
    #[inline(always)]
    fn last(self, first: usize) -> usize
        requires { first < 2 ^ 64 - 1 }
        ensures { result ≡ last_at self first }
    {
        match self {
            Child::Item => first,
            Child::Key | Child::Value => first + 1,
        }
    }
}

/// Returns `true` if a collection begins at an index. A walk over all events calls it before it
/// creates an iterator, because most events have no children.
#[inline(always)]
pub fn begins_collection(events: &EventTable<'_>, index: usize) -> bool
    requires { index < length (plain_events events.now) }
    ensures yes { result ≡ true
        → (shape_of (table_event events.now index) ≡ EventShape.StartArray)
        ⊎ (shape_of (table_event events.now index) ≡ EventShape.StartDictionary) }
    ensures no { result ≡ false
        → (half : Half) → half_of (plain_events events.now) half index ≡ [] }
{
    match events.kind_at(index) {
        EventShape::StartArray | EventShape::StartDictionary => true,
        EventShape::Scalar | EventShape::EndCollection => false,
    }
}

/// An iterator over the indices of one half of a collection's children.
#[derive(Clone, Copy)]
pub struct Children<'p, 'e> {
    events: &'p EventTable<'e>,
    child: Child,
    // The index of the next item or pair.
    next: usize,
}

impl<'p, 'e> Children<'p, 'e> {
    /// Creates an iterator over one half of the children of the collection that begins at an index.
    /// It yields nothing for a scalar, for an end, and for the keys of an array.
    #[inline(always)]
    pub fn new(events: &'p EventTable<'e>, index: usize, half: Half) -> Children<'p, 'e>
        requires { index < length (plain_events events.now) }
        ensures { indices_left result ≡ half_of (plain_events events.now) half index }
    {
        let inside = index + 1;
        let (child, next) = match (events.kind_at(index), half) {
            (EventShape::StartArray, Half::Values) => (Child::Item, inside),
            (EventShape::StartDictionary, Half::Keys) => (Child::Key, inside),
            (EventShape::StartDictionary, Half::Values) => (Child::Value, inside),
            (EventShape::StartArray, Half::Keys)
            | (EventShape::Scalar | EventShape::EndCollection, _) => (Child::Item, events.len()),
        };
        Children {
            events,
            child,
            next,
        }
    }
}

impl<'p, 'e> Iterator for Children<'p, 'e> {
    type Item = usize;

    ghost use Rattle.std.specs.Iterator.{YieldsFirst, item_count};
    ghost use Rattle.plist_buffer.specs.Children.{indices_left};

    ghost next_gives = { YieldsFirst indices_left };

    ghost remaining = { item_count indices_left };

    #[inline(always)]
    fn next(&mut self) -> Option<usize> {
        let first = self.next;
        if !self.events.has_item(first) {
            return None;
        }
        let last = self.child.last(first);
        // For an item the two indices are equal, and a tree begins there.
        if last != first && !self.events.has_item(last) {
            return None;
        }
        self.next = self.events.index_after(last);
        Some(self.child.index(first))
    }
}
