//! Classes of the trees among events: two events have the same class if and only if the same tree
//! begins at both.

ghost use Rattle.std.specs.Prelude.{◌≡◌, ◌↔◌, ◌+◌, ◌-◌, ◌<◌, ◌≤◌, ◌++◌, Some, length, map, slice_get, IfOk, IsTrue, OnOk};
ghost use Rattle.plist_base.specs.Events.{shape_of};
ghost use Rattle.plist_buffer.specs.Children.{half_of};
ghost use Rattle.plist_buffer.specs.EventTable.{IsBracketed, plain_events, table_event};
ghost use Rattle.plist_buffer.specs.declared.children.Half.TheVariants.{Keys, Values};
ghost use Rattle.plist_buffer.specs.inner.Entries.{AreDistinct};
ghost use Rattle.plist_binwrite.specs.Classes.{HasEachCollection, listed_class};
ghost use Rattle.plist_share.specs.inner.Nodes.{SeparatesAll, Extends, node_of, AreClassesFrom, IsClassAt};

use indexmap::IndexSet;
use plist_base::{CompactNumbers, EventShape};
use plist_binwrite::EventTable;
use plist_binwrite::classes::ClassList;
use plist_buffer::children::{Children, Half};
use std::alloc::{AllocError, Global};

/// A collection, described by its kind and the classes of its children.
#[derive(PartialEq, Eq, Hash, Drop)]
pub struct Collection {
    /// Whether it is a dictionary; if not, it is an array.
    pub is_dictionary: bool,
    /// The classes of its children. The keys of a dictionary precede its values.
    pub children: Vec<usize>,
}

// Returns the index of a collection in the set, and inserts it if the set contains no equal one.
fn index_of(
    collections: &mut IndexSet<Collection>,
    collection: Collection,
) -> Result<usize, AllocError>
    // Result.
    ensures stored { IfOk result (λ index. slice_get (map node_of collections.new.keys) index
        ≡ Some (node_of collection)) }
    ensures below { IfOk result (λ index. index < length (map node_of collections.new.keys)) }
    // State afterwards.
    ensures extends { IfOk result (λ index.
        Extends (map node_of collections.old.keys) index (map node_of collections.new.keys)) }
    ensures apart { OnOk result (AreDistinct (map node_of collections.new.keys)) }
{
    match collections.insert_full(collection) {
        Ok((index, _)) => return Ok(index),
        Err(_) => return Err(AllocError),
    }
}

// Appends the classes of one half of the children of the collection that begins at an index.
fn push_half(
    found: &mut Vec<usize>,
    events: &EventTable<'_>,
    classes: &ClassList,
    index: usize,
    half: Half,
) -> Result<(), AllocError>
    requires whole { IsBracketed (plain_events events.now) }
    requires index { index < length (plain_events events.now) }
    requires long { HasEachCollection classes.now events.now }
    ensures { OnOk result (found.new.items ≡ found.old.items
        ++ map (listed_class classes.now events.now)
        (half_of (plain_events events.now) half index)) }
{
    for child in Children::new(events, index, half) {
        found.push(classes.class_at(events, child))?;
    }
    Ok(())
}

// Returns whether a dictionary begins at an index.
fn begins_dictionary(events: &EventTable<'_>, index: usize) -> bool
    requires { index < length (plain_events events.now) }
    ensures { IsTrue result
        ↔ (shape_of (table_event events.now index) ≡ EventShape.StartDictionary) }
{
    matches!(events.kind_at(index), EventShape::StartDictionary)
}

// Returns the class of the collection that begins at an index. It is at least `found.bound`, which
// is above the classes of all scalars.
fn class_of_collection(
    alloc: Global,
    events: &EventTable<'_>,
    found: &ClassList,
    index: usize,
    collections: &mut IndexSet<Collection>,
) -> Result<usize, AllocError>
    requires whole { IsBracketed (plain_events events.now) }
    requires index { index < length (plain_events events.now) }
    requires long { HasEachCollection found.now events.now }
    // Result.
    ensures class { IfOk result (IsClassAt events.now found.now
        (map node_of collections.new.keys) index) }
    ensures above { IfOk result (λ class. found.now.bound ≤ class) }
    // State afterwards.
    ensures extends { IfOk result (λ class. Extends (map node_of collections.old.keys)
        (class - found.now.bound) (map node_of collections.new.keys)) }
    ensures apart { OnOk result (AreDistinct (map node_of collections.new.keys)) }
{
    let mut children = Vec::new(alloc);
    push_half(&mut children, events, found, index, Half::Keys)?;
    push_half(&mut children, events, found, index, Half::Values)?;
    let collection = Collection {
        is_dictionary: begins_dictionary(events, index),
        children,
    };
    let node = index_of(collections, collection)?;
    let class = found.bound.checked_add(node).ok_or(AllocError)?;
    Ok(class)
}

// Sets the class of the tree that begins at an index, if it is a collection. The class of a scalar
// isn't listed.
fn assign_class(
    alloc: Global,
    events: &EventTable<'_>,
    index: usize,
    found: &mut ClassList,
    collections: &mut IndexSet<Collection>,
) -> Result<(), AllocError>
    requires whole { IsBracketed (plain_events events.now) }
    requires index { index < length (plain_events events.now) }
    requires long { HasEachCollection found.old events.now }
    requires classes { AreClassesFrom events.now found.old (map node_of collections.old.keys)
        (index + 1) }
    requires apart { AreDistinct (map node_of collections.old.keys) }
    ensures classes { OnOk result (AreClassesFrom events.now found.new
        (map node_of collections.new.keys) index) }
    ensures long { OnOk result (HasEachCollection found.new events.now) }
    ensures bound { OnOk result (found.new.bound ≡ found.old.bound) }
    ensures apart { OnOk result (AreDistinct (map node_of collections.new.keys)) }
{
    match events.kind_at(index) {
        EventShape::Scalar | EventShape::EndCollection => Ok(()),
        EventShape::StartArray | EventShape::StartDictionary => {
            let class = class_of_collection(alloc, events, found, index, collections)?;
            found
                .by_collection
                .set(events.collection_number(index), class)?;
            Ok(())
        }
    }
}

/// Returns the class of every collection among the events of a tree. Two events at which trees
/// begin have the same class if and only if the trees are equal. It fails if an allocation fails.
pub fn tree_classes(alloc: Global, events: &EventTable<'_>) -> Result<ClassList, AllocError>
    requires { IsBracketed (plain_events events.now) }
    ensures { IfOk result (SeparatesAll events.now) }
{
    // The class of a scalar is less than the number of different scalars.
    let mut found = ClassList {
        by_collection: CompactNumbers::zeros(alloc, events.count_collections())?,
        bound: events.count_scalars(),
    };
    let mut collections = IndexSet::new(alloc);
    // The walk goes backwards, so that the classes of a collection's children are known before its
    // own class is determined.
    let mut index = events.len();
    'back: while index > 0 {
        index -= 1;
        assign_class(alloc, events, index, &mut found, &mut collections)?;
    }
    found.bound = found
        .bound
        .checked_add(collections.len())
        .ok_or(AllocError)?;
    Ok(found)
}
