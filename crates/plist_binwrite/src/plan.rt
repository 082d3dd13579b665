//! Plans a file: a walk over the events numbers the objects, and adds up their sizes. The plan is
//! complete before the first byte of the file is written.

ghost use Rattle.std.specs.Prelude.{◌≡◌, ◌+◌, ◌*◌, ◌<◌, ◌≤◌, ◌^◌, ◌⊎◌, ◌∷◌, [], ℕ, length, IfOk, IfSome, OnOk};
ghost use Rattle.plist_base.specs.Bracketing.{AreTreeEvents};
ghost use Rattle.plist_base.specs.Events.{ScalarEvent};
ghost use Rattle.plist_base.specs.Faults.{OutOfMemory, PlistTooLarge, fault_without_offset};
ghost use Rattle.plist_base.specs.Outcomes.{IfFault, IsSizeOrNone};
ghost use Rattle.plist_base.specs.Trees.{Scalar, Tree};
ghost use Rattle.plist_base.specs.declared.marker.CountedKind.{CountedKind};
ghost use Rattle.plist_binwrite.specs.Classes.{size_by, IsClassed, bound_in, class_in, events_in};
ghost use Rattle.plist_binwrite.specs.Forms.{IsWritableScalar, length_form, reference_width};
ghost use Rattle.plist_binwrite.specs.SendingAs.{IsOfTree};
ghost use Rattle.plist_binwrite.specs.Sizes.{object_size, size_with};
ghost use Rattle.plist_binwrite.specs.inner.Layout.{IsFilePlan};
ghost use Rattle.plist_binwrite.specs.inner.Numbering.{IsNumberedSoFar, IsNumberingOfEvents, Numbers, object_number, IsCapped};
ghost use Rattle.plist_buffer.specs.Children.{half_of};
ghost use Rattle.plist_buffer.specs.EventTable.{HasItem, IsBracketed, plain_events, table_event};
ghost use Rattle.plist_buffer.specs.Occurrences.{OccursAt};
ghost use Rattle.plist_buffer.specs.declared.children.Half.TheVariants.{Values};

use crate::classes::Classed;
use crate::forms::{length_of_count, length_of_scalar};
use crate::widths::{offset_width, reference_width};
use plist_base::{CompactNumbers, Error, ErrorKind, EventShape};
use plist_buffer::children::{Children, Half, begins_collection};
use plist_buffer::event_table::EventTable;
use std::alloc::{AllocError, Global};

/// The plan of a file.
#[derive(Drop)]
pub struct FilePlan<'p, 'e> {
    /// The events with their classes.
    pub given: Classed<'p, 'e>,
    /// The numbers of all objects.
    pub numbering: Numbering,
    /// The number of bytes in a reference.
    pub width: usize,
}

/// The number of every class's object, and the size of the objects.
#[derive(Drop)]
pub struct Numbering {
    /// One more than the number of every class's object, indexed by the class, or 0 if the object
    /// has no number yet.
    pub by_class: CompactNumbers,
    /// The number of objects that have numbers. Their numbers are those below `count`.
    pub count: usize,
    /// The size of the objects together, or 2^64 - 1 if it is greater.
    pub size: u64,
}

/// Returns the number of items or pairs in the collection that begins at an index.
pub fn count_children(events: &EventTable<'_>, index: usize) -> usize
    requires { index < length (plain_events events.now) }
    ensures { result ≡ length (half_of (plain_events events.now) Values index) }
{
    Children::new(events, index, Half::Values).count()
}

// Returns the size of a collection's object, or 2^64 - 1 if it is greater, given the number of its
// items or pairs, the number of its references and their width.
fn size_of_collection(count: u64, references: u64, width: usize) -> u64
    ensures { (kind : CountedKind) → IsCapped result
        (length (length_form kind count) + references * width) }
{
    references
        .saturating_mul(width as u64)
        .saturating_add(length_of_count(count))
}

// Returns the size of the object of the event at an index, or 2^64 - 1 if it is greater. The event
// must not be an end. A reference has `width` bytes.
fn size_of_object(events: &EventTable<'_>, index: usize, width: usize) -> u64
    requires { HasItem (plain_events events.now) index }
    ensures size { (t : Tree) → OccursAt (plain_events events.now) t index
        → IsCapped result (object_size width t) }
    ensures writable { (x : Scalar) → table_event events.now index ≡ ScalarEvent x
        → IsWritableScalar x }
{
    match events.kind_at(index) {
        EventShape::StartArray => {
            let count = count_children(events, index) as u64;
            size_of_collection(count, count, width)
        }
        EventShape::StartDictionary => {
            let count = count_children(events, index) as u64;
            size_of_collection(count, 2 * count, width)
        }
        EventShape::Scalar | EventShape::EndCollection => match events.scalar_at(index) {
            Some(scalar) => length_of_scalar(scalar),
            None => 0,
        },
    }
}

/// Returns the number of the object of the event at an index. All objects must have numbers.
#[inline(always)]
pub fn object_number(given: &Classed<'_, '_>, numbering: &Numbering, index: usize) -> usize
    requires numbered { IsNumberingOfEvents given.now numbering.now }
    requires item { HasItem (events_in given.now) index }
    ensures { result ≡ object_number given.now numbering.now index }
{
    numbering.by_class.get(given.class_at(index)) - 1
}

impl Numbering {
    // Assigns the next number to the object of the event at an index, unless it has one already. A
    // reference has `width` bytes.
    #[inline(always)]
    fn number_one(
        &mut self,
        given: &Classed<'_, '_>,
        width: usize,
        index: usize,
    ) -> Result<(), AllocError>
        requires so_far { IsNumberedSoFar given.now self.old }
        requires width { width ≡ reference_width (bound_in given.now) }
        requires item { HasItem (events_in given.now) index }
        ensures numbers { OnOk result (Numbers given.now (index ∷ []) self.old self.new) }
        ensures first { OnOk result (self.old.count ≡ 0
            → object_number given.now self.new index ≡ 0) }
    {
        let class = given.class_at(index);
        if self.by_class.get(class) != 0 {
            return Ok(());
        }
        // This can't overflow, since each number belongs to a class. The test replaces a proof of
        // that.
        let Some(count) = self.count.checked_add(1) else {
            return Err(AllocError);
        };
        self.by_class.set(class, count)?;
        self.count = count;
        self.size = self
            .size
            .saturating_add(size_of_object(given.events, index, width));
        Ok(())
    }

    // Numbers the objects of one half of the children of the collection that begins at an index.
    #[inline(always)]
    fn number_half(
        &mut self,
        given: &Classed<'_, '_>,
        width: usize,
        index: usize,
        half: Half,
    ) -> Result<(), AllocError>
        requires so_far { IsNumberedSoFar given.now self.old }
        requires width { width ≡ reference_width (bound_in given.now) }
        requires index { index < length (events_in given.now) }
        ensures { OnOk result (Numbers given.now (half_of (events_in given.now) half index) self.old
            self.new) }
    {
        for child in Children::new(given.events, index, half) {
            self.number_one(given, width, child)?;
        }
        Ok(())
    }
}

// Numbers the objects of a tree's events, one for each class, or fails if an allocation fails. The
// root has number 0. Then, for each collection in the order of the events, its keys are numbered,
// followed by its items or values. A reference has `width` bytes.
fn number_objects(
    alloc: Global,
    given: &Classed<'_, '_>,
    width: usize,
) -> Result<Numbering, AllocError>
    requires whole { IsBracketed (events_in given.now) }
    requires classed { IsClassed given.now }
    requires width { width ≡ reference_width (bound_in given.now) }
    ensures { IfOk result (IsNumberingOfEvents given.now) }
{
    let by_class = CompactNumbers::zeros(alloc, given.bound())?;
    let mut numbering = Numbering {
        by_class,
        count: 0,
        size: 0,
    };
    numbering.number_one(given, width, 0)?;
    for index in 0..given.events.len() {
        if begins_collection(given.events, index) {
            numbering.number_half(given, width, index, Half::Keys)?;
            numbering.number_half(given, width, index, Half::Values)?;
        }
    }
    Ok(numbering)
}

// Returns the size of a file with `count` objects, which have `objects` bytes together, or `None`
// if it is 2^64 or more.
fn size_of_file(objects: u64, count: u64) -> Option<u64>
    ensures size { (size : ℕ) → IsCapped objects size → IsSizeOrNone result (size_with count size) }
    ensures fits { IfSome result (λ size. size < 2 ^ 64) }
{
    let table = objects.checked_add(8)?;
    let offsets = count.checked_mul(offset_width(table) as u64)?;
    table.checked_add(offsets)?.checked_add(32)
}

/// Plans the file of a tree's events, which has one object for every class.
///
/// # Errors
///
/// `PlistTooLarge` if the file would have 2^64 bytes or more, and `OutOfMemory` if an allocation
/// fails. Neither has an offset.
pub fn plan_file<'p, 'e>(alloc: Global, given: Classed<'p, 'e>) -> Result<FilePlan<'p, 'e>, Error>
    requires whole { AreTreeEvents (events_in given) }
    requires classed { IsClassed given }
    ensures plan { IfOk result (λ plan. IsFilePlan plan × (plan.given ≡ given.entry)) }
    ensures refused { IfFault result (λ fault. (fault ≡ fault_without_offset OutOfMemory)
        ⊎ ((fault ≡ fault_without_offset PlistTooLarge)
        × IsOfTree (events_in given.entry)
        (λ tree. 2 ^ 64 ≤ size_by (class_in given.entry) tree))) }
{
    // There is one object for each class, so the bound of the classes is the number of objects.
    let width = reference_width(given.bound() as u64);
    let numbering = number_objects(alloc, &given, width)?;
    match size_of_file(numbering.size, numbering.count as u64) {
        Some(_) => Ok(FilePlan {
            given,
            numbering,
            width,
        }),
        None => Err(ErrorKind::PlistTooLarge.without_position()),
    }
}
