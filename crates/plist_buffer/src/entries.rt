//! The entries of buffered events. Each entry has a kind, which takes one byte, and a number, which
//! takes four bytes as long as the numbers fit.

ghost use Rattle.std.specs.Prelude.{List, ◌≡◌, ◌-◌, ◌^◌, ◌<◌, ◌≤◌, ◌++◌, ◌∷◌, [], length, map, true, OnOk, OnErr};
ghost use Rattle.plist_buffer.specs.declared.entries.EventEntry.{EventEntry};
ghost use Rattle.plist_buffer.specs.inner.Columns.{AreColumns, ends_before, ends_in, entries_from, kind_in, number_in, number_named, one_if_end, entry_of};
ghost use Rattle.plist_buffer.specs.inner.Entries.{index_after_at, ended_at, entry_at, is_start};

use plist_base::CompactNumbers;
use std::alloc::{AllocError, Global};
use std::marker::Model;

/// The number of a scalar: its index among the different small ones, or among the long ones.
#[derive(Clone, Copy)]
pub enum ScalarNumber {
    /// The index of a small scalar.
    Small(usize),
    /// The index of a long scalar.
    Long(usize),
}

/// A buffered event. A start stores the index after its end, or the index after itself while the
/// collection is open. A scalar stores its number.
#[derive(Clone, Copy)]
pub enum EventEntry {
    /// The start of an array.
    Array(usize),
    /// The start of a dictionary.
    Dictionary(usize),
    /// A scalar.
    Scalar(ScalarNumber),
    /// The end of a collection.
    End,
}

/// The kind of an entry.
#[derive(Clone, Copy)]
pub enum EntryKind {
    /// The start of an array.
    Array,
    /// The start of a dictionary.
    Dictionary,
    /// The end of a collection.
    End,
    /// A small scalar.
    Small,
    /// A long scalar.
    Long,
}

// Returns the kind of an entry, and its number, which for an end is the number of ends before it.
#[inline(always)]
fn columns_of(entry: EventEntry, ends: usize) -> (EntryKind, usize)
    ensures kind { result.0 ≡ kind_in entry }
    ensures number { result.1 ≡ number_in ends entry }
{
    match entry {
        EventEntry::Array(following) => (EntryKind::Array, following),
        EventEntry::Dictionary(following) => (EntryKind::Dictionary, following),
        EventEntry::Scalar(ScalarNumber::Small(index)) => (EntryKind::Small, index),
        EventEntry::Scalar(ScalarNumber::Long(index)) => (EntryKind::Long, index),
        EventEntry::End => (EntryKind::End, ends),
    }
}

// Returns 1 for an end, and 0 for any other kind.
#[inline(always)]
fn one_if_end(kind: EntryKind) -> usize
    ensures value { result ≡ one_if_end kind }
    ensures small { result ≤ 1 }
{
    match kind {
        EntryKind::End => 1,
        EntryKind::Array | EntryKind::Dictionary | EntryKind::Small | EntryKind::Long => 0,
    }
}

/// A list of entries, stored as a list of kinds and a list of numbers. The number of an end is the
/// number of ends before it.
#[derive(Drop)]
pub struct Entries {
    kinds: Vec<EntryKind>,
    numbers: CompactNumbers,
    // The number of ends.
    ends: usize,
}

impl Model for Entries {
    ghost Value = { List EventEntry };

    ghost view = { λ entries. entries_from entries.kinds.items entries.numbers };

    ghost invariant = { λ entries. AreColumns entries.kinds.items entries.numbers entries.ends };
}

impl Entries {
    /// Creates an empty list. It allocates no memory.
    pub fn new(alloc: Global) -> Entries
        ensures { result ≡ [] }
    {
        Entries {
            kinds: Vec::new(alloc),
            numbers: CompactNumbers::new(alloc),
            ends: 0,
        }
    }

    /// Returns the number of entries.
    pub fn len(&self) -> usize
        ensures { result ≡ length self.now }
    {
        self.kinds.len()
    }

    /// Returns the kind of the entry at an index, without reading its number.
    #[inline(always)]
    pub fn kind_at(&self, index: usize) -> EntryKind
        requires { index < length self.now }
        ensures { result ≡ kind_in (entry_at self.now index) }
    {
        self.kinds.as_slice()[index]
    }

    // Returns the number of the entry at an index. For an end it is unspecified.
    fn number_at(&self, index: usize) -> usize
        requires { index < length self.now }
        ensures { entry_of (kind_in (entry_at self.now index)) result ≡ entry_at self.now index }
    {
        self.numbers.get(index)
    }

    /// Returns the index after the tree that begins at an index: the stored index for a start, and
    /// the next index for any other entry.
    pub fn following(&self, index: usize) -> usize
        requires within { index < length self.now }
        requires small { index < 2 ^ 64 - 1 }
        ensures { result ≡ index_after_at self.now index }
    {
        match self.kind_at(index) {
            EntryKind::Array | EntryKind::Dictionary => self.number_at(index),
            EntryKind::Small | EntryKind::Long | EntryKind::End => index + 1,
        }
    }

    /// If the entry at an index is a scalar, returns its number, and otherwise `None`.
    #[inline(always)]
    pub fn scalar(&self, index: usize) -> Option<ScalarNumber>
        requires { index < length self.now }
        ensures { result ≡ number_named (entry_at self.now index) }
    {
        match self.kind_at(index) {
            EntryKind::Small => Some(ScalarNumber::Small(self.number_at(index))),
            EntryKind::Long => Some(ScalarNumber::Long(self.number_at(index))),
            EntryKind::Array | EntryKind::Dictionary | EntryKind::End => None,
        }
    }

    /// Returns the number of ends.
    pub fn count_ends(&self) -> usize
        ensures { result ≡ ends_in (map kind_in self.now) }
    {
        self.ends
    }

    /// Returns the number of ends before the end of the collection whose start is at an index. The
    /// collection must be closed.
    pub fn collection_number(&self, index: usize) -> usize
        requires within { index < length self.now }
        requires start { is_start (entry_at self.now index) ≡ true }
        requires after { (1 ≤ index_after_at self.now index)
            × (index_after_at self.now index ≤ length self.now) }
        requires end { entry_at self.now (index_after_at self.now index - 1) ≡ EventEntry.End }
        ensures { result ≡ ends_before self.now (index_after_at self.now index - 1) }
    {
        let after = self.numbers.get(index);
        self.numbers.get(after - 1)
    }

    /// Appends an entry. If an allocation fails, nothing changes.
    #[inline(always)]
    pub fn push(&mut self, entry: EventEntry) -> Result<(), AllocError>
        ensures pushed { OnOk result (self.new ≡ self.old ++ entry ∷ []) }
        ensures unchanged { OnErr result (self.new ≡ self.old) }
        ensures small { OnOk result (length self.new < 2 ^ 63) }
    {
        let (kind, number) = columns_of(entry, self.ends);
        self.kinds.reserve(1)?;
        self.numbers.push(number)?;
        self.kinds.push_reserved(kind);
        self.ends += one_if_end(kind);
        Ok(())
    }

    /// Appends an end, and stores the index after it in the start at index `start`. If an
    /// allocation fails, nothing changes.
    pub fn close(&mut self, start: usize) -> Result<(), AllocError>
        requires within { start < length self.old }
        requires starts { is_start (entry_at self.old start) ≡ true }
        ensures closed { OnOk result (self.new ≡ ended_at self.old start) }
        ensures unchanged { OnErr result (self.new ≡ self.old) }
        ensures small { OnOk result (length self.new < 2 ^ 63) }
    {
        self.kinds.reserve(1)?;
        self.numbers.push(self.ends)?;
        if let Err(error) = self.numbers.set(start, self.kinds.len() + 1) {
            self.numbers.pop();
            return Err(error);
        }
        self.kinds.push_reserved(EntryKind::End);
        self.ends += 1;
        Ok(())
    }

    /// Removes all entries. The allocated memory is kept.
    pub fn clear(&mut self)
        ensures { self.new ≡ [] }
    {
        self.kinds.clear();
        self.numbers.clear();
        self.ends = 0;
    }
}
