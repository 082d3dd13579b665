//! Lists of values that are stored in a smaller form, until one of them has none.

ghost use Rattle.std.specs.Prelude.{◌≡◌, ◌++◌, ◌∷◌, ◌<◌, ◌-◌, ◌^◌, [], IfSome, IfOk, OnOk, OnErr, None, length, map, replicate, set, slice_index, take, List};

use std::alloc::{AllocError, Global};
use std::marker::Model;

/// A value that has a smaller form if its numbers are small.
pub trait Compact: Copy {
    /// The smaller form.
    type Narrow: Copy;

    /// The value that has the given smaller form.
    ghost widened: { Self.Narrow → Self };

    /// Returns the smaller form, or `None` if the value has none.
    fn narrowed(self) -> Option<Self::Narrow>
        ensures { IfSome result (λ narrow. widened narrow ≡ self) };

    /// Returns the value that has the given smaller form.
    fn widen(narrow: Self::Narrow) -> Self
        ensures { result ≡ widened narrow };
}

/// A number has a smaller form of four bytes if it fits into them.
impl Compact for usize {
    type Narrow = u32;

    ghost widened = { λ narrow. narrow };

    #[inline(always)]
    fn narrowed(self) -> Option<u32> {
        u32::try_from(self).ok()
    }

    #[inline(always)]
    fn widen(narrow: u32) -> usize {
        narrow as usize
    }
}

/// A list. The first values are stored in their smaller form, and all later ones are not.
#[derive(Drop)]
pub struct CompactList<T: Compact> {
    narrow: Vec<T::Narrow>,
    wide: Vec<T>,
}

impl<T: Compact> Model for CompactList<T> {
    ghost Value = { List T };

    ghost view = { λ list. map T.widened list.narrow.items ++ list.wide.items };
}

impl<T: Compact> CompactList<T> {
    /// Creates an empty list. It allocates no memory.
    pub fn new(alloc: Global) -> Self
        ensures { result ≡ [] }
    {
        CompactList {
            narrow: Vec::new(alloc),
            wide: Vec::new(alloc),
        }
    }

    /// Returns the length of the list.
    pub fn len(&self) -> usize
        ensures { result ≡ length self.now }
    {
        self.narrow.len() + self.wide.len()
    }

    /// Appends a value. If an allocation fails, nothing changes.
    ///
    /// Another function makes room if there is none, so that a push is a few instructions.
    #[inline(always)]
    pub fn push(&mut self, value: T) -> Result<(), AllocError>
        ensures pushed { OnOk result (self.new ≡ self.old ++ value ∷ []) }
        ensures unchanged { OnErr result (self.new ≡ self.old) }
        ensures small { length self.new < 2 ^ 64 }
    {
        if self.wide.is_empty() && self.narrow.len() < self.narrow.capacity() {
            if let Some(narrow) = value.narrowed() {
                self.narrow.push_reserved(narrow);
                return Ok(());
            }
        }
        self.grow_and_push(value)
    }

    // Appends a value, and allocates room for it if there is none. If the allocation fails, nothing
    // changes.
    #[cold]
    #[inline(never)]
    fn grow_and_push(&mut self, value: T) -> Result<(), AllocError>
        ensures pushed { OnOk result (self.new ≡ self.old ++ value ∷ []) }
        ensures unchanged { OnErr result (self.new ≡ self.old) }
        ensures small { length self.new < 2 ^ 64 }
    {
        match value.narrowed() {
            Some(narrow) if self.wide.is_empty() => self.narrow.push(narrow)?,
            _ => self.wide.push(value)?,
        }
        Ok(())
    }

    /// Removes the last value and returns it, or returns `None` if the list is empty.
    pub fn pop(&mut self) -> Option<T>
        ensures rest { self.new ≡ take (length self.old - 1) self.old }
        ensures some { IfSome result (λ value. self.old ≡ self.new ++ value ∷ []) }
        ensures none { result ≡ None → self.old ≡ [] }
    {
        if let Some(value) = self.wide.pop() {
            return Some(value);
        }
        let narrow = self.narrow.pop()?;
        Some(T::widen(narrow))
    }

    /// Removes all values. The allocated memory is kept.
    pub fn clear(&mut self)
        ensures { self.new ≡ [] }
    {
        self.narrow.clear();
        self.wide.clear();
    }
}

// Returns the numbers of both lists in one list, in eight bytes each.
#[cold]
#[inline(never)]
fn widened(narrow: &Vec<u32>, wide: &Vec<usize>) -> Result<Vec<usize>, AllocError>
    ensures all { IfOk result (λ r. r.items ≡ narrow.now.items ++ wide.now.items) }
{
    let mut all: Vec<usize> = narrow
        .iter()
        .map(|stored| *stored as usize)
        .collect(*wide.allocator())?;
    all.extend_from_slice(wide.as_slice())?;
    Ok(all)
}

/// A list of numbers. The first ones are stored in four bytes each.
pub type CompactNumbers = CompactList<usize>;

impl CompactList<usize> {
    /// Creates an empty list with capacity for `count` numbers of four bytes, or fails if the
    /// allocation fails.
    pub fn with_capacity(alloc: Global, count: usize) -> Result<CompactNumbers, AllocError>
        ensures { IfOk result (λ r. r ≡ []) }
    {
        let narrow = Vec::with_capacity(alloc, count)?;
        let wide = Vec::new(alloc);
        Ok(CompactList { narrow, wide })
    }

    /// Creates a list of `count` zeros, or fails if the allocation fails.
    pub fn zeros(alloc: Global, count: usize) -> Result<CompactNumbers, AllocError>
        ensures zeros { IfOk result (λ r. r ≡ replicate count 0) }
    {
        let narrow = vec![in alloc; 0u32; count]?;
        let wide = Vec::new(alloc);
        Ok(CompactList { narrow, wide })
    }

    /// Returns the number at an index, which must be less than the length.
    #[inline(always)]
    pub fn get(&self, index: usize) -> usize
        requires { index < length self.now }
        ensures { result ≡ slice_index self.now index }
    {
        let below = self.narrow.len();
        if index < below {
            return self.narrow.as_slice()[index] as usize;
        }
        self.wide.as_slice()[index - below]
    }

    /// Returns the last number, or `None` if the list is empty.
    pub fn last(&self) -> Option<usize>
        ensures some { IfSome result
            (λ number. self.now ≡ take (length self.now - 1) self.now ++ number ∷ []) }
        ensures none { result ≡ None → self.now ≡ [] }
    {
        let last = self.len().checked_sub(1)?;
        Some(self.get(last))
    }

    /// Replaces the number at an index, which must be less than the length. If an allocation fails,
    /// nothing changes.
    #[inline(always)]
    pub fn set(&mut self, index: usize, number: usize) -> Result<(), AllocError>
        requires { index < length self.old }
        ensures set { OnOk result (self.new ≡ set self.old index number) }
        ensures unchanged { OnErr result (self.new ≡ self.old) }
    {
        let below = self.narrow.len();
        if index >= below {
            self.wide[index - below] = number;
            return Ok(());
        }
        if let Some(stored) = number.narrowed() {
            self.narrow[index] = stored;
            return Ok(());
        }
        let mut wide = widened(&self.narrow, &self.wide)?;
        wide[index] = number;
        self.narrow.clear();
        self.wide = wide;
        Ok(())
    }
}
