//! The small scalars that wait to be appended to a table.

ghost use Rattle.std.specs.Prelude.{◌≡◌, ◌==◌, ◌<◌, ◌≤◌, ◌++◌, ◌∷◌, [], drop, length};

use plist_base::PackedScalar;
use std::marker::Model;

/// The maximum number of small scalars that wait. They are looked up together.
pub(crate) const BATCH_SIZE: usize = 16;

/// At most [`BATCH_SIZE`] small scalars, which lie in the value itself.
#[derive(Drop)]
pub struct WaitingScalars {
    // The first `count` of these wait.
    scalars: [PackedScalar; BATCH_SIZE],
    count: usize,
}

impl Model for WaitingScalars {
    ghost use Rattle.std.specs.Prelude.{◌≡◌, ◌≤◌, List, length, take};
    ghost use Rattle.std.specs.Coded.{codes};
    ghost use Rattle.plist_base.proofs.ScalarTests.{packable_coded};
    ghost use Rattle.plist_base.specs.declared.packed_scalar.PackedScalar.{PackedScalar};
    ghost use Rattle.plist_buffer.specs.declared.waiting.TheConstants.{BATCH_SIZE};

    ghost Value = { List PackedScalar };

    ghost coded = { Prim.hlevel (codes, packable_coded) };

    ghost view = { λ waiting. take waiting.count waiting.scalars };

    ghost invariant = { λ waiting. (waiting.count ≤ BATCH_SIZE)
        × (length waiting.scalars ≡ BATCH_SIZE) };
}

impl WaitingScalars {
    /// Creates an empty list. It allocates no memory.
    pub fn new() -> WaitingScalars
        ensures { result ≡ [] }
    {
        WaitingScalars {
            scalars: [PackedScalar::of_boolean(false); BATCH_SIZE],
            count: 0,
        }
    }

    /// Returns `true` if no scalar waits.
    #[inline(always)]
    pub fn is_empty(&self) -> bool
        ensures { result ≡ (length self.now == 0) }
    {
        self.count == 0
    }

    /// Returns the number of scalars.
    #[inline(always)]
    pub fn len(&self) -> usize
        ensures count { result ≡ length self.now }
        ensures bound { result ≤ BATCH_SIZE }
    {
        self.count
    }

    /// Returns `true` if [`BATCH_SIZE`] scalars wait.
    #[inline(always)]
    pub fn is_full(&self) -> bool
        ensures value { result ≡ (length self.now == BATCH_SIZE) }
        ensures bound { length self.now ≤ BATCH_SIZE }
    {
        self.count == BATCH_SIZE
    }

    /// Returns the scalars.
    pub fn as_slice(&self) -> &[PackedScalar]
        ensures scalars { result.now ≡ self.now }
        ensures bound { length result.now ≤ BATCH_SIZE }
    {
        &self.scalars[..self.count]
    }

    /// Appends a scalar. There must be room for it.
    #[inline(always)]
    pub fn push(&mut self, scalar: PackedScalar)
        requires { length self.old < BATCH_SIZE }
        ensures { self.new ≡ self.old ++ scalar ∷ [] }
    {
        self.scalars[self.count] = scalar;
        self.count += 1;
    }

    /// Removes the first `count` scalars.
    pub fn remove_first(&mut self, count: usize)
        requires { count ≤ length self.old }
        ensures { self.new ≡ drop count self.old }
    {
        self.scalars.copy_within(count..self.count, 0);
        self.count -= count;
    }

    /// Removes all scalars.
    pub fn clear(&mut self)
        ensures { self.new ≡ [] }
    {
        self.count = 0;
    }
}
