//! Counts the small objects that were decoded. The count takes no memory at run time.

ghost use Rattle.std.specs.Prelude.{◌≡◌, ℕ, ◌+◌, ◌<◌};

use std::marker::Model;
use std::sync::ledger::{Blank, Book, Ledger, Share};

/// Counts the small objects that are decoded from bytes, or counts nothing. Small objects are the
/// scalars that `BinaryReader` of `plist_binread` caches.
pub trait DecodeCounter: Drop {
    /// `true` if the counter counts anything.
    ghost counts: { Type 0 };
    /// The number of small objects that were decoded.
    ghost count: { Self → ℕ };

    /// Counts one more object.
    fn raise(&mut self)
        ensures { counts → count self.new ≡ count self.old + 1 };
}

/// Counts nothing.
#[derive(Drop)]
pub struct Uncounted;

impl DecodeCounter for Uncounted {
    ghost counts = { ⊥ };

    ghost count = { λ _. 0 };

    fn raise(&mut self) {}
}

/// A counter that only `raise` can change. Its count is the count of a ledger of the kit
/// (`std::sync::ledger`).
#[derive(Drop)]
pub struct CountedDecodings<L: Ledger> {
    book: Book<L>,
    share: Share<L>,
}

impl<L: Ledger> Model for CountedDecodings<L> {
    ghost Value = { ℕ };

    ghost view = { λ s. s.book.total };

    ghost invariant = { λ s. 0 < s.share.parts };
}

impl<L: Ledger> CountedDecodings<L> {
    /// Creates a counter with the count 0. `blank` must have the name and the number of parts of
    /// `L`, of which there must be at least one.
    pub fn new(blank: Blank) -> Self
        requires name { blank.name ≡ L.name }
        requires parts { blank.parts ≡ L.parts }
        requires some { 0 < L.parts }
        ensures { result ≡ 0 }
    {
        let (book, share) = blank.open();
        CountedDecodings { book, share }
    }
}

impl<L: Ledger> DecodeCounter for CountedDecodings<L> {
    ghost counts = { Unit {0} };

    ghost count = { λ s. s };

    fn raise(&mut self) {
        self.book.add(&mut self.share, 1);
    }
}
