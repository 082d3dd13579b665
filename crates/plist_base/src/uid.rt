//! Identifiers of objects in a keyed archive.

ghost use Rattle.std.specs.Prelude.{◌≡◌, Some, decimal, ℕ, ◌^◌, ◌<◌};

use std::fmt;
use std::marker::Model;

/// The number by which one value of an archive refers to another.
///
/// It is a type of its own, so that it can't be confused with an [`Integer`](crate::Integer).
#[derive(Clone, Copy, PartialEq, Eq, Hash)]
pub struct Uid {
    number: u64,
}

impl Model for Uid {
    ghost Value = { ℕ };

    ghost view = { λ a. a.number };

    ghost invariant = { λ a. a.number < 2 ^ 64 };

    ghost inverse = { λ n. record { number = n } };
}

impl Uid {
    /// Makes the identifier with the given number.
    pub fn new(number: u64) -> Uid
        ensures { result ≡ number }
    {
        Uid { number }
    }

    /// Returns the identifier's number.
    pub fn get(self) -> u64
        ensures { result ≡ self }
    {
        self.number
    }
}

/// Formats the number in decimal.
impl fmt::Debug for Uid {
    ghost debug_output = { λ uid. Some (decimal uid) };

    fn fmt<W: fmt::Write>(&self, f: &mut fmt::Formatter<W>) -> fmt::Result {
        fmt::Debug::fmt(&self.number, f)
    }
}
