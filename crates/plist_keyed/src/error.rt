//! The errors of an archive.

ghost use Rattle.std.specs.Prelude.{◌≡◌, Some};
ghost use Rattle.plist_keyed.specs.Archives.{text_of_error};
ghost use Rattle.plist_keyed.specs.declared.error.KeyedError.TheVariants.{OutOfMemory as NoMemory};

use std::alloc::{AllocError, AllocFailed};
use std::fmt;

/// The error of opening an archive or of making a tree of it.
#[derive(Clone, Copy, Debug, PartialEq, Eq)]
pub enum KeyedError {
    /// The property list isn't a dictionary with an array under `$objects` and a dictionary under
    /// `$top`.
    NotAnArchive,
    /// The archive has no object of the given number.
    UidOutOfRange(u64),
    /// The tree of the given Uid would contain itself.
    RecursiveUid(u64),
    /// An allocation failed.
    OutOfMemory,
}

impl From<AllocError> for KeyedError {
    ghost from_gives = { λ _ e. e ≡ NoMemory };

    fn from(_error: AllocError) -> KeyedError {
        KeyedError::OutOfMemory
    }
}

impl<T: Drop> From<AllocFailed<T>> for KeyedError {
    ghost from_gives = { λ _ e. e ≡ NoMemory };

    fn from(_failed: AllocFailed<T>) -> KeyedError {
        KeyedError::OutOfMemory
    }
}

/// Writes the variant's name, and its number in parentheses if it has one.
impl fmt::Display for KeyedError {
    ghost output = { λ error. Some (text_of_error error) };

    fn fmt<W: fmt::Write>(&self, f: &mut fmt::Formatter<W>) -> fmt::Result {
        match self {
            KeyedError::NotAnArchive => f.write_str("NotAnArchive"),
            KeyedError::UidOutOfRange(uid) => write!(f, "UidOutOfRange({uid})"),
            KeyedError::RecursiveUid(uid) => write!(f, "RecursiveUid({uid})"),
            KeyedError::OutOfMemory => f.write_str("OutOfMemory"),
        }
    }
}

impl std::error::Error for KeyedError {}
