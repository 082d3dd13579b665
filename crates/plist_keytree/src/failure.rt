//! The error of a command.

use plist::Error;
use std::alloc::{AllocError, AllocFailed};
use std::{fmt, io};

/// The error of a command.
#[derive(Drop)]
pub enum Failure {
    /// A file isn't a property list, or an allocation fails.
    Plist(Error),
    /// A file can't be read, or a line can't be printed.
    Io(io::Error),
    /// A keyed archive has no such part.
    NotAnArchive(&'static str),
    /// `$top` doesn't have the given key.
    NoKey(String),
    /// The arguments aren't a command.
    Usage,
}

impl From<Error> for Failure {
    fn from(error: Error) -> Failure {
        match error.into_io() {
            Ok(error) => Failure::Io(error),
            Err(error) => Failure::Plist(error),
        }
    }
}

impl From<io::Error> for Failure {
    fn from(error: io::Error) -> Failure {
        Failure::Io(error)
    }
}

impl From<AllocError> for Failure {
    fn from(error: AllocError) -> Failure {
        Failure::Plist(Error::from(error))
    }
}

impl<T: Drop> From<AllocFailed<T>> for Failure {
    fn from(error: AllocFailed<T>) -> Failure {
        Failure::Plist(Error::from(error))
    }
}

impl fmt::Display for Failure {
    fn fmt<W: fmt::Write>(&self, f: &mut fmt::Formatter<W>) -> fmt::Result {
        match self {
            Failure::Plist(error) => write!(f, "invalid file: {error}"),
            Failure::Io(error) => write!(f, "{error}"),
            Failure::NotAnArchive(part) => write!(f, "not a keyed archive: {part}"),
            Failure::NoKey(key) => write!(f, "$top has no key {key}"),
            Failure::Usage => {
                f.write_str("classes|check FILE, tree FILE [KEY], strings FILE PATTERN")
            }
        }
    }
}
