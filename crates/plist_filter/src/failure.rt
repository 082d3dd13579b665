//! The error of a command.

use plist::Error;
use std::alloc::{AllocError, AllocFailed, Global};
use std::{fmt, io};

/// The error of a command.
#[derive(Drop)]
pub enum Failure {
    /// The file isn't a property list, reading or writing it fails, or an allocation fails.
    Plist(Error),
    /// The file with the given path can't be opened, created or flushed.
    Io(String, io::Error),
    /// There are more levels than the given limit.
    TooDeep(usize),
    /// There are more events than the given limit.
    TooLong(u64),
    /// Everything was dropped.
    NothingLeft,
    /// The word isn't an option.
    Usage(String),
}

impl From<Error> for Failure {
    fn from(error: Error) -> Failure {
        Failure::Plist(error)
    }
}

impl From<AllocError> for Failure {
    fn from(error: AllocError) -> Failure {
        Failure::Plist(Error::from(error))
    }
}

impl<T: Drop> From<AllocFailed<T>> for Failure {
    fn from(error: AllocFailed<T>) -> Failure {
        Failure::Plist(Error::from(error))
    }
}

impl fmt::Display for Failure {
    fn fmt<W: fmt::Write>(&self, f: &mut fmt::Formatter<W>) -> fmt::Result {
        match self {
            Failure::Plist(error) if error.is_io() => write!(f, "I/O: {error}"),
            Failure::Plist(error) => write!(f, "invalid: {error}"),
            Failure::Io(path, error) => write!(f, "{path}: {error}"),
            Failure::TooDeep(depth) => write!(f, "deeper than {depth}"),
            Failure::TooLong(items) => write!(f, "more than {items} items"),
            Failure::NothingLeft => f.write_str("everything was dropped"),
            Failure::Usage(word) => write!(f, "what is {word:?}?"),
        }
    }
}

/// Adds a path to the error of a call.
///
/// # Errors
///
/// The error of the call, or `OutOfMemory` if an allocation fails.
pub fn at<T: Drop>(alloc: Global, path: &str, outcome: io::Result<T>) -> Result<T, Failure> {
    match outcome {
        Ok(value) => Ok(value),
        Err(error) => Err(Failure::Io(path.to_string(alloc)?, error)),
    }
}
