//! Prints an error with the reason that the system reported.

ghost use Rattle.std.specs.Prelude.{◌≡◌};
ghost use Rattle.plist_base.specs.Faults.{error_of_reason, reason_text};

use crate::{Error, ErrorKind};
use std::fmt;

/// An error with a `Display` that also prints the system's reason. [`Error::reason`] returns one.
#[derive(Drop)]
pub struct Reason<'a> {
    error: &'a Error,
}

impl Error {
    /// Returns a value that prints the error's kind and offset and, for an I/O error, the system's
    /// reason after a colon. The error's own `Display` omits the reason.
    ///
    /// ```text
    /// Io (offset 4096): Input/output error (os error 5)
    /// UnknownObjectType(136) (offset 8)
    /// ```
    ///
    /// # Examples
    ///
    /// ```rust
    /// let _ = eprintln!(rt; "plist_surface: {}", error.reason());
    /// ```
    pub fn reason(&self) -> Reason<'_>
        ensures value { error_of_reason result ≡ self.now }
    {
        Reason { error: self }
    }
}

/// Formats the error and, if it is an I/O error, the system's error after `: `.
impl<'a> fmt::Display for Reason<'a> {
    ghost output = { reason_text };

    fn fmt<W: fmt::Write>(&self, f: &mut fmt::Formatter<W>) -> fmt::Result {
        let error = self.error;
        match error.kind() {
            ErrorKind::Io(failure) => write!(f, "{error}: {failure}"),
            _ => write!(f, "{error}"),
        }
    }
}
