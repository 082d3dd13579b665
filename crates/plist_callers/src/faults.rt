//! Proved callers of errors: their kinds, their offsets, and the I/O errors in them.

ghost use Rattle.std.specs.Prelude.{◌≡◌, IfOk, MatchResult, None, Ok, Some, false, string_bytes, true};
ghost use Rattle.std.specs.IoError.{error_kind};
ghost use Rattle.plist_base.specs.Faults.{InvalidMagic, fault_at, fault_of, fault_text};

use plist_base::{Error, ErrorKind};
use std::alloc::{AllocError, Global};
use std::io;

/// Makes the error of an input that ends too early, and returns the results of its `is_eof`,
/// `is_io` and `offset`.
pub fn early_end(place: u64) -> (bool, bool, Option<u64>)
    ensures { result ≡ (true, false, Some place) }
{
    let fault = ErrorKind::UnexpectedEof.with_byte_offset(place);
    (fault.is_eof(), fault.is_io(), fault.offset())
}

/// Makes the error of events that end too early, which has no offset, and returns the results of
/// its `is_eof`, `is_io` and `offset`.
pub fn end_of_events() -> (bool, bool, Option<u64>)
    ensures { result ≡ (false, false, None) }
{
    let fault = ErrorKind::UnexpectedEndOfEventStream.without_position();
    (fault.is_eof(), fault.is_io(), fault.offset())
}

/// Returns the kind of the I/O error in an error.
pub fn failure_kind(failure: io::Error) -> Option<io::ErrorKind>
    ensures { result ≡ Some (error_kind failure) }
{
    let fault = ErrorKind::Io(failure).without_position();
    match fault.as_io() {
        Some(failure) => Some(failure.kind()),
        None => None,
    }
}

/// Converts an I/O error to an error and back.
pub fn failure_again(failure: io::Error, place: u64) -> Result<io::Error, Error>
    ensures { result ≡ Ok failure }
{
    ErrorKind::Io(failure).with_byte_offset(place).into_io()
}

/// Converts an I/O error to an error as `?` does, and back.
pub fn failure_passed_on(failure: io::Error) -> Result<io::Error, Error>
    ensures { result ≡ Ok failure }
{
    Error::from(failure).into_io()
}

/// Prints an error that isn't an I/O error by its `reason`, which then is the error's own text.
///
/// # Errors
///
/// `AllocError` if an allocation fails.
pub fn text_with_reason(alloc: Global, place: u64) -> Result<String, AllocError>
    ensures { IfOk result (λ text. string_bytes text ≡ fault_text (fault_at InvalidMagic place)) }
{
    let error = ErrorKind::InvalidMagic.with_byte_offset(place);
    error.reason().to_string(alloc)
}

/// Converts an error that isn't an I/O error by `into_io`, which returns it unchanged.
pub fn fault_again(place: u64) -> Result<io::Error, Error>
    ensures { MatchResult result (λ _. ⊥) (λ fault. fault_of fault ≡ fault_at InvalidMagic place) }
{
    ErrorKind::InvalidMagic.with_byte_offset(place).into_io()
}
