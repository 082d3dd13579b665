//! Proved callers of what is printed for errors, numbers and identifiers. Each returns the printed
//! text, or `AllocError` if an allocation fails.

ghost use Rattle.std.specs.Prelude.{◌≡◌, IfOk, codes, decimal, string_bytes};
ghost use Rattle.std.specs.Fmt.{signed_decimal};
ghost use Rattle.plist_base.specs.Faults.{UnexpectedEof, fault_at, fault_text};

use plist_base::{ErrorKind, EventKind, Integer, InvalidInteger, InvalidXmlDate, Limit, Uid};
use std::alloc::{AllocError, Global};
use std::io;

/// Prints the error of an early end: its kind, and its offset in decimal.
pub fn early_end(alloc: Global, place: u64) -> Result<String, AllocError>
    ensures { IfOk result (λ text. string_bytes text ≡ fault_text (fault_at UnexpectedEof place)) }
{
    ErrorKind::UnexpectedEof
        .with_byte_offset(place)
        .to_string(alloc)
}

/// Prints an I/O error, without what the system reported.
pub fn failure(alloc: Global, failure: io::Error) -> Result<String, AllocError>
    ensures { IfOk result (λ text. string_bytes text ≡ codes "Io") }
{
    ErrorKind::Io(failure).without_position().to_string(alloc)
}

/// Prints a limit that was reached.
pub fn limit(alloc: Global) -> Result<String, AllocError>
    ensures { IfOk result (λ text. string_bytes text ≡ codes "LimitReached(Depth)") }
{
    ErrorKind::LimitReached(Limit::Depth).to_string(alloc)
}

/// Prints an `EventKind` that names a choice of two kinds.
pub fn choice(alloc: Global) -> Result<String, AllocError>
    ensures { IfOk result (λ text. string_bytes text ≡ codes "value or start collection") }
{
    EventKind::ValueOrStartCollection.to_string(alloc)
}

/// Prints an integer, as the number that it was made from.
pub fn number(alloc: Global, number: i64) -> Result<String, AllocError>
    ensures { IfOk result (λ text. string_bytes text ≡ signed_decimal number) }
{
    Integer::from(number).to_string(alloc)
}

/// Prints an integer for debugging, as the number that it was made from.
pub fn number_debug(alloc: Global, number: i64) -> Result<String, AllocError>
    ensures { IfOk result (λ text. string_bytes text ≡ signed_decimal number) }
{
    let number = Integer::from(number);
    format!(in alloc; "{number:?}")
}

/// Prints an identifier for debugging, as its number.
pub fn uid_debug(alloc: Global, number: u64) -> Result<String, AllocError>
    ensures { IfOk result (λ text. string_bytes text ≡ decimal number) }
{
    let uid = Uid::new(number);
    format!(in alloc; "{uid:?}")
}

/// Prints the error of parsing what isn't an integer.
pub fn no_number(alloc: Global) -> Result<String, AllocError>
    ensures { IfOk result (λ t. string_bytes t ≡ codes "String was not a valid plist integer") }
{
    InvalidInteger.to_string(alloc)
}

/// Prints the error of parsing what isn't a date.
pub fn no_date(alloc: Global) -> Result<String, AllocError>
    ensures { IfOk result (λ t. string_bytes t ≡ codes "String was not a valid XML plist date") }
{
    InvalidXmlDate.to_string(alloc)
}
