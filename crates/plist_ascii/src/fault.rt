//! Why a token can't be taken.

ghost use Rattle.std.specs.Prelude.{◌≡◌};
ghost use Rattle.plist_ascii.specs.declared.fault.TokenFault.TheVariants as fault;

use std::alloc::AllocError;

/// Why a token can't be taken.
///
/// The type is small because the memory of a result is zeroed on every call. An `Error`, which has
/// 120 bytes, is created only when the reader returns it.
#[derive(Clone, Copy)]
pub enum TokenFault {
    /// A read failed. Its error is stored in the input.
    Io,
    /// An allocation failed.
    OutOfMemory,
    /// A quoted string has no closing quote.
    UnclosedString,
    /// A block comment has no `*/`, or the input ends after a slash.
    IncompleteComment,
    /// A string isn't UTF-8, or an escape isn't defined.
    InvalidUtf8,
    /// An octal escape contains a byte other than `0` to `7`.
    InvalidOctal,
    /// The escape of a UTF-16 unit is invalid.
    InvalidUtf16,
}

impl From<AllocError> for TokenFault {
    ghost from_gives = { λ _ f. f ≡ fault.OutOfMemory };

    fn from(_error: AllocError) -> TokenFault {
        TokenFault::OutOfMemory
    }
}
