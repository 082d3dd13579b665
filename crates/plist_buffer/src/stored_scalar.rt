//! Scalars as references to what a table stores.

use plist_base::PackedScalar;

/// A scalar with a borrowed string or data if it has more than eight bytes.
#[derive(Clone, Copy)]
pub enum ScalarRef<'a> {
    /// A scalar that isn't a string or data of more than eight bytes.
    Packed(PackedScalar),
    /// A string in ASCII.
    AsciiString(&'a str),
    /// A string that isn't ASCII: its units in UTF-16, each in two bytes in big-endian order.
    WideString(&'a [u8]),
    /// Bytes.
    Data(&'a [u8]),
}
