//! Exports for reading that are needed less often: the format of a source, limits for any iterator
//! over events, and the traits and types that the readers' contracts name.

pub use plist_ascii::ByteReader;
pub use plist_base::{
    Allowance, ByteBudget, EventShape, EventSource, EventVisitor, LimitCounter, LimitedItems,
    PackedKind, PackedScalar, Visited, read_exact_at,
};
pub use plist_binread::{CountedDecodings, DecodeCounter, Uncounted};
pub use plist_reader::{Format, format_of};
