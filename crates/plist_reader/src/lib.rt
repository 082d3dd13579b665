//! Reads property lists, binary or ASCII.
//!
//! [`Reader`] has the main contract: over known bytes, it yields the items that the bytes have in
//! the format that the first bytes indicate ([`format_of`]). Once it has chosen a reader for the
//! format, it yields the items of that reader.
#![tactic(auto)]

mod bytes;
mod reader;

pub use bytes::BufferedSource;
pub use plist_decode::format::{Format, format_of};
pub use reader::Reader;
