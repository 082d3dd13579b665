//! Reads old-style ASCII property lists.
//!
//! [`AsciiReader`] has the main contract: if the bytes are known, each call returns the first of
//! the items that the remaining bytes spell, and takes the bytes up to the end of that item.
#![tactic(auto)]

mod borrowed;
mod byte_reader;
mod comment;
mod dialect;
mod fault;
mod input;
mod quoted;
mod reader;
mod stop;
mod text;
mod token;
mod unescape;

pub use byte_reader::ByteReader;
pub use dialect::Dialect;
pub use reader::AsciiReader;
