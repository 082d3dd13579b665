//! Prints the events of a source, each on a line of its own.
//!
//! [`print_events`] has the main contract: over known bytes, exactly the lines of their items are
//! written, or those before the first fault. If a read, a write or an allocation fails, a prefix of
//! these lines is written.
#![tactic(auto)]

mod hexadecimal;
mod lines;
mod plain_bytes;
mod print;
mod printer;
mod utf16;

pub use print::{print_events, print_reader, print_source};
