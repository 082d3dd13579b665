//! The events of a property list in a table: every event in five bytes, and every different scalar
//! once.
//!
//! The main contracts belong to two calls. [`EventTable::push`] adds one event to the table, and
//! [`EventBuffer::try_push`](event_buffer::EventBuffer::try_push) buffers an event if it can follow
//! the buffered ones.
#![tactic(auto)]

pub mod children;
mod entries;
pub mod event_buffer;
pub mod event_table;
pub mod expects;
mod long_scalar;
pub mod repeated_keys;
mod short_bytes;
pub mod stored_scalar;
mod waiting;
pub mod wide;

pub use event_table::EventTable;
pub use expects::{Expect, Transition};
pub use stored_scalar::ScalarRef;
