//! Readers and writers for programs in C, and in languages that call C.
//!
//! [`sizhetom_read`](read::sizhetom_read) has the main contract: the caller's memory has the
//! records of exactly the items of the input, up to the first fault or as far as there is room.
#![tactic(auto)]

mod filler;
mod flat;
mod numbers;
mod order;
mod read;
mod record;
mod stop;
mod version;
mod write;
