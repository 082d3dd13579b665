//! Determines the format of a property list, reads the head of a binary file, and decodes its
//! objects.
//!
//! The main contracts belong to two calls. [`object::decode_front`] decodes an object from its
//! first bytes, whatever follows them. [`head::Head::read`] returns the head of the file or its
//! first fault.
#![tactic(auto)]

mod counted_content;
pub mod counter;
pub mod decoded;
mod fixed_content;
pub mod format;
pub mod head;
pub mod numbers;
pub mod object;
pub mod packed;
pub mod step_fault;
mod trailer;
pub mod utf16;
