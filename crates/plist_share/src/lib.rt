//! Writes binary property lists in which equal collections share an object.
//!
//! [`SharingWriter`] has the main contract: the call that completes a property list writes its
//! file, which has one object for every different subtree. No file with the same events has fewer
//! objects.
#![tactic(auto)]

mod classes;
mod sharing;

pub use sharing::{EqualTrees, SharingWriter};
