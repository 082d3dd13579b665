//! Writes binary property lists.
//!
//! [`BinaryWriter`] has the main contract: the call that completes a property list writes its file,
//! where every object has the form that `docs/FORMAT.md` lists for it, and from which the same
//! events are read. No other call writes a byte.
#![tactic(auto)]

pub mod classes;
pub mod forms;
mod plan;
pub mod send;
mod sharing;
mod text;
pub mod widths;
mod writer;

pub use plist_buffer::{EventTable, stored_scalar};
pub use send::{write_file, write_file_by_class};
pub use sharing::{EqualScalars, Sharing};
pub use writer::{BinaryWriter, FileWriter};
