//! Keyed archives: property lists with their values in one list of objects, where they name each
//! other by [`Uid`](plist::Uid).
//!
//! [`Archive::tree`] has the main contract. It returns the tree of the object that a Uid names,
//! with every Uid in it replaced by its own tree, or else the first fault in depth-first order.
#![tactic(auto)]

mod archive;
mod check;
mod error;
mod state;
mod walk;

pub use archive::Archive;
pub use error::KeyedError;
