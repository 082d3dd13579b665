//! Pairs of a key and a value, each key once, in an order in which a new key is last.
//!
//! The main contract is that every call of [`Pairs`] is an operation on the list of the pairs.
#![tactic(auto)]

mod boxed;
mod iter;
mod pairs;

pub use boxed::BoxedPairs;
pub use iter::{IntoIter, Iter, Keys, Values};
pub use pairs::{Discard, Pairs};
