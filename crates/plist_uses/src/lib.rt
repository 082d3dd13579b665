//! Examples to copy: small callers of the library, each with a contract of its own, which follows
//! from the contracts of the calls in it. Four have proof files: `counting` and `generated` for
//! their loops, `convert` for an error, and `archive` for an archive without a root. `callers` has
//! proved callers of the examples.
#![tactic(auto)]

pub mod archive;
pub mod callers;
pub mod convert;
pub mod counting;
pub mod generated;
pub mod settings;
pub mod untrusted_file;
