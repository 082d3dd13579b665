//! Proved callers of the property-list crates: small functions. Each is proved from the clauses of
//! the functions that it calls, so that none of these clauses can be weakened unnoticed. Only the
//! proofs of `lemmas` cite lemmas of the libraries as well.
//!
//! They are listed from the lowest layer up: `faults`, `texts`, `dates`, `reals`, `hashes`,
//! `events`, `sources`, `limits`, `data`; `decoding`, of objects; the readers `binary` (also over
//! `small_files`), `ascii` and `either`, their `visits`, and the `writer`; `values` and their
//! `contents`; `writers`, for values that are written; `stored`, for files; `pairs`, `entries` and
//! `iterators`, for dictionaries; `depths`, for recursions over dictionaries; `archives`;
//! `commands`; `idioms`, of ported programs; and `lemmas`.
//!
//! A caller that is named after a bug returns `true` if the library has that bug, or it has a
//! clause about the result or the state that the bug would change. Unless its documentation names
//! other errors, a caller returns the errors of the calls in it.
#![tactic(auto)]

pub mod archives;
pub mod ascii;
pub mod binary;
pub mod commands;
pub mod contents;
pub mod data;
pub mod dates;
pub mod decoding;
pub mod depths;
pub mod either;
pub mod entries;
pub mod events;
pub mod faults;
pub mod hashes;
pub mod idioms;
pub mod iterators;
pub mod lemmas;
pub mod limited_values;
pub mod limits;
pub mod pairs;
pub mod reals;
pub mod small_files;
pub mod sources;
pub mod stored;
pub mod texts;
pub mod values;
pub mod visits;
pub mod writer;
pub mod writers;
