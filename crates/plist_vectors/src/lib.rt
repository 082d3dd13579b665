//! Tests sequences of calls, calls that fail, and calls that nothing else in this repository runs.
//! The tests use only public calls. Whatever can be tested in one line is in the tables of
//! `plist_examples`.
#![tactic(auto)]

#[cfg(test)]
mod ascii;
#[cfg(test)]
mod building;
#[cfg(test)]
mod copying;
#[cfg(test)]
mod cut;
#[cfg(test)]
mod decode_counter;
#[cfg(test)]
mod dictionaries;
#[cfg(test)]
mod interrupted;
#[cfg(test)]
mod reader_windows;
#[cfg(test)]
mod reading;
#[cfg(test)]
mod scalars;
#[cfg(test)]
mod sharing;
#[cfg(test)]
mod sources;
#[cfg(test)]
mod support;
#[cfg(test)]
mod values;
#[cfg(test)]
mod vast;
#[cfg(test)]
mod writing;
