//! Tests what is built on values: archives, the examples to copy, values of very many levels, and
//! what the commands of `plist_tool` print, report and store in files. The tests use only public
//! calls.
#![tactic(auto)]

#[cfg(test)]
mod archives;
#[cfg(test)]
mod commands;
#[cfg(test)]
mod convert;
#[cfg(test)]
mod deep;
#[cfg(test)]
mod keyed;
#[cfg(test)]
mod levels;
#[cfg(test)]
mod lines;
#[cfg(test)]
mod memory;
#[cfg(test)]
mod print;
#[cfg(test)]
mod sending;
#[cfg(test)]
mod stored;
#[cfg(test)]
mod support;
#[cfg(test)]
mod uses;
#[cfg(test)]
mod values;
