//! Uses most of the public surface, item by item: each name by its path, each call with the types
//! of its arguments and of its result, each struct by a literal, and each enum by a match over its
//! variants. If a change would break a program that uses one of them, this crate doesn't compile.
//!
//! It prints what the calls return for worked examples of the formats.
#![tactic(auto)]

mod archives;
mod dictionaries;
mod entries;
mod errors;
mod events;
mod examples;
mod files;
mod globs;
mod paths;
mod readers;
mod scalars;
mod sources;
mod stream_examples;
mod traits;
mod values;
mod writers;

use plist::Error;
use std::alloc::Global;
use std::io::Write;
use std::process::ExitCode;
use std::rt::Files;

fn print<R: Files + AllocGlobal, W: Write>(
    rt: &R,
    alloc: Global,
    out: &mut W,
) -> Result<(), Error> {
    errors::print(out)?;
    scalars::print(alloc, out)?;
    readers::print(alloc, out)?;
    writers::print(alloc, out)?;
    values::print(alloc, out)?;
    dictionaries::print(alloc, out)?;
    archives::print(alloc, out)?;
    examples::print(rt, alloc, out)?;
    stream_examples::print(alloc, out)?;
    files::print(rt, alloc, out)
}

fn main(rt: HostRuntime) -> ExitCode {
    match print(&rt, rt.alloc(), &mut rt.stdout()) {
        Ok(()) => ExitCode::SUCCESS,
        Err(error) => {
            let _ = eprintln!(rt; "plist_surface: {}", error.reason());
            ExitCode::FAILURE
        }
    }
}
