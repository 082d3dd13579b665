//! Copies property lists of untrusted origin, without building values. Its arguments are commands,
//! separated by `--`: `IN OUT [drop=PATH ..] [rename=OLD:NEW ..] [depth=N] [items=N] [stats]`. The
//! program is the port of `examples/filter.rs`, which uses the Rust crate `plist`.
#![tactic(auto)]

mod failure;
mod filter;
mod options;
mod stats;

use crate::failure::{Failure, at};
use crate::filter::filter_events;
use crate::options::Options;
use crate::stats::Stats;
use plist::stream::{BinaryWriter, Seeking, Writer};
use std::alloc::Global;
use std::env::Env;
use std::io::{BufWriter, Read, Write};
use std::process::ExitCode;
use std::rt::Files;
use std::{env, fs, io};

// Filters the file at a path, or the standard input if the path is `-`.
fn filter_file<R: Files + Input, W: Writer + Drop>(
    rt: &R,
    alloc: Global,
    from: &str,
    writer: W,
    options: &Options,
) -> Result<Stats, Failure> {
    if from == "-" {
        let mut bytes = Vec::new(alloc);
        let _count = at(alloc, from, rt.reader().read_to_end(&mut bytes))?;
        filter_events(alloc, bytes, writer, options)
    } else {
        let file = at(alloc, from, fs::open(rt, from))?;
        filter_events(alloc, Seeking::with_windows(alloc, file), writer, options)
    }
}

// Executes a command.
fn run<R: Files + Input + Print + AllocGlobal>(rt: &R, words: &[String]) -> Result<(), Failure> {
    let alloc = rt.alloc();
    let [from, to, rest @ ..] = words else {
        return Err(Failure::Usage(words.join(alloc, " ")?));
    };
    let options = Options::parse(alloc, rest)?;
    let to = to.as_str();
    let file = at(alloc, to, fs::create(rt, to))?;
    let mut out = at(alloc, to, BufWriter::new(alloc, file))?;
    let writer = BinaryWriter::new(alloc, &mut out);
    let stats = filter_file(rt, alloc, from.as_str(), writer, &options)?;
    at(alloc, to, out.flush())?;
    if options.stats {
        at(alloc, "stdout", stats.print(alloc, &mut io::writer(rt)))?;
    }
    Ok(())
}

fn run_all<R: Files + Env + Input + Print + AllocGlobal>(rt: &R) -> Result<(), Failure> {
    let alloc = rt.alloc();
    let words = at(alloc, "arguments", env::args(rt))?;
    let words: Vec<String> = words.skip(1).collect(alloc)?;
    for command in words.split(|word| word.as_str() == "--") {
        run(rt, command)?;
    }
    Ok(())
}

fn main(rt: HostRuntime) -> ExitCode {
    match run_all(&rt) {
        Ok(()) => ExitCode::SUCCESS,
        Err(failure) => {
            let _ = eprintln!(rt; "filter: {failure}");
            ExitCode::FAILURE
        }
    }
}
