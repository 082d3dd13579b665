//! Merges property lists, and prints their differences. It executes its arguments in turn:
//! `diff=OLD,NEW` and `merge=BASE,OVER,OUT`. The program is the port of `examples/merge.rs`, which
//! uses the Rust crate `plist`. Unlike that one it reads files under limits, since a merge and a
//! comparison recurse over the tree.
#![tactic(auto)]

mod compare;
mod text;

use crate::compare::diff;
use plist::{Dictionary, Error, Limits, Value};
use std::alloc::{AllocError, Global};
use std::env::Env;
use std::io::Write;
use std::process::ExitCode;
use std::rt::Files;
use std::{env, fmt, io};

// No file may exceed these limits.
const LIMITS: Limits = Limits {
    depth: 64,
    items: 100_000,
};

/// The error of executing an argument.
#[derive(Drop)]
enum Failure {
    /// A file can't be read or written, a line can't be printed, or an allocation fails.
    Plist(Error),
    /// The root of the file isn't a dictionary.
    NoDictionary,
    /// The argument isn't a command.
    Usage,
}

impl From<Error> for Failure {
    fn from(error: Error) -> Failure {
        Failure::Plist(error)
    }
}

impl From<io::Error> for Failure {
    fn from(error: io::Error) -> Failure {
        Failure::Plist(Error::from(error))
    }
}

impl From<AllocError> for Failure {
    fn from(error: AllocError) -> Failure {
        Failure::Plist(Error::from(error))
    }
}

/// Formats the error. For an I/O error the text includes the reason.
impl fmt::Display for Failure {
    fn fmt<W: fmt::Write>(&self, f: &mut fmt::Formatter<W>) -> fmt::Result {
        match self {
            Failure::Plist(error) => write!(f, "{}", error.reason()),
            Failure::NoDictionary => f.write_str("the file is not a dictionary"),
            Failure::Usage => f.write_str("diff=OLD,NEW merge=BASE,OVER,OUT"),
        }
    }
}

// Merges a dictionary into another one. If both have a dictionary at a key, these are merged; any
// other value replaces the one at its key. The prover finds that the recursion ends because the
// dictionary that gets less deep is the first parameter.
fn merge(over: Dictionary, base: &mut Dictionary) -> Result<(), Error> {
    for (key, value) in over {
        match value {
            Value::Dictionary(inner) => match base.get_mut(key.as_str()) {
                Some(Value::Dictionary(below)) => merge(inner, below)?,
                _ => {
                    let _old = base.insert(key, Value::Dictionary(inner))?;
                }
            },
            other => {
                let _old = base.insert(key, other)?;
            }
        }
    }
    Ok(())
}

// Reads the dictionary in a file.
fn open<R: Files>(rt: &R, alloc: Global, path: &str) -> Result<Dictionary, Failure> {
    match Value::from_file_with_limits(rt, alloc, path, LIMITS)? {
        Value::Dictionary(pairs) => Ok(pairs),
        _ => Err(Failure::NoDictionary),
    }
}

// Prints the names of two files, and the differences between their dictionaries.
fn print_changes<W: Write>(
    alloc: Global,
    out: &mut W,
    (old, before): (&str, &Dictionary),
    (new, after): (&str, &Dictionary),
) -> Result<(), Error> {
    writeln!(out, "--- {old}\n+++ {new}")?;
    diff(alloc, out, before, after, "")
}

// Prints the differences between two files.
fn print_diff<R: Files, W: Write>(
    rt: &R,
    alloc: Global,
    out: &mut W,
    names: &str,
) -> Result<(), Failure> {
    let (old, new) = names.split_once(',').ok_or(Failure::Usage)?;
    let before = open(rt, alloc, old)?;
    let after = open(rt, alloc, new)?;
    Ok(print_changes(alloc, out, (old, &before), (new, &after))?)
}

// Returns a dictionary into which a file was merged.
fn merged<R: Files>(
    rt: &R,
    alloc: Global,
    base: &Dictionary,
    over: &str,
) -> Result<Dictionary, Failure> {
    let over = open(rt, alloc, over)?;
    let mut after = base.clone()?;
    merge(over, &mut after)?;
    Ok(after)
}

// Merges a file into another one, prints the changes, and writes the result.
fn merge_files<R: Files, W: Write>(
    rt: &R,
    alloc: Global,
    out: &mut W,
    names: &str,
) -> Result<(), Failure> {
    let (base, rest) = names.split_once(',').ok_or(Failure::Usage)?;
    let (over, result) = rest.split_once(',').ok_or(Failure::Usage)?;
    let before = open(rt, alloc, base)?;
    let after = merged(rt, alloc, &before, over)?;
    print_changes(alloc, out, (base, &before), (result, &after))?;
    Ok(Value::Dictionary(after).to_file_binary(rt, alloc, result)?)
}

// Executes an argument.
fn perform<R: Files, W: Write>(
    rt: &R,
    alloc: Global,
    out: &mut W,
    word: &str,
) -> Result<(), Failure> {
    let (verb, names) = word.split_once('=').unwrap_or((word, ""));
    match verb {
        "diff" => print_diff(rt, alloc, out, names),
        "merge" => merge_files(rt, alloc, out, names),
        _ => Err(Failure::Usage),
    }
}

fn run<R: Files + Env + AllocGlobal, W: Write>(rt: &R, out: &mut W) -> Result<(), Failure> {
    for word in env::args(rt)?.skip(1) {
        perform(rt, rt.alloc(), out, word.as_str())?;
    }
    Ok(())
}

fn main(rt: HostRuntime) -> ExitCode {
    match run(&rt, &mut rt.stdout()) {
        Ok(()) => ExitCode::SUCCESS,
        Err(failure) => {
            let _ = eprintln!(rt; "merge: {failure}");
            ExitCode::FAILURE
        }
    }
}
