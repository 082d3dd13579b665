//! The program of the tutorial. It reads a settings file, raises its version by one, and writes it
//! to another file: `plist_tutorial FROM TO`.
#![tactic(auto)]

use plist::{Dictionary, Error, Limits, Value};
use std::alloc::Global;
use std::env;
use std::process::ExitCode;
use std::rt::{Env, Files};

// No file may have more than 64 levels or 100,000 events.
const LIMITS: Limits = Limits {
    depth: 64,
    items: 100_000,
};

// Returns the version in these settings.
fn version_of(settings: &Dictionary) -> Option<i64> {
    settings.get("Version")?.as_signed_integer()
}

// Raises the version by one, and returns the new one.
fn raise_version(alloc: Global, settings: &mut Dictionary) -> Result<i64, Error> {
    let version = version_of(settings).unwrap_or(0).saturating_add(1);
    settings.insert("Version".to_string(alloc)?, Value::from(version))?;
    Ok(version)
}

// Copies a settings file, with its version raised by one. Returns the new version, or `None` if the
// file's value isn't a dictionary.
fn copy_raised<R: Files>(
    rt: &R,
    alloc: Global,
    from: &str,
    to: &str,
) -> Result<Option<i64>, Error> {
    let mut value = Value::from_file_within(rt, alloc, from, LIMITS, 1 << 24)?;
    let Some(settings) = value.as_dictionary_mut() else {
        return Ok(None);
    };
    let version = raise_version(alloc, settings)?;
    value.to_file_binary(rt, alloc, to)?;
    Ok(Some(version))
}

// Runs the program, and prints the new version.
fn run<R: Files + Env + Print + AllocGlobal>(rt: &R) -> Result<(), Error> {
    let words: Vec<String> = env::args(rt)?.collect(rt.alloc())?;
    let (Some(from), Some(to)) = (words.get(1), words.get(2)) else {
        return Ok(println!(rt; "Usage: plist_tutorial FROM TO")?);
    };
    match copy_raised(rt, rt.alloc(), from.as_str(), to.as_str())? {
        Some(version) => println!(rt; "{} has version {version}", to)?,
        None => println!(rt; "{} has no settings", from)?,
    }
    Ok(())
}

fn main(rt: HostRuntime) -> ExitCode {
    match run(&rt) {
        Ok(()) => ExitCode::SUCCESS,
        Err(error) => {
            let _ = eprintln!(rt; "Error: {}", error.reason());
            ExitCode::FAILURE
        }
    }
}
