//! Inspects keyed archives (`NSKeyedArchiver`). Its arguments are commands, separated by `--`:
//! `classes FILE`, `tree FILE [KEY]`, `strings FILE PATTERN` and `check FILE`. The program is the
//! port of `examples/keytree.rs`, which uses the Rust crate `plist`.
#![tactic(auto)]

mod archive;
mod failure;
mod pattern;
mod tree;

use crate::archive::{Keyed, brief};
use crate::failure::Failure;
use crate::pattern::matches;
use crate::tree::Printer;
use plist::Value;
use std::alloc::Global;
use std::env;
use std::env::Env;
use std::io::Write;
use std::process::ExitCode;
use std::rt::Files;

// Prints the classes, each with the number of its objects.
fn print_classes<W: Write>(alloc: Global, out: &mut W, archive: &Keyed<'_>) -> Result<(), Failure> {
    let classes = archive.classes(alloc)?;
    let width = classes
        .iter()
        .map(|(name, _)| name.len())
        .max()
        .unwrap_or(0);
    let mut total: usize = 0;
    for (name, count) in &classes {
        writeln!(out, "{name:<width$} {count:>6}")?;
        total = total.saturating_add(*count);
    }
    writeln!(out, "{total} of {} objects", archive.objects.len())?;
    Ok(())
}

// Prints the trees under all keys of `$top`, or the one under this key.
fn print_tree<W: Write>(
    alloc: Global,
    out: &mut W,
    archive: Keyed<'_>,
    wanted: Option<&String>,
) -> Result<(), Failure> {
    let mut printer = Printer::new(alloc, archive);
    let mut found = false;
    for (key, value) in archive.top {
        if wanted.map_or(true, |wanted| wanted == key) {
            found = true;
            printer.print(out, value, key.as_str())?;
        }
    }
    match (wanted, found) {
        (Some(key), false) => Err(Failure::NoKey(key.clone()?)),
        _ => Ok(()),
    }
}

// Prints the strings that match a pattern, each once.
fn print_strings<W: Write>(
    alloc: Global,
    out: &mut W,
    archive: &Keyed<'_>,
    pattern: &str,
) -> Result<(), Failure> {
    let mut found = Vec::new(alloc);
    for (index, object) in archive.objects.iter().enumerate().skip(1) {
        let Some(text) = object.as_string() else {
            continue;
        };
        if matches(alloc, pattern, text)? {
            found.push((text, index))?;
        }
    }
    found.sort()?;
    found.dedup_by_key(|(text, _)| *text);
    for (text, index) in found {
        writeln!(out, "#{index} {text:?}")?;
    }
    Ok(())
}

// Prints the Uids that lead nowhere, and the objects that no chain of Uids reaches.
fn print_check<W: Write>(alloc: Global, out: &mut W, archive: &Keyed<'_>) -> Result<(), Failure> {
    let (lost, dangling) = archive.reach(alloc)?;
    for (uid, times) in &dangling {
        writeln!(out, "#{uid} is named {times} times and is not there")?;
    }
    for (index, object) in &lost {
        writeln!(out, "#{index} is not reached: {}", brief(alloc, object)?)?;
    }
    writeln!(out, "{} dangling, {} lost", dangling.len(), lost.len())?;
    Ok(())
}

// Executes a command.
fn run<R: Files + AllocGlobal, W: Write>(
    rt: &R,
    words: &[String],
    out: &mut W,
) -> Result<(), Failure> {
    let [command, path, rest @ ..] = words else {
        return Err(Failure::Usage);
    };
    let alloc = rt.alloc();
    let value = Value::from_file(rt, alloc, path.as_str())?;
    let archive = Keyed::new(&value)?;
    match (command.as_str(), rest) {
        ("classes", []) => print_classes(alloc, out, &archive),
        ("tree", []) => print_tree(alloc, out, archive, None),
        ("tree", [key]) => print_tree(alloc, out, archive, Some(key)),
        ("strings", [pattern]) => print_strings(alloc, out, &archive, pattern.as_str()),
        ("check", []) => print_check(alloc, out, &archive),
        _ => Err(Failure::Usage),
    }
}

fn run_all<R: Files + Env + AllocGlobal, W: Write>(rt: &R, out: &mut W) -> Result<(), Failure> {
    let words: Vec<String> = env::args(rt)?.skip(1).collect(rt.alloc())?;
    for command in words.split(|word| word.as_str() == "--") {
        run(rt, command, out)?;
    }
    Ok(())
}

fn main(rt: HostRuntime) -> ExitCode {
    match run_all(&rt, &mut rt.stdout()) {
        Ok(()) => ExitCode::SUCCESS,
        Err(failure) => {
            let _ = eprintln!(rt; "keytree: {failure}");
            ExitCode::FAILURE
        }
    }
}
