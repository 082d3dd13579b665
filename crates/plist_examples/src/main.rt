//! Runs the examples of the tables in `data/`, and prints a line for each: its check and its name,
//! and `ok` or the difference.
#![tactic(auto)]

mod archives;
mod decoded;
mod limits;
mod porting;
mod reading;
mod rows;
mod scalars;
mod values;
mod words;
mod writes;
mod writing;

use crate::rows::{Row, row_of};
use plist_support::Wrong;
use std::alloc::AllocError;
use std::rt::Files;
use std::{fs, io};

// The tables, in the order in which they are run.
const TABLES: [&str; 14] = [
    "reading", "hostile", "bits", "ascii", "dialects", "whole", "limits", "decoded", "scalars",
    "writing", "sharing", "values", "archives", "porting",
];

// Runs an example of a table. The tables that aren't named here contain examples of what is read.
fn run<R: Files + AllocGlobal>(rt: &R, table: &str, row: Row<'_>) -> Result<(), Wrong> {
    let alloc = rt.alloc();
    match table {
        "limits" => limits::run(alloc, row),
        "decoded" => decoded::run(alloc, row),
        "scalars" => scalars::run(alloc, row),
        "writing" | "sharing" => writing::run(alloc, row),
        "values" => values::run(alloc, row),
        "archives" => archives::run(alloc, row),
        "porting" => porting::run(rt, alloc, row),
        _ => reading::run(alloc, row),
    }
}

// Returns the line of an example.
fn line_of<R: Files + AllocGlobal>(
    rt: &R,
    table: &str,
    row: Row<'_>,
) -> Result<String, AllocError> {
    let (check, name) = (row.check, row.name);
    match run(rt, table, row) {
        Ok(()) => format!(in rt.alloc(); "{check} | {name}: ok"),
        Err(wrong) => format!(in rt.alloc(); "{check} | {name}: {wrong:?}"),
    }
}

// Runs the example of a line, and returns what is printed for it.
fn answer_to<R: Files + AllocGlobal>(
    rt: &R,
    table: &str,
    line: &str,
) -> Result<String, AllocError> {
    match row_of(line) {
        Some(row) => line_of(rt, table, row),
        None => format!(in rt.alloc(); "no example: {line}"),
    }
}

// Runs a table. Empty lines, and lines that begin with `#`, aren't examples.
fn run_table(rt: &(impl Files + Print + AllocGlobal), table: &str, text: &str) -> io::Result<()> {
    for line in text.lines() {
        if !line.is_empty() && !line.starts_with('#') {
            println!(rt; "{}", answer_to(rt, table, line)?)?;
        }
    }
    Ok(())
}

fn main(rt: HostRuntime) -> io::Result<()> {
    for table in TABLES {
        let text = fs::read_to_string(&rt, table)?;
        run_table(&rt, table, text.as_str())?;
    }
    Ok(())
}
