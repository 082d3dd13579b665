//! Files of 600 levels, for each command. No command has a limit of its own.

use crate::support::{add_times, expect_done, must, path_of, put, value_of};
use std::env::Env;
use std::process::Abort;
use std::rt::Files;

const LEVELS: u32 = 600;

// Returns a start for each level and then an end for each level, between two texts.
fn nested(rt: &(impl Abort + AllocGlobal), around: [&str; 2], parts: [&str; 2]) -> String {
    let mut all = must(rt, String::from_str(rt.alloc(), around[0]));
    add_times(rt, &mut all, parts[0], LEVELS);
    add_times(rt, &mut all, parts[1], LEVELS);
    must(rt, all.push_str(around[1]));
    all
}

// Returns the lines of nested arrays, the innermost of which is empty.
fn lines(rt: &(impl Abort + AllocGlobal), around: [&str; 2]) -> String {
    let all = nested(rt, around, ["StartArray 1\n", "EndCollection\n"]);
    must(rt, all.replace(rt.alloc(), "1\nEnd", "0\nEnd"))
}

// Checks what is printed for the file to which this text is converted, and for that file after it
// is converted again.
fn expect_converted(
    rt: &(impl Abort + AllocGlobal + Env + Files),
    around: [&str; 2],
    printed: [&str; 2],
) {
    let lines = lines(rt, printed);
    put(rt, "levels", nested(rt, around, ["(", ")"]).as_bytes());
    for _ in 0..2 {
        expect_done(rt, "convert @levels @levels", b"");
        expect_done(rt, "print @levels", lines.as_bytes());
    }
}

#[test]
fn deep_files(rt: HostRuntime) {
    expect_converted(&rt, ["", ""], ["", ""]);
    let printed = ["StartDictionary 1\nString \"a\"\n", "EndCollection\n"];
    expect_converted(&rt, ["{ a = 1; a = ", "; }"], printed);
}

#[test]
fn a_deep_archive(rt: HostRuntime) {
    let around = [
        "{ '$objects' [ '$null' ",
        "end '$top' { 'root' uid:1 end end",
    ];
    let root = value_of(&rt, nested(&rt, around, ["[ ", "end "]).as_str());
    let path = path_of(&rt, "deep_archive");
    must(&rt, root.to_file_binary(&rt, rt.alloc(), path.as_str()));
    drop(root);
    let lines = lines(&rt, ["", ""]);
    expect_done(&rt, "keyed @deep_archive root", lines.as_bytes());
}
