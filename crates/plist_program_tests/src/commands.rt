//! What each list of arguments does: the status, what is printed, and what is reported on standard
//! error.

use crate::support::{
    RECURSIVE, expect_fault, expect_given, expect_run, expect_taken, failing, must, put, run, same,
};
use plist_commands::{Failure, Message, Messages};
use plist_support::{expect_io, front};
use std::env::Env;
use std::io::ErrorKind;
use std::process::Abort;
use std::rt::Files;

const USAGE: &[u8] = b"Usage: plist_tool print FILE | convert IN OUT | keyed FILE KEY\n";

#[test]
fn wrong_words(rt: HostRuntime) {
    for line in [
        "",
        "print",
        "print one two",
        "show one",
        "Print one",
        "convert one",
        "convert one two three",
        "keyed one",
        "keyed one two three",
    ] {
        expect_run(&rt, line, b"", USAGE, 2);
    }
}

// The arguments are wrong if one of them isn't UTF-8, or if there is one too many. The program's
// name doesn't count.
#[test]
fn words_that_are_no_text(rt: HostRuntime) {
    let path = b"no_such_folder/in".as_slice();
    let words: [&[u8]; 6] = [b"plist_tool", b"keyed", path, b"root", path, path];
    expect_given(&rt, &words, USAGE, 2);
    expect_given(&rt, &words[..1], USAGE, 2);
    let words: [&[u8]; 5] = [b"plist_tool", b"convert", path, path, b""];
    expect_given(&rt, &words, USAGE, 2);
    let words: [&[u8]; 3] = [b"plist_tool", b"print", b"no_such_folder/\xff"];
    expect_given(&rt, &words, USAGE, 2);
    let words: [&[u8]; 3] = [b"plist_\xff", b"print", path];
    expect_given(&rt, &words, b"Error: Io\n", 1);
}

// Checks that the whole report is passed to standard error at once. Four bytes of it are accepted,
// one per call; then a write fails, and isn't tried again.
fn expect_status(
    rt: &(impl Abort + AllocGlobal + Env + Files),
    line: &str,
    said: &[u8],
    status: u8,
) {
    for kind in [ErrorKind::PermissionDenied, ErrorKind::Interrupted] {
        let mut out = Vec::new(rt.alloc());
        let mut err = failing(rt, 4, kind);
        let found = run(rt, line, &mut out, &mut err);
        same(rt, line, &(found, err.longest), &(status, said.len()));
        expect_taken(rt, err, front(said, 4), 5, 0);
    }
}

#[test]
fn a_failing_standard_error_changes_no_status(rt: HostRuntime) {
    expect_status(&rt, "show one", USAGE, 2);
    let said = b"Error: Io\n";
    expect_status(&rt, "print no_such_folder/no_such_file", said, 1);
}

// If a write to standard error fails, `report` returns its error.
#[test]
fn a_report_hands_the_failure_on(rt: HostRuntime) {
    for call in 0..9 {
        for message in [Message::Fault(&Failure::NoSuchTop), Message::Usage] {
            let mut err = failing(&rt, call, ErrorKind::TimedOut);
            let answer = err.report(message);
            must(&rt, expect_io(answer, ErrorKind::TimedOut, None));
        }
    }
}

// `print` prints the contents of binary files only, and the lines before an error.
#[test]
fn reports_of_print(rt: HostRuntime) {
    let text = b"{ name = \"a text that is longer than a trailer\"; }";
    put(&rt, "in_ascii", text);
    put(&rt, "recursive", RECURSIVE);
    let said = b"Error: Io\n";
    expect_fault(&rt, "print no_such_folder/no_such_file.plist", said);
    let said = b"Error: InvalidMagic (offset 0)\n";
    expect_fault(&rt, "print @in_ascii", said);
    let said = b"Error: RecursiveObject (offset 8)\n";
    expect_run(&rt, "print @recursive", b"StartArray 1\n", said, 1);
}

#[test]
fn a_failing_output(rt: HostRuntime) {
    put(&rt, "failing_output", RECURSIVE);
    let mut out = failing(&rt, 5, ErrorKind::PermissionDenied);
    let mut err = Vec::new(rt.alloc());
    let status = run(&rt, "print @failing_output", &mut out, &mut err);
    let found = (status, out.bytes.as_slice(), err.as_slice());
    let wanted = (1, b"Start".as_slice(), b"Error: Io\n".as_slice());
    same(&rt, "status, printed, reported", &found, &wanted);
}
