//! Runs of commands.

use crate::support::files::path_of;
use crate::support::{must, same};
use plist_commands::{Messages, program_arguments, run_words};
use std::env::{Env, FillError};
use std::io::Write;
use std::process::Abort;
use std::rt::Files;

// Returns the argument that a word of a line denotes: the word itself or, if it begins with `@`,
// the path of the file of this name in the folder for temporary files.
fn word_of(rt: &(impl Abort + AllocGlobal + Env), word: &str) -> String {
    match word.strip_prefix('@') {
        Some(name) => path_of(rt, name),
        None => must(rt, String::from_str(rt.alloc(), word)),
    }
}

// Returns the arguments that the words of a line denote.
fn words_of(rt: &(impl Abort + AllocGlobal + Env), line: &str) -> Vec<String> {
    let mut words = Vec::new(rt.alloc());
    for word in line.split_whitespace() {
        must(rt, words.push(word_of(rt, word)));
    }
    words
}

// Runs the words of a line, and returns the status.
pub(crate) fn run<O: Write, E: Messages>(
    rt: &(impl Abort + AllocGlobal + Env + Files),
    line: &str,
    out: &mut O,
    err: &mut E,
) -> u8 {
    let words = words_of(rt, line);
    let status = run_words(rt, rt.alloc(), words.as_slice(), out, err);
    drop(words);
    status
}

// The arguments of a run. The first one is the program's name.
#[derive(Drop)]
struct Given<'a> {
    words: &'a [&'a [u8]],
}

impl<'a> Env for Given<'a> {
    fn arg(&self, i: usize, buf: &mut [u8]) -> Result<usize, FillError> {
        if i >= self.words.len() {
            return Err(FillError::NotPresent);
        }
        let word = self.words[i];
        if word.len() > buf.len() {
            return Err(FillError::TooLong);
        }
        buf[..word.len()].copy_from_slice(word);
        Ok(word.len())
    }

    fn var(&self, _name: &str, _buf: &mut [u8]) -> Result<usize, FillError> {
        Err(FillError::NotPresent)
    }

    fn var_at(&self, _i: usize, _buf: &mut [u8]) -> Result<usize, FillError> {
        Err(FillError::NotPresent)
    }
}

// Checks that a run of these words prints this, reports that on standard error, and ends with this
// status.
fn expect_output(
    rt: &(impl Abort + AllocGlobal + Env + Files),
    what: &str,
    words: Vec<String>,
    printed: &[u8],
    said: &[u8],
    status: u8,
) {
    let mut out = Vec::new(rt.alloc());
    let mut err = Vec::new(rt.alloc());
    let found = run_words(rt, rt.alloc(), words.as_slice(), &mut out, &mut err);
    drop(words);
    let found = (err.as_slice(), out.as_slice(), found);
    same(rt, what, &found, &(said, printed, status));
}

// Checks that a run of these arguments prints nothing, reports this on standard error, and ends
// with this status.
pub(crate) fn expect_given(
    rt: &(impl Abort + AllocGlobal + Env + Files),
    words: &[&[u8]],
    said: &[u8],
    status: u8,
) {
    let given = must(rt, program_arguments(&Given { words }, rt.alloc()));
    expect_output(rt, "reported, printed, status", given, b"", said, status);
}

// Checks that a run of a line's words prints this, reports that on standard error, and ends with
// this status.
pub(crate) fn expect_run(
    rt: &(impl Abort + AllocGlobal + Env + Files),
    line: &str,
    printed: &[u8],
    said: &[u8],
    status: u8,
) {
    expect_output(rt, line, words_of(rt, line), printed, said, status);
}

// Checks that a run prints this, and succeeds.
pub(crate) fn expect_done(
    rt: &(impl Abort + AllocGlobal + Env + Files),
    line: &str,
    printed: &[u8],
) {
    expect_run(rt, line, printed, b"", 0);
}

// Checks that a run prints nothing, and reports this error.
pub(crate) fn expect_fault(rt: &(impl Abort + AllocGlobal + Env + Files), line: &str, said: &[u8]) {
    expect_run(rt, line, b"", said, 1);
}
