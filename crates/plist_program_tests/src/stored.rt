//! Tests when a file is created, and when the system is told to store it, if a value or a property
//! list is written to it.

use crate::support::{
    FailingCall, Stage, Watched, expect_holds, expect_missing, is_done, must, path_of, put, remove,
    same,
};
use plist::{LazyFile, Value};
use plist_base::{Error, Limits};
use plist_commands::{Command, Commands, Failure, convert_file};
use plist_support::expect_io;
use std::alloc::Global;
use std::cell::Cell;
use std::env::Env;
use std::io::{ErrorKind, Write};
use std::process::Abort;
use std::rt::Files;

// The binary files of the Boolean `true`, and of the string that the ASCII input contains.
const TRUTH: &[u8] = b"bplist00\
    \x09\x08\
    \0\0\0\0\0\0\x01\x01\0\0\0\0\0\0\0\x01\0\0\0\0\0\0\0\0\0\0\0\0\0\0\0\x09";

const TEXT: &[u8] = b"bplist00\
    \x51\x61\x08\
    \0\0\0\0\0\0\x01\x01\0\0\0\0\0\0\0\x01\0\0\0\0\0\0\0\0\0\0\0\0\0\0\0\x0a";

// Where the written value or property list is from.
#[derive(Clone, Copy)]
enum Origin<'a> {
    // The value `true`.
    Memory,
    // The property list of the file of this name.
    File(&'a str),
}

// Writes the value `true` to a file.
fn write_true<F: Files>(files: &F, alloc: Global, path: &str) -> Result<(), Error> {
    Value::Boolean(true).to_file_binary(files, alloc, path)
}

// Writes the value or the property list to a new file, of which one call may fail. Also returns the
// stage that the file reached.
fn write_to(
    rt: &(impl Abort + AllocGlobal + Env + Files),
    from: Origin<'_>,
    is_regular: bool,
    failure: Option<FailingCall>,
) -> (Result<(), Error>, Stage) {
    remove(rt, "stored");
    let to = path_of(rt, "stored");
    let stage = Cell::new(Stage::Untouched);
    let watched = Watched {
        rt,
        stage: &stage,
        opened: &Cell::new(0),
        failure,
        is_regular,
    };
    let answer = match from {
        Origin::Memory => write_true(&watched, rt.alloc(), to.as_str()),
        Origin::File(name) => {
            let path = path_of(rt, name);
            convert_file(&watched, rt.alloc(), path.as_str(), to.as_str())
        }
    };
    (answer, stage.get())
}

// Checks that the file is created once, after the last read, then written and flushed, and then
// stored. If a pipe or a terminal can't be stored, that isn't an error.
fn expect_stored(rt: &(impl Abort + AllocGlobal + Env + Files), from: Origin<'_>, wanted: &[u8]) {
    let failed_sync = Some(FailingCall {
        stage: Stage::Stored,
        kind: ErrorKind::InvalidInput,
    });
    for (is_regular, failure) in [(true, None), (false, None), (false, failed_sync)] {
        let (answer, stage) = write_to(rt, from, is_regular, failure);
        must(rt, answer);
        same(rt, "the stage", &stage, &Stage::Stored);
        expect_holds(rt, "stored", wanted);
    }
}

// Each call of the file that can fail. `InvalidInput` is a failure if the file can be stored.
const FAILURES: [(Stage, ErrorKind); 8] = [
    (Stage::Made, ErrorKind::PermissionDenied),
    (Stage::Made, ErrorKind::Interrupted),
    (Stage::Written, ErrorKind::StorageFull),
    (Stage::Written, ErrorKind::Interrupted),
    (Stage::Flushed, ErrorKind::Interrupted),
    (Stage::Stored, ErrorKind::InvalidInput),
    (Stage::Stored, ErrorKind::Interrupted),
    (Stage::Stored, ErrorKind::TimedOut),
];

// Checks that the result is the failure, with its own message, and that no call follows it.
fn expect_failures(rt: &(impl Abort + AllocGlobal + Env + Files), from: Origin<'_>) {
    for (failing, kind) in FAILURES {
        let failure = Some(FailingCall {
            stage: failing,
            kind,
        });
        let (answer, stage) = write_to(rt, from, true, failure);
        must(rt, expect_io(answer, kind, None));
        same(rt, "the stage", &stage, &failing);
    }
}

#[test]
fn makes_its_file_once(rt: HostRuntime) {
    expect_stored(&rt, Origin::Memory, TRUTH);
    put(&rt, "to_be_streamed", TRUTH);
    expect_stored(&rt, Origin::File("to_be_streamed"), TRUTH);
    put(&rt, "to_be_read", b"a");
    expect_stored(&rt, Origin::File("to_be_read"), TEXT);
}

// A property list with a repeated key has to be read as a value, so its file is read twice. The
// file that is written is created once.
#[test]
fn goes_no_further_than_a_failure(rt: HostRuntime) {
    expect_failures(&rt, Origin::Memory);
    put(&rt, "unstored", TRUTH);
    expect_failures(&rt, Origin::File("unstored"));
    put(&rt, "unstored_value", b"{ a = 1; a = 2; }");
    expect_failures(&rt, Origin::File("unstored_value"));
}

// Returns the error if a command failed because a property list couldn't be read, written or
// printed, and otherwise `Ok(())`.
fn error_of(answer: Result<(), Failure>) -> Result<(), Error> {
    match answer {
        Err(Failure::Plist(error)) => Err(error),
        _ => Ok(()),
    }
}

// A file that can't be created.
const OTHER: &str = "no_such_folder/out";

// The failure of a call that opens or reads a file, and its offset.
#[derive(Clone, Copy)]
struct Unread<'a> {
    path: &'a str,
    offset: Option<u64>,
}

impl<'a> Unread<'a> {
    // Returns whether the result is the device's error.
    fn is_in<T: Drop>(&self, answer: Result<T, Error>) -> bool {
        expect_io(answer, ErrorKind::PermissionDenied, self.offset).is_ok()
    }

    // Returns whether each call that reads a file returns the device's error.
    fn is_in_calls<F: Files>(&self, files: &F, alloc: Global) -> [bool; 4] {
        let limits = Limits { depth: 9, items: 9 };
        [
            self.is_in(Value::from_file_within(files, alloc, self.path, limits, 9)),
            self.is_in(Value::from_file_with_limits(files, alloc, self.path, limits)),
            self.is_in(Value::from_file(files, alloc, self.path)),
            self.is_in(convert_file(files, alloc, self.path, OTHER)),
        ]
    }

    // Returns whether a command fails with the device's error, and how many bytes it prints.
    fn is_in_command<F: Files>(
        &self,
        files: &F,
        alloc: Global,
        command: Command<'_>,
    ) -> (bool, usize) {
        let mut out = Vec::new(alloc);
        let is_in = self.is_in(error_of(files.perform(alloc, command, &mut out)));
        (is_in, out.len())
    }

    // Checks that each call opens its file once, and returns the device's error.
    fn expect_of_calls<R: Files>(&self, rt: &(impl Abort + AllocGlobal), watched: &Watched<'_, R>) {
        let found = self.is_in_calls(watched, rt.alloc());
        same(rt, "the device's errors", &found, &[true; 4]);
        for command in [
            Command::Print(self.path),
            Command::Convert(self.path, OTHER),
            Command::Keyed(self.path, "root"),
        ] {
            let found = self.is_in_command(watched, rt.alloc(), command);
            same(rt, "the error, and what is printed", &found, &(true, 0));
        }
        same(rt, "the files that were opened", &watched.opened.get(), &7);
    }
}

// The file can't be opened, or can't be read.
#[test]
fn opens_no_file_again(rt: HostRuntime) {
    put(&rt, "unread", &[0; 64]);
    let path = path_of(&rt, "unread");
    for (stage, offset) in [(Stage::Untouched, None), (Stage::Read, Some(0))] {
        let watched = Watched {
            rt: &rt,
            stage: &Cell::new(Stage::Untouched),
            opened: &Cell::new(0),
            failure: Some(FailingCall {
                stage,
                kind: ErrorKind::PermissionDenied,
            }),
            is_regular: true,
        };
        let unread = Unread {
            path: path.as_str(),
            offset,
        };
        unread.expect_of_calls(&rt, &watched);
    }
}

// A flush before the first write creates no file. The file that a write creates stays open, even if
// the write fails.
#[test]
fn an_output_makes_its_file_once(rt: HostRuntime) {
    let (stage, opened) = (Cell::new(Stage::Untouched), Cell::new(0));
    let watched = Watched {
        rt: &rt,
        stage: &stage,
        opened: &opened,
        failure: Some(FailingCall {
            stage: Stage::Written,
            kind: ErrorKind::TimedOut,
        }),
        is_regular: true,
    };
    let path = path_of(&rt, "output");
    let mut output = LazyFile::new(&watched, path.as_str());
    let (is_flushed, before) = (is_done(output.flush()), opened.get());
    let written = [is_done(output.write(b"a")), is_done(output.write(b"a"))];
    drop(output);
    same(
        &rt,
        "a flush, and two writes",
        &(is_flushed, written),
        &(true, [false; 2]),
    );
    same(
        &rt,
        "the files that are opened",
        &(before, opened.get()),
        &(0, 1),
    );
}

// Returns whether a command failed because a property list isn't an archive, or has no tree.
fn is_of_archive(answer: Result<(), Failure>) -> bool {
    matches!(answer, Err(Failure::Keyed(_)))
}

// A blank at the end of a name is a part of it.
#[test]
fn a_name_may_end_in_a_blank(rt: HostRuntime) {
    remove(&rt, "blank");
    let path = path_of(&rt, "blank ");
    let path = path.as_str();
    let (alloc, mut out) = (rt.alloc(), Vec::new(rt.alloc()));
    let limits = Limits { depth: 9, items: 9 };
    let found = [
        is_done(Value::Boolean(true).to_file_binary(&rt, alloc, path)),
        is_done(Value::from_file(&rt, alloc, path)),
        is_done(Value::from_file_with_limits(&rt, alloc, path, limits)),
        is_done(Value::from_file_within(&rt, alloc, path, limits, 9)),
        is_done(convert_file(&rt, alloc, path, path)),
        is_done(rt.perform(alloc, Command::Print(path), &mut out)),
    ];
    same(&rt, "the calls", &found, &[true; 6]);
    let answer = rt.perform(alloc, Command::Keyed(path, "root"), &mut out);
    let is_no_archive = is_of_archive(answer);
    let wanted = (true, b"Boolean true\n".as_slice());
    same(
        &rt,
        "no archive, and the lines",
        &(is_no_archive, out.as_slice()),
        &wanted,
    );
    expect_holds(&rt, "blank ", TRUTH);
    expect_missing(&rt, "blank");
}
