//! The files after `convert`, and what `convert_binary` writes.

use crate::support::{
    RECURSIVE, broken_file, expect_fault, expect_holds, expect_missing, expect_run, expect_taken,
    failing, must, put, remove, same, sound,
};
use plist_commands::{FastPath, convert_binary};
use plist_support::{expect_io, front};
use std::env::Env;
use std::io::ErrorKind;
use std::process::Abort;
use std::rt::Files;

const SETTINGS: &[u8] = b"{ name = James, age = 42 }";

const CONVERTED: &[u8] = b"bplist00\
    \xd2\x01\x02\x03\x04\x54name\x53age\x55James\x10\x2a\x08\x0d\x12\x16\x1c\
    \0\0\0\0\0\0\x01\x01\0\0\0\0\0\0\0\x05\0\0\0\0\0\0\0\0\0\0\0\0\0\0\0\x1e";

// `{a = 1, b = 2, a = 3}`, and the file that is written for it: the key keeps its first position
// and has its last value.
const REPEATED: &[u8] = b"bplist00\
    \xd3\x01\x02\x01\x03\x04\x05\x51\x61\x51\x62\x10\x01\x10\x02\x10\x03\
    \x08\x0f\x11\x13\x15\x17\
    \0\0\0\0\0\0\x01\x01\0\0\0\0\0\0\0\x06\0\0\0\0\0\0\0\0\0\0\0\0\0\0\0\x19";

const LAST_VALUES: &[u8] = b"bplist00\
    \xd2\x01\x02\x03\x04\x51\x61\x51\x62\x10\x03\x10\x02\x08\x0d\x0f\x11\x13\
    \0\0\0\0\0\0\x01\x01\0\0\0\0\0\0\0\x05\0\0\0\0\0\0\0\0\0\0\0\0\0\0\0\x15";

// An array of one string twice, in UTF-8 and in UTF-16, and the file that is written for it.
const TWO_FORMS: &[u8] = b"bplist00\
    \xa2\x01\x02\x5a\xd0\xb0\xd0\xb1\xd0\xb2\xd0\xb3\xd0\xb4\
    \x65\x04\x30\x04\x31\x04\x32\x04\x33\x04\x34\x08\x0b\x16\
    \0\0\0\0\0\0\x01\x01\0\0\0\0\0\0\0\x03\0\0\0\0\0\0\0\0\0\0\0\0\0\0\0\x21";

const ONE_FORM: &[u8] = b"bplist00\
    \xa2\x01\x01\x65\x04\x30\x04\x31\x04\x32\x04\x33\x04\x34\x08\x0b\
    \0\0\0\0\0\0\x01\x01\0\0\0\0\0\0\0\x02\0\0\0\0\0\0\0\0\0\0\0\0\0\0\0\x16";

const EMPTY: &[u8] = b"bplist00\
    \xd0\x08\
    \0\0\0\0\0\0\x01\x01\0\0\0\0\0\0\0\x01\0\0\0\0\0\0\0\0\0\0\0\0\0\0\0\x09";

// A dictionary whose only key is 1.
const INTEGER_KEY: &[u8] = b"bplist00\
    \xd1\x01\x02\x10\x01\x09\x08\x0b\x0d\
    \0\0\0\0\0\0\x01\x01\0\0\0\0\0\0\0\x03\0\0\0\0\0\0\0\0\0\0\0\0\0\0\0\x0e";

const NO_KEY: &[u8] =
    b"Error: UnexpectedEventType { expected: DictionaryKeyOrEndCollection, found: Integer }\n";

const RECURSIVE_SAID: &[u8] = b"Error: RecursiveObject (offset 8)\n";

// A property list, the content of the other file before the conversion, if there is such a file,
// and the file that is written or the error that is reported.
#[derive(Clone, Copy)]
struct Conversion<'a> {
    bytes: &'a [u8],
    older: Option<&'a [u8]>,
    wanted: Result<&'a [u8], &'a [u8]>,
}

// Makes a conversion to a new file.
fn to_new<'a>(bytes: &'a [u8], wanted: &'a [u8]) -> Conversion<'a> {
    Conversion {
        bytes,
        older: None,
        wanted: Ok(wanted),
    }
}

// Makes a conversion that fails.
fn to_none<'a>(bytes: &'a [u8], older: Option<&'a [u8]>, said: &'a [u8]) -> Conversion<'a> {
    Conversion {
        bytes,
        older,
        wanted: Err(said),
    }
}

// Checks the conversion to another file, and to the file itself. An error leaves each of them as it
// was.
fn expect_converted(rt: &(impl Abort + AllocGlobal + Env + Files), conversion: Conversion<'_>) {
    let Conversion {
        bytes,
        older,
        wanted,
    } = conversion;
    put(rt, "in", bytes);
    match older {
        Some(bytes) => put(rt, "out", bytes),
        None => remove(rt, "out"),
    }
    let (out, said, status) = match wanted {
        Ok(file) => (Some(file), b"".as_slice(), 0),
        Err(said) => (older, said, 1),
    };
    expect_run(rt, "convert @in @out", b"", said, status);
    expect_holds(rt, "in", bytes);
    match out {
        Some(bytes) => expect_holds(rt, "out", bytes),
        None => expect_missing(rt, "out"),
    }
    expect_run(rt, "convert @in @in", b"", said, status);
    expect_holds(rt, "in", wanted.unwrap_or(bytes));
}

// A binary file is read like one in ASCII, and a longer file is truncated.
#[test]
fn converts_files(rt: HostRuntime) {
    for conversion in [
        to_new(SETTINGS, CONVERTED),
        to_new(CONVERTED, CONVERTED),
        to_new(REPEATED, LAST_VALUES),
        to_new(LAST_VALUES, LAST_VALUES),
        to_new(EMPTY, EMPTY),
        to_new(TWO_FORMS, ONE_FORM),
        Conversion {
            older: Some(&[b' '; 100]),
            ..to_new(SETTINGS, CONVERTED)
        },
        to_none(RECURSIVE, Some(b"it stands"), RECURSIVE_SAID),
        to_none(b" <plist/>", None, b"Error: XmlUnsupported (offset 1)\n"),
        to_none(INTEGER_KEY, None, NO_KEY),
        to_none(INTEGER_KEY, Some(&[b'x'; 2048]), NO_KEY),
    ] {
        expect_converted(&rt, conversion);
    }
}

// Appends data of 100,000 bytes.
fn add_data(rt: &impl Abort, file: &mut Vec<u8>, first: u32) {
    must(rt, file.extend_from_slice(b"\x4f\x12\0\x01\x86\xa0"));
    for place in 0..100_000u32 {
        must(rt, file.push((place.saturating_add(first) % 251) as u8));
    }
}

const TABLE_OF_TWO: &[u8] = b"\0\0\0\x08\0\0\0\x0b\0\x01\x86\xb1\
    \0\0\0\0\0\0\x04\x01\0\0\0\0\0\0\0\x03\0\0\0\0\0\0\0\0\0\0\0\0\0\x03\x0d\x57";

// An array of two data objects, whose file is written in five writes.
#[test]
fn converts_large_files(rt: HostRuntime) {
    let mut file = must(&rt, Vec::from_slice(rt.alloc(), b"bplist00\xa2\x01\x02"));
    add_data(&rt, &mut file, 0);
    add_data(&rt, &mut file, 100);
    must(&rt, file.extend_from_slice(TABLE_OF_TWO));
    expect_converted(&rt, to_new(file.as_slice(), file.as_slice()));
}

// Checks that `convert_binary` writes and flushes a file without making a value or, if it has to
// make one, leaves the writer unchanged.
fn expect_way(rt: &(impl Abort + AllocGlobal), bytes: &[u8], wanted: Option<&[u8]>) {
    let mut writer = sound(rt);
    let done = must(rt, convert_binary(rt.alloc(), bytes, &mut writer));
    let is_sent = matches!(done, FastPath::Sent);
    same(rt, "whether it is sent", &is_sent, &wanted.is_some());
    let file = wanted.unwrap_or(b"");
    let calls = file.len() as u64 + u64::from(is_sent);
    expect_taken(rt, writer, file, calls, file.len());
}

#[test]
fn tells_how_it_was_converted(rt: HostRuntime) {
    for (bytes, wanted) in [
        (CONVERTED, Some(CONVERTED)),
        (EMPTY, Some(EMPTY)),
        (SETTINGS, Some(CONVERTED)),
        (REPEATED, None),
        (b"{ a = 1; a = 2; }", None),
        (b"( a", None),
    ] {
        expect_way(&rt, bytes, wanted);
    }
}

#[test]
fn stops_where_a_device_fails(rt: HostRuntime) {
    let mut writer = failing(&rt, 20, ErrorKind::PermissionDenied);
    let answer = convert_binary(rt.alloc(), CONVERTED, &mut writer);
    must(&rt, expect_io(answer, ErrorKind::PermissionDenied, None));
    expect_taken(&rt, writer, front(CONVERTED, 20), 21, 0);
    for call in 0..2 {
        let mut writer = sound(&rt);
        let answer = convert_binary(rt.alloc(), broken_file(&rt, call), &mut writer);
        must(&rt, expect_io(answer, ErrorKind::PermissionDenied, Some(0)));
        expect_taken(&rt, writer, b"", 0, 0);
    }
}

#[test]
fn files_that_cannot_be_opened(rt: HostRuntime) {
    remove(&rt, "of_none");
    let said = b"Error: Io\n";
    expect_fault(&rt, "convert @no_folder/in @of_none", said);
    expect_missing(&rt, "of_none");
    // A folder can be opened, but not read.
    expect_fault(&rt, "convert . @of_none", b"Error: Io (offset 0)\n");
    expect_missing(&rt, "of_none");
    put(&rt, "whole", SETTINGS);
    expect_fault(&rt, "convert @whole @no_folder/out", said);
}
