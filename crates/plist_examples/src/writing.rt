//! What `BinaryWriter` and `SharingWriter` write, byte by byte, and what is read back.

use crate::rows::{Row, bytes_given, first_number, first_word, unreadable};
use crate::values::expect_written;
use crate::words::{value_of, words_of_answer, words_of_value};
use crate::writes::{Sending, Way, expect_file_on_devices};
use plist::{Builder, Value, write_value};
use plist_base::Error;
use plist_binread::BinaryReader;
use plist_binwrite::{BinaryWriter, EqualScalars, FileWriter, Sharing};
use plist_share::{EqualTrees, SharingWriter};
use plist_support::{
    DeviceFault, Wrong, expect_answers, expect_bytes, expect_ok, expect_same, words_of, write_all,
};
use std::alloc::Global;
use std::io::ErrorKind;

// Checks that a writer wrote these bytes, after a check of what its calls returned.
fn expect_taken<S: Sharing>(
    alloc: Global,
    writer: FileWriter<Vec<u8>, S>,
    answered: Result<(), Wrong>,
    bytes: &[u8],
) -> Result<(), Wrong> {
    let found = writer.into_inner();
    answered?;
    expect_bytes(alloc, found.as_slice(), bytes)
}

// Checks that a writer writes this file for these events.
fn expect_events_written<S: Sharing>(
    alloc: Global,
    mut writer: FileWriter<Vec<u8>, S>,
    words: &str,
    bytes: &[u8],
) -> Result<(), Wrong> {
    let written = write_all(alloc, &mut writer, words);
    expect_taken(alloc, writer, written, bytes)
}

// Checks that a file has these events.
fn expect_read(alloc: Global, bytes: &[u8], words: &str) -> Result<(), Wrong> {
    let read = words_of(alloc, BinaryReader::new(alloc, bytes))?;
    expect_same(alloc, read.as_str(), words)
}

// Checks that the value of a file has these events.
fn expect_value_read(alloc: Global, bytes: &[u8], words: &str) -> Result<(), Wrong> {
    let read = Value::from_events(alloc, BinaryReader::new(alloc, bytes));
    expect_same(alloc, words_of_answer(alloc, read)?.as_str(), words)
}

// Checks that the events of these words are written as this file. The lengths of the starts may be
// wrong.
fn expect_hinted(alloc: Global, words: &str, bytes: &[u8]) -> Result<(), Wrong> {
    let writer = BinaryWriter::new(alloc, Vec::new(alloc));
    expect_events_written(alloc, writer, words, bytes)
}

// Checks that the events of these words are written as this file, and read back.
fn expect_events(alloc: Global, words: &str, bytes: &[u8]) -> Result<(), Wrong> {
    expect_hinted(alloc, words, bytes)?;
    expect_read(alloc, bytes, words)
}

// Writes the events, or their value, to devices with a fault, in each of these ways.
fn expect_sent<S: Sharing>(
    alloc: Global,
    words: &str,
    bytes: &[u8],
    fault: DeviceFault,
    ways: &[Way],
) -> Result<(), Wrong> {
    let value = value_of(alloc, words)?;
    let sending = Sending {
        words,
        value: &value,
        bytes,
        fault,
        ways,
    };
    let sent = expect_file_on_devices::<S>(alloc, sending);
    drop(value);
    sent
}

const INTERRUPTED: DeviceFault = DeviceFault::Fails(ErrorKind::Interrupted);

// The ways in which `BinaryWriter` writes, and those in which `SharingWriter` does.
const PLAIN: [Way; 3] = [Way::Events, Way::Handed, Way::Whole];

const SHARED: [Way; 2] = [Way::Events, Way::Handed];

// Checks that events that aren't a value's are written as this file, also to devices, and that they
// are read back.
fn expect_repeating(alloc: Global, words: &str, bytes: &[u8]) -> Result<(), Wrong> {
    expect_events(alloc, words, bytes)?;
    expect_sent::<EqualScalars>(alloc, words, bytes, INTERRUPTED, &[Way::Events])
}

// Checks that the events and their value are written as this file, also to devices, and that both
// are read back.
fn expect_file(alloc: Global, words: &str, bytes: &[u8]) -> Result<(), Wrong> {
    expect_events(alloc, words, bytes)?;
    expect_value_read(alloc, bytes, words)?;
    expect_written(alloc, value_of(alloc, words)?, bytes)?;
    expect_sent::<EqualScalars>(alloc, words, bytes, INTERRUPTED, &PLAIN)
}

// Checks the events of a value.
fn expect_value(alloc: Global, value: &Value, words: &str) -> Result<(), Wrong> {
    expect_same(alloc, words_of_value(alloc, value)?.as_str(), words)
}

// Checks that a value has these events in order, and that the sharing writer writes it as this
// file.
fn expect_value_shared(
    alloc: Global,
    value: &Value,
    words: &str,
    bytes: &[u8],
) -> Result<(), Wrong> {
    expect_value(alloc, value, words)?;
    let mut writer = SharingWriter::new(alloc, Vec::new(alloc));
    let written = expect_ok(alloc, write_value(alloc, value, &mut writer));
    expect_taken(alloc, writer, written, bytes)
}

// Checks that the value of a file has these events in order, and that the sharing writer writes it
// as the same file.
fn expect_shared_again(alloc: Global, words: &str, bytes: &[u8]) -> Result<(), Wrong> {
    let value = expect_ok(alloc, Value::from_reader(alloc, bytes))?;
    let shared = expect_value_shared(alloc, &value, words, bytes);
    drop(value);
    shared
}

// Checks that the sharing writer writes the events of these words as this file, also to devices,
// that they are read back, and that the file's value is written as the same file.
fn expect_shared(alloc: Global, words: &str, bytes: &[u8]) -> Result<(), Wrong> {
    let writer = SharingWriter::new(alloc, Vec::new(alloc));
    expect_events_written(alloc, writer, words, bytes)?;
    expect_read(alloc, bytes, words)?;
    expect_shared_again(alloc, words, bytes)?;
    expect_sent::<EqualTrees>(alloc, words, bytes, INTERRUPTED, &SHARED)
}

// Returns the value that a builder makes of the events of a value.
fn rebuilt(alloc: Global, builder: &mut Builder, value: Value) -> Result<Value, Error> {
    let written = write_value(alloc, &value, builder);
    drop(value);
    written?;
    builder.finish()
}

// Checks that a value of an ASCII property list can be rebuilt by a builder.
fn expect_rebuilt(alloc: Global, row: Row<'_>) -> Result<(), Wrong> {
    let bytes = bytes_given(alloc, row.given)?;
    let value = expect_ok(alloc, Value::from_reader_ascii(alloc, bytes.as_slice()))?;
    let mut builder = Builder::new(alloc);
    let again = rebuilt(alloc, &mut builder, value);
    drop(builder);
    let again = expect_ok(alloc, again)?;
    let has_words = expect_value(alloc, &again, row.wanted);
    drop(again);
    has_words
}

// Returns the fault of this name.
fn fault_of(alloc: Global, name: &str) -> Result<DeviceFault, Wrong> {
    match name {
        "Interrupted" => Ok(DeviceFault::Fails(ErrorKind::Interrupted)),
        "TimedOut" => Ok(DeviceFault::Fails(ErrorKind::TimedOut)),
        "PermissionDenied" => Ok(DeviceFault::Fails(ErrorKind::PermissionDenied)),
        "StorageFull" => Ok(DeviceFault::Fails(ErrorKind::StorageFull)),
        "MovesNothing" => Ok(DeviceFault::MovesNothing),
        _ => unreadable(alloc, name),
    }
}

// Writes events to devices with a fault. The input has the fault's name, and then the events.
fn expect_faulty<S: Sharing>(
    alloc: Global,
    given: &str,
    bytes: &[u8],
    ways: &[Way],
) -> Result<(), Wrong> {
    let (name, words) = first_word(given);
    let fault = fault_of(alloc, name)?;
    expect_sent::<S>(alloc, words, bytes, fault, ways)
}

// Returns the text before, inside and after the first parentheses, or `None` if there are none.
fn parts_of(field: &str) -> Option<(&str, &str, &str)> {
    let (before, rest) = field.split_once('(')?;
    let (within, following) = rest.split_once(')')?;
    Some((before, within, following))
}

// Expands a field in which `(00*3)` stands for `000000`.
fn repeated(alloc: Global, field: &str) -> Result<String, Wrong> {
    let Some((before, within, following)) = parts_of(field) else {
        return unreadable(alloc, field);
    };
    let Some((part, times)) = within.split_once('*') else {
        return unreadable(alloc, field);
    };
    let (times, _) = first_number(alloc, times)?;
    let mut whole = String::from_str(alloc, before)?;
    for _ in 0..times {
        whole.push_str(part)?;
    }
    whole.push_str(following)?;
    Ok(whole)
}

// Runs an example with parentheses in the words and in the file, for both writers.
fn expect_repeated(alloc: Global, row: Row<'_>) -> Result<(), Wrong> {
    let words = repeated(alloc, row.given)?;
    let file = repeated(alloc, row.wanted)?;
    let bytes = bytes_given(alloc, file.as_str())?;
    expect_file(alloc, words.as_str(), bytes.as_slice())?;
    expect_shared(alloc, words.as_str(), bytes.as_slice())
}

// Checks what a writer returns for the events, and the bytes written by then.
fn expect_answered<S: Sharing>(alloc: Global, row: Row<'_>) -> Result<(), Wrong> {
    let Some((answers, given)) = row.wanted.split_once(" => ") else {
        return unreadable(alloc, row.wanted);
    };
    let bytes = bytes_given(alloc, given)?;
    let mut writer = FileWriter::<Vec<u8>, S>::new(alloc, Vec::new(alloc));
    let answered = expect_answers(alloc, &mut writer, row.given, answers);
    expect_taken(alloc, writer, answered, bytes.as_slice())
}

// Runs a check of what is written for the events.
fn run_check(alloc: Global, row: Row<'_>) -> Result<(), Wrong> {
    let bytes = bytes_given(alloc, row.wanted)?;
    let (words, bytes) = (row.given, bytes.as_slice());
    match row.check {
        "written" => expect_file(alloc, words, bytes),
        "written of events" => expect_repeating(alloc, words, bytes),
        "hinted" => expect_hinted(alloc, words, bytes),
        "faulty" => expect_faulty::<EqualScalars>(alloc, words, bytes, &PLAIN),
        "sharing faulty" => expect_faulty::<EqualTrees>(alloc, words, bytes, &SHARED),
        "shared" => expect_shared(alloc, words, bytes),
        _ => unreadable(alloc, row.check),
    }
}

/// Runs an example of what is written.
pub(crate) fn run(alloc: Global, row: Row<'_>) -> Result<(), Wrong> {
    match row.check {
        "repeated" => expect_repeated(alloc, row),
        "rebuilt" => expect_rebuilt(alloc, row),
        "answered" => expect_answered::<EqualScalars>(alloc, row),
        "sharing answered" => expect_answered::<EqualTrees>(alloc, row),
        _ => run_check(alloc, row),
    }
}
