//! Examples of doc comments: readers, visitors, writers, errors and archives. The doc comments
//! quote the bodies of these functions. What the functions return is printed.

use crate::examples::print_result;
use crate::readers::{SHARED, inner_of_ascii};
use plist::stream::reading::LimitedItems;
use plist::stream::{BinaryReader, Event, EventSource, EventVisitor, Reader, Writer};
use plist::{Builder, Error, ErrorKind, Limit, Limits, Value, write_value};
use plist_keyed::Archive;
use plist_share::SharingWriter;
use std::alloc::Global;
use std::borrow::CowStr;
use std::io;
use std::io::Write;
use std::ops::ControlFlow;

const SETTINGS: &[u8] = b"{ Name = Example; Version = 3; Sizes = (1, 2); Hidden = YES; }";

fn strings_within_limits(alloc: Global, file: &[u8]) -> Result<u64, Error> {
    let limits = Limits {
        depth: 64,
        items: 100_000,
    };
    let mut reader = Reader::with_limits(alloc, file, limits);
    let mut strings: u64 = 0;
    while let Some(item) = reader.next() {
        let event = item?;
        if matches!(event, Event::String(_)) {
            strings = strings.saturating_add(1);
        }
    }
    Ok(strings)
}

fn objects_in(alloc: Global, file: &[u8]) -> usize {
    let mut reader = BinaryReader::new(alloc, file);
    let _first = reader.next();
    reader.objects_in_file()
}

fn value_of_few_bytes(alloc: Global, file: &[u8]) -> Result<Value, Error> {
    let reader = Reader::new(alloc, file);
    Value::from_events(alloc, LimitedItems::within_bytes(reader, 16))
}

// Counts the starts of collections.
#[derive(Drop)]
struct Starts {
    count: u64,
}

impl EventVisitor for Starts {
    // Says nothing of what a call does.
    ghost step = { λ _ _ _ _. Unit {0} };

    fn event(&mut self, event: Event<'_>) -> ControlFlow<()> {
        if let Event::StartArray(_) | Event::StartDictionary(_) = event {
            self.count = self.count.saturating_add(1);
        }
        ControlFlow::Continue(())
    }
}

fn starts_in(alloc: Global, file: &[u8]) -> Result<u64, Error> {
    let mut starts = Starts { count: 0 };
    let mut reader = Reader::new(alloc, file);
    let _visited = reader.visit(&mut starts)?;
    Ok(starts.count)
}

fn one_pair(alloc: Global) -> Result<Value, Error> {
    let mut builder = Builder::new(alloc);
    builder.write_start_dictionary(None)?;
    builder.write_string(CowStr::Borrowed("Enabled"))?;
    builder.write_boolean(true)?;
    builder.write_end_collection()?;
    builder.finish()
}

pub fn shared(alloc: Global, value: &Value) -> Result<Vec<u8>, Error> {
    let mut writer = SharingWriter::new(alloc, Vec::new(alloc));
    let written = write_value(alloc, value, &mut writer);
    let file = writer.into_inner();
    written.map(|()| file)
}

fn is_missing_file(error: &Error) -> bool {
    match error.as_io() {
        Some(failure) => failure.kind() == io::ErrorKind::NotFound,
        None => false,
    }
}

fn is_too_deep(error: &Error) -> bool {
    matches!(error.kind(), ErrorKind::LimitReached(Limit::Depth))
}

fn offset_of_fault(alloc: Global, file: &[u8]) -> Option<u64> {
    match Value::from_reader(alloc, file) {
        Ok(_value) => None,
        Err(error) => error.offset(),
    }
}

// Returns the object that the root of an archive names as its name.
pub fn name_in<'a>(archive: Archive<'a>) -> Option<&'a Value> {
    let root = archive.get(archive.top("root")?)?;
    let name = root.as_dictionary()?.get("name")?.as_uid()?;
    archive.get(*name)
}

fn print_readers<W: Write>(alloc: Global, out: &mut W) -> Result<(), Error> {
    print_result(
        out,
        "strings_within_limits",
        &strings_within_limits(alloc, SETTINGS).ok(),
    )?;
    print_result(out, "objects_in", &objects_in(alloc, SHARED))?;
    print_result(
        out,
        "value_of_few_bytes",
        &value_of_few_bytes(alloc, SETTINGS).is_err(),
    )?;
    print_result(out, "starts_in", &starts_in(alloc, SETTINGS).ok())?;
    print_result(
        out,
        "offset_of_fault",
        &offset_of_fault(alloc, b" <plist/>"),
    )
}

pub fn print<W: Write>(alloc: Global, out: &mut W) -> Result<(), Error> {
    print_readers(alloc, out)?;
    let text: &[u8] = b"(ab)";
    print_result(out, "inner_of_ascii", &inner_of_ascii(alloc, text).len())?;
    print_result(out, "one_pair", &one_pair(alloc).ok())?;
    let deep: Error = ErrorKind::LimitReached(Limit::Depth).without_position();
    print_result(out, "is_too_deep", &is_too_deep(&deep))?;
    let missing = Error::from(io::Error::from(io::ErrorKind::NotFound));
    print_result(out, "is_missing_file", &is_missing_file(&missing))
}
