//! Calls that allocate memory, each while memory is available.

use crate::support::{must, same};
use plist::dictionary::Entry;
use plist::stream::{AsciiReader, BinaryReader, BinaryWriter, Event, OwnedEvent, Reader, Writer};
use plist::{
    Builder, Data, Date, Dialect, Dictionary, Error, ErrorKind, Limits, Uid, Value, write_value,
};
use plist_commands::{convert_binary, print_events, print_value, program_arguments};
use plist_keyed::{Archive, KeyedError};
use plist_share::SharingWriter;
use std::alloc::Global;
use std::borrow::CowStr;
use std::env::Env;
use std::process::Abort;

// The file of the string `ab`, and its ASCII form.
const BINARY: &[u8] = b"bplist00\
    \x52\x61\x62\x08\
    \0\0\0\0\0\0\x01\x01\0\0\0\0\0\0\0\x01\0\0\0\0\0\0\0\0\0\0\0\0\0\0\0\x0b";

const ASCII: &[u8] = b"'ab'";

const LIMITS: Limits = Limits { depth: 9, items: 9 };

// The name of a call, and whether memory ran out for it.
type Call = (&'static str, bool);

// Returns whether memory ran out.
fn ran_out<T: Drop>(answer: Result<T, Error>) -> bool {
    match answer {
        Ok(_) => false,
        Err(error) => matches!(error.kind(), ErrorKind::OutOfMemory),
    }
}

// Returns whether memory ran out for a tree.
fn ran_out_of_tree(answer: Result<Value, KeyedError>) -> bool {
    matches!(answer, Err(KeyedError::OutOfMemory))
}

// Returns whether a call failed, whose only error is that memory ran out.
fn has_failed<T: Drop, E: Drop>(answer: Result<T, E>) -> bool {
    answer.is_err()
}

// Returns whether memory ran out for the first item of a reader.
fn ran_out_at_first<I: Iterator<Item = Result<OwnedEvent, Error>> + Drop>(mut reader: I) -> bool
    requires asked { I.can_next reader }
{
    match reader.next() {
        Some(answer) => ran_out(answer),
        None => false,
    }
}

// Returns whether memory ran out for the first event of a writer.
fn ran_out_writing<W: Writer + Drop>(mut writer: W, event: Event<'_>) -> bool {
    ran_out(writer.write(event))
}

fn readers(alloc: Global) -> [Call; 5] {
    let limited = BinaryReader::with_limits(alloc, BINARY, LIMITS);
    [
        (
            "BinaryReader",
            ran_out_at_first(BinaryReader::new(alloc, BINARY)),
        ),
        ("limited BinaryReader", ran_out_at_first(limited)),
        (
            "AsciiReader",
            ran_out_at_first(AsciiReader::new(alloc, ASCII)),
        ),
        ("Reader", ran_out_at_first(Reader::new(alloc, BINARY))),
        (
            "Reader of ASCII",
            ran_out_at_first(Reader::new(alloc, ASCII)),
        ),
    ]
}

// Returns a copy of a value.
fn copied(alloc: Global, value: Value) -> Result<Value, Error> {
    let copy = value.clone(alloc);
    drop(value);
    copy
}

fn read_values(alloc: Global) -> [Call; 9] {
    let limited = Value::from_reader_with_limits(alloc, BINARY, LIMITS);
    let within = Value::from_reader_within(alloc, BINARY, LIMITS, 9);
    let tight = Value::from_reader_with_dialect(alloc, ASCII, Dialect::Tight);
    let tight_ascii = Value::from_reader_ascii_with_dialect(alloc, ASCII, Dialect::Tight);
    let events = [Ok(Event::Boolean(true))];
    [
        ("from_reader", ran_out(Value::from_reader(alloc, BINARY))),
        ("from_reader_with_limits", ran_out(limited)),
        ("from_reader_within", ran_out(within)),
        ("from_reader_with_dialect", ran_out(tight)),
        ("from_reader_ascii_with_dialect", ran_out(tight_ascii)),
        (
            "from_reader_ascii",
            ran_out(Value::from_reader_ascii(alloc, ASCII)),
        ),
        ("from_events", ran_out(Value::from_events(alloc, events))),
        ("try_from_str", ran_out(Value::try_from_str(alloc, "ab"))),
        (
            "clone",
            ran_out(copied(alloc, Value::Array(Vec::new(alloc)))),
        ),
    ]
}

fn writers(alloc: Global) -> [Call; 3] {
    let binary = BinaryWriter::new(alloc, Vec::new(alloc));
    let sharing = SharingWriter::new(alloc, Vec::new(alloc));
    [
        (
            "Builder",
            ran_out_writing(Builder::new(alloc), Event::StartArray(None)),
        ),
        (
            "BinaryWriter",
            ran_out_writing(binary, Event::Boolean(true)),
        ),
        (
            "SharingWriter",
            ran_out_writing(sharing, Event::Boolean(true)),
        ),
    ]
}

fn written_values(alloc: Global) -> [Call; 3] {
    let (value, mut out) = (Value::Array(Vec::new(alloc)), Vec::new(alloc));
    let mut builder = Builder::new(alloc);
    let calls = [
        (
            "to_writer_binary",
            ran_out(value.to_writer_binary(alloc, &mut out)),
        ),
        (
            "write_value",
            ran_out(write_value(alloc, &value, &mut builder)),
        ),
        ("print_value", ran_out(print_value(alloc, &value, &mut out))),
    ];
    drop(value);
    drop(builder);
    calls
}

fn key(rt: &(impl Abort + AllocGlobal), key: &str) -> String {
    must(rt, String::from_str(rt.alloc(), key))
}

fn dictionaries(rt: &(impl Abort + AllocGlobal)) -> [Call; 5] {
    let (first, second, third) = (key(rt, "a"), key(rt, "b"), key(rt, "c"));
    let mut pairs = Dictionary::new(rt.alloc());
    let insert = has_failed(pairs.insert(first, Value::Boolean(true)));
    let or_insert = has_failed(pairs.entry(second).or_insert(Value::Boolean(true)));
    let calls = [
        ("insert", insert),
        ("or_insert", or_insert),
        (
            "extend",
            ran_out(pairs.extend([(third, Value::Boolean(true))])),
        ),
        ("sort_keys", ran_out(pairs.sort_keys())),
        ("clone of a dictionary", ran_out(pairs.clone())),
    ];
    drop(pairs);
    calls
}

// Returns whether an insert into an entry failed. The entry must be vacant.
fn fails_to_insert(entry: Entry<'_>) -> bool {
    match entry {
        Entry::Vacant(vacant) => has_failed(vacant.insert(Value::Boolean(true))),
        Entry::Occupied(_) => true,
    }
}

fn entries(rt: &(impl Abort + AllocGlobal)) -> [Call; 3] {
    let (first, second, third) = (key(rt, "a"), key(rt, "b"), key(rt, "c"));
    let mut pairs = Dictionary::new(rt.alloc());
    let vacant = fails_to_insert(pairs.entry(first));
    let or_insert_with = has_failed(pairs.entry(second).or_insert_with(|| Value::Boolean(true)));
    let made = Dictionary::from_pairs(rt.alloc(), [(third, Value::Boolean(true))]);
    drop(pairs);
    [
        ("insert of a vacant entry", vacant),
        ("or_insert_with", or_insert_with),
        ("from_pairs", ran_out(made)),
    ]
}

fn events(alloc: Global) -> [Call; 2] {
    let event = Event::String(CowStr::Borrowed("ab"));
    let copy = ran_out(event.clone(alloc));
    [
        ("clone of an event", copy),
        ("into_owned", ran_out(event.into_owned(alloc))),
    ]
}

fn texts(rt: &(impl Abort + AllocGlobal)) -> [Call; 4] {
    let date = must(rt, Date::from_plist_real([0; 8]));
    let data = Data::new(must(rt, Vec::from_slice(rt.alloc(), b"ab")));
    let read = Data::from_xml_format(rt.alloc(), "YWI=");
    let calls = [
        ("text of data", ran_out(data.to_xml_format(rt.alloc()))),
        ("clone of data", ran_out(data.clone())),
        ("data of a text", has_failed(read)),
        ("text of a date", ran_out(date.to_xml_format(rt.alloc()))),
    ];
    drop(data);
    calls
}

fn commands(rt: &(impl AllocGlobal + Env)) -> [Call; 3] {
    let (alloc, mut out) = (rt.alloc(), Vec::new(rt.alloc()));
    [
        (
            "print_events",
            ran_out(print_events(alloc, BINARY, &mut out)),
        ),
        (
            "convert_binary",
            ran_out(convert_binary(alloc, BINARY, &mut out)),
        ),
        ("program_arguments", ran_out(program_arguments(rt, alloc))),
    ]
}

// Makes the tree of an array in an archive.
fn archives(rt: &(impl Abort + AllocGlobal)) -> [Call; 1] {
    let text = b"{ '$objects' = ( '$null', () ); '$top' = { }; }".as_slice();
    let root = must(rt, Value::from_reader_ascii(rt.alloc(), text));
    let answer = must(rt, Archive::open(&root)).tree(rt.alloc(), Uid::new(1));
    drop(root);
    [("tree", ran_out_of_tree(answer))]
}

// Returns the name of the first call for which memory ran out, or an empty string if there is none.
fn first_of(calls: &[Call]) -> &'static str {
    for (name, has_run_out) in calls {
        if *has_run_out {
            return name;
        }
    }
    ""
}

// No call returns `OutOfMemory` while memory is available.
#[test]
fn always_out_of_memory(rt: HostRuntime) {
    let alloc = rt.alloc();
    let found = [
        first_of(&readers(alloc)),
        first_of(&read_values(alloc)),
        first_of(&writers(alloc)),
        first_of(&written_values(alloc)),
        first_of(&dictionaries(&rt)),
        first_of(&entries(&rt)),
        first_of(&events(alloc)),
        first_of(&texts(&rt)),
        first_of(&commands(&rt)),
        first_of(&archives(&rt)),
    ];
    same(&rt, "the calls", &found, &[""; 10]);
}
