//! Keyed archives.

use crate::events::print_items;
use crate::examples::print_result;
use crate::stream_examples::name_in;
use crate::traits::{is_debug, is_display, is_error};
use plist::{Builder, Value};
use plist_base::{Error, Event, Uid, Writer};
use plist_keyed::{Archive, KeyedError};
use std::alloc::Global;
use std::borrow::CowStr;
use std::fmt;
use std::io::Write;

// Returns the event at this index, of an archive whose objects are `$null`, a dictionary of two
// Uids, and a string.
fn event_at(number: u8) -> Option<Event<'static>> {
    match number {
        0 => Some(Event::StartDictionary(None)),
        1 => Some(Event::String(CowStr::Borrowed("$objects"))),
        2 => Some(Event::StartArray(None)),
        3 => Some(Event::String(CowStr::Borrowed("$null"))),
        4 => Some(Event::StartDictionary(None)),
        5 => Some(Event::String(CowStr::Borrowed("name"))),
        6 => Some(Event::Uid(Uid::new(2))),
        7 => Some(Event::String(CowStr::Borrowed("next"))),
        8 => Some(Event::Uid(Uid::new(0))),
        9 => Some(Event::EndCollection),
        10 => Some(Event::String(CowStr::Borrowed("x"))),
        11 => Some(Event::EndCollection),
        12 => Some(Event::String(CowStr::Borrowed("$top"))),
        13 => Some(Event::StartDictionary(None)),
        14 => Some(Event::String(CowStr::Borrowed("root"))),
        15 => Some(Event::Uid(Uid::new(1))),
        16 => Some(Event::EndCollection),
        17 => Some(Event::EndCollection),
        _ => None,
    }
}

fn example(alloc: Global) -> Result<Value, Error> {
    let mut builder = Builder::new(alloc);
    for number in 0..=17_u8 {
        if let Some(event) = event_at(number) {
            builder.write(event)?;
        }
    }
    builder.finish()
}

pub fn number_of(error: KeyedError) -> Option<u64> {
    is_debug(&error);
    is_display(&error);
    is_error(&error);
    match error {
        KeyedError::NotAnArchive => None,
        KeyedError::UidOutOfRange(number) => Some(number),
        KeyedError::RecursiveUid(number) => Some(number),
        KeyedError::OutOfMemory => None,
    }
}

// Returns the tree of an archive's root.
pub fn root_of(alloc: Global, root: &Value) -> Result<Option<Value>, KeyedError> {
    let archive: Archive<'_> = Archive::open(root)?;
    let top: Option<Uid> = archive.top("root");
    match top {
        None => Ok(None),
        Some(uid) => {
            let _object: Option<&Value> = archive.get(uid);
            let tree: Result<Value, KeyedError> = archive.tree(alloc, uid);
            Ok(Some(tree?))
        }
    }
}

// Prints the events of an archive's tree.
fn print_tree<W: Write>(alloc: Global, out: &mut W, tree: &Value) -> Result<(), Error> {
    let mut file = Vec::new(alloc);
    tree.to_writer_binary(alloc, &mut file)?;
    print_items(out, "archive", plist::Reader::new(alloc, file))
}

// Prints why there is no tree.
fn print_reason<W: Write, T: fmt::Display>(out: &mut W, reason: &T) -> Result<(), Error> {
    Ok(writeln!(out, "archive: {reason}")?)
}

// Prints the tree of an archive's root, or the error.
fn print_root<W: Write>(alloc: Global, out: &mut W, root: &Value) -> Result<(), Error> {
    match root_of(alloc, root) {
        Ok(Some(tree)) => print_tree(alloc, out, &tree),
        Ok(None) => print_reason(out, &"no root"),
        Err(error) => print_reason(out, &error),
    }
}

// Prints the name of an archive's root.
fn print_name<W: Write>(out: &mut W, root: &Value) -> Result<(), Error> {
    let Ok(archive) = Archive::open(root) else {
        return Ok(());
    };
    print_result(out, "name_in", &name_in(archive))
}

pub fn print<W: Write>(alloc: Global, out: &mut W) -> Result<(), Error> {
    let root = example(alloc)?;
    print_root(alloc, out, &root)?;
    print_name(out, &root)
}
