//! Writers: the calls of the trait, and its implementations.

use crate::events::event_at;
use plist::Builder;
use plist_base::{Date, Error, Event, Integer, RealBits, Sealed, Sink, Uid, Writer, copy_events};
use plist_binread::BinaryReader;
use plist_binwrite::{BinaryWriter, FileWriter, Sharing, forms};
use plist_share::SharingWriter;
use std::alloc::Global;
use std::borrow::{CowSlice, CowStr};
use std::io::Write;

pub fn is_sealed<T: Sealed>(_writer: &T) {}

// Writes an array that contains a value of each of the other eight kinds, by the ten methods.
pub fn write_each<W: Writer>(writer: &mut W, date: Date) -> Result<(), Error> {
    is_sealed(writer);
    writer.write_start_array(Some(8))?;
    writer.write_boolean(true)?;
    writer.write_data(CowSlice::Borrowed(b"\x00\xff"))?;
    writer.write_date(date)?;
    writer.write_integer(Integer::from(5_i64))?;
    writer.write_real(RealBits::Four([0x3f, 0xc0, 0, 0]))?;
    writer.write_string(CowStr::Borrowed("x"))?;
    writer.write_uid(Uid::new(4))?;
    writer.write_start_dictionary(None)?;
    writer.write_end_collection()?;
    writer.write_end_collection()
}

// Writes an array in which all ten kinds of events occur, each event by `write`.
pub fn write_events<W: Writer>(writer: &mut W) -> Result<(), Error> {
    for number in 0..=10_u8 {
        if let Some(event) = event_at(number) {
            let done: Result<(), Error> = writer.write(event);
            done?;
        }
    }
    Ok(())
}

pub fn built(alloc: Global) -> Result<plist::Value, Error> {
    let mut builder: Builder = Builder::new(alloc);
    write_events(&mut builder)?;
    builder.finish()
}

// Writes an array of two arrays, each of which contains one string.
fn array_of_arrays<W: Writer>(writer: &mut W) -> Result<(), Error> {
    writer.write(Event::StartArray(None))?;
    for _ in 0..2 {
        writer.write(Event::StartArray(None))?;
        writer.write(Event::String(CowStr::Borrowed("x")))?;
        writer.write(Event::EndCollection)?;
    }
    writer.write(Event::EndCollection)
}

fn file_by<S: Sharing>(mut writer: FileWriter<Vec<u8>, S>) -> Result<Vec<u8>, Error> {
    let done = array_of_arrays(&mut writer);
    let file = writer.into_inner();
    done?;
    Ok(file)
}

pub fn binary(alloc: Global) -> Result<Vec<u8>, Error> {
    let writer: BinaryWriter<Vec<u8>> = BinaryWriter::new(alloc, Vec::new(alloc));
    file_by(writer)
}

pub fn shared(alloc: Global) -> Result<Vec<u8>, Error> {
    let writer: SharingWriter<Vec<u8>> = SharingWriter::new(alloc, Vec::new(alloc));
    file_by(writer)
}

// Reads a file, and writes it again.
pub fn copied(alloc: Global, file: &[u8]) -> Result<Vec<u8>, Error> {
    let mut reader = BinaryReader::new(alloc, file);
    let mut writer = BinaryWriter::new(alloc, Vec::new(alloc));
    let done: Result<(), Error> = copy_events(&mut reader, &mut writer);
    done?;
    Ok(writer.into_inner())
}

// Writes the object of a Boolean by itself.
pub fn put_true(sink: &mut Sink<'_, Vec<u8>>) -> Result<(), Error> {
    forms::put_boolean(sink, true);
    sink.finish()
}

// Prints a line with a name and bytes in hexadecimal.
pub fn print_bytes<W: Write>(out: &mut W, name: &str, bytes: &[u8]) -> Result<(), Error> {
    write!(out, "{name}: ")?;
    for byte in bytes {
        write!(out, "{byte:02x}")?;
    }
    writeln!(out)?;
    Ok(())
}

pub fn print<W: Write>(alloc: Global, out: &mut W) -> Result<(), Error> {
    let file = binary(alloc)?;
    print_bytes(out, "binary", file.as_slice())?;
    print_bytes(out, "shared", shared(alloc)?.as_slice())?;
    print_bytes(out, "copied", copied(alloc, file.as_slice())?.as_slice())
}
