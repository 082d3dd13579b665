//! The format that the first bytes of an input indicate.

ghost use Rattle.std.specs.Prelude.{◌≡◌, ◌+◌, ◌-◌, ◌<◌, nat_eq, slice_get, Some};
ghost use Rattle.std.specs.List.{starts_with};
ghost use Rattle.plist_base.specs.Faults.{Io, fault_at};
ghost use Rattle.plist_base.specs.Outcomes.{OnlyFault, DecodesBy};
ghost use Rattle.plist_base.specs.Sources.{CountsIo};
ghost use Rattle.plist_decode.specs.Formats.{ReadsMeaning, is_white, input_front, xml_place, format_of};

use plist_base::marker::MAGIC;
use plist_base::{Error, ErrorKind, Source, read_exact_at};

const MARK: &[u8; 3] = b"\xef\xbb\xbf";

/// The format of a property list, as indicated by its first bytes.
#[derive(Clone, Copy, Debug, PartialEq, Eq)]
pub enum Format {
    /// Binary: the bytes begin with `bplist00`.
    Binary,
    /// XML: the first byte after an optional byte order mark and white space is `<`, at the given
    /// offset.
    Xml(u64),
    /// ASCII: anything else.
    Ascii,
}

// Returns whether the source begins with these bytes.
fn begins_with<S: Source, const N: usize>(source: &mut S, front: &[u8; N]) -> Result<bool, Error>
    ensures { ReadsMeaning S.known S.failures (λ b. starts_with nat_eq b front.now) source.old
        result source.new }
{
    let mut found = [0; N];
    match read_exact_at(source, 0, &mut found) {
        Ok(()) => Ok(front.as_slice() == found.as_slice()),
        Err(error) => {
            if error.is_io() {
                return Err(error);
            }
            Ok(false)
        }
    }
}

// Reads the byte at an offset, or returns `None` if the source ends before it. An I/O error has the
// offset.
fn byte_at<S: Source>(source: &mut S, place: u64) -> Result<Option<u8>, Error>
    ensures byte { DecodesBy result (S.known source.old) (λ bytes. slice_get bytes place) }
    ensures refused { OnlyFault result (fault_at Io place) }
    ensures unchanged { S.known source.new ≡ S.known source.old }
    ensures failures { CountsIo (Some result) (S.failures source.old) (S.failures source.new) }
{
    let mut buffer = [0u8; 1];
    match source.read_at(place, &mut buffer) {
        Ok(0) => Ok(None),
        Ok(_) => Ok(Some(buffer[0])),
        Err(failure) => Err(ErrorKind::Io(failure).with_byte_offset(place)),
    }
}

// Returns whether the byte is white space.
fn is_white(byte: u8) -> bool
    ensures { result ≡ is_white byte }
{
    matches!(byte, b'\t' | b'\n' | 0x0c | b'\r' | b' ')
}

// Returns the offset of the first byte from `start` on that isn't white space, if it is `<`.
fn xml_place<S: Source>(source: &mut S, start: u64) -> Result<Option<u64>, Error>
    ensures { ReadsMeaning S.known S.failures (λ b. xml_place start (input_front b)) source.old
        result source.new }
{
    let mut place = start;
    'white: while place < u64::MAX {
        let Some(byte) = byte_at(source, place)? else {
            return Ok(None);
        };
        if !is_white(byte) {
            return Ok((byte == b'<').then_some(place));
        }
        place += 1;
    }
    Ok(None)
}

/// Determines the format that a source's first bytes indicate.
///
/// # Errors
///
/// `Io`, with the offset of the failed read.
///
/// # Examples
///
/// ```rust
/// let format = format_of(&mut fs::read(rt, FILE)?)?;
/// Ok(format!(in alloc; "{format:?}")?)
/// ```
pub fn format_of<S: Source>(source: &mut S) -> Result<Format, Error>
    ensures { ReadsMeaning S.known S.failures format_of source.old
        result source.new }
{
    if begins_with(source, MAGIC)? {
        return Ok(Format::Binary);
    }
    let start = if begins_with(source, MARK)? { 3 } else { 0 };
    match xml_place(source, start)? {
        Some(place) => Ok(Format::Xml(place)),
        None => Ok(Format::Ascii),
    }
}
