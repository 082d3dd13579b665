//! Proved callers of the reader: it returns its inner reader, counts the failures of a buffered
//! source, looks at no byte after a bracket, and ends a comment at `*/`.

ghost use Rattle.std.specs.Prelude.{◌≡◌, None, false, true};
ghost use Rattle.plist_ascii.specs.AsciiReader.{HasEndedAscii, device_of, peeked_byte};
ghost use Rattle.plist_base.specs.Sources.{CountsIo};
ghost use Rattle.plist_reader.specs.Reader.{buffered_source};
ghost use Rattle.plist_callers.specs.SmallInputs.{comment_and_array};

use plist_ascii::{AsciiReader, ByteReader};
use plist_base::{Error, Event, OwnedEvent, Source};
use plist_reader::BufferedSource;
use std::alloc::Global;

/// Returns the inner reader of a reader that hasn't been called.
pub fn device_again<R: ByteReader>(alloc: Global, device: R) -> R
    ensures { result ≡ device }
{
    AsciiReader::new(alloc, device).into_inner()
}

/// Calls a reader once more and returns its inner reader, which is unchanged if the reader had
/// ended.
pub fn device_after_end<R: ByteReader + Drop>(reader: AsciiReader<R>) -> R
    ensures { HasEndedAscii reader → result ≡ device_of reader }
{
    let mut reader = reader;
    let _item = reader.next();
    reader.into_inner()
}

/// Returns the next item of a reader over a buffered source. The source's count of failures rises
/// if the item is `Io`, and otherwise is unchanged.
pub fn item_and_failures<S: Source>(
    reader: &mut AsciiReader<BufferedSource<S>>,
) -> Option<Result<OwnedEvent, Error>>
    ensures { CountsIo result (S.failures (buffered_source (device_of reader.old)))
        (S.failures (buffered_source (device_of reader.new))) }
{
    reader.next()
}

/// Returns `true` if the next item is the start or the end of a collection. If it is, no byte after
/// it has been looked at.
pub fn comes_to_bracket<R: ByteReader + Drop>(reader: &mut AsciiReader<R>) -> bool
    ensures { result ≡ true → peeked_byte reader.new ≡ None }
{
    match reader.next() {
        Some(Ok(Event::StartArray(_) | Event::StartDictionary(_) | Event::EndCollection)) => true,
        _ => false,
    }
}

/// Reads a comment that begins with `/*/` and contains another star, and the start of an array
/// after the comment. Returns `true` if the first event is a string, as it would be if the comment
/// ended at one of the stars. It never is, since a comment ends at the first `*/` after its own
/// `/*`.
#[tactic(auto, using(crate::proofs::SmallInputs::of_comment_and_array))]
pub fn comment_closed_too_early(alloc: Global, text: &[u8]) -> bool
    requires { text.now ≡ comment_and_array }
    ensures { result ≡ false }
{
    let mut reader = AsciiReader::new(alloc, text);
    match reader.next() {
        Some(Ok(Event::String(_))) => true,
        _ => false,
    }
}
