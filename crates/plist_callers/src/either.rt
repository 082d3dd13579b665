//! Proved callers of the reader: what it yields after its end, that an I/O error has an offset, how
//! many objects it reports, and that a short input has a format.

ghost use Rattle.std.specs.Prelude.{◌≡◌, ◌≤◌, false, true};
ghost use Rattle.plist_binread.specs.Remaining.{objects_in_head};

use plist_base::{ErrorKind, Source};
use plist_reader::{Reader, format_of};
use std::alloc::Global;

/// Returns `true` if an item follows the end, or an error of a kind that ASCII text can't have. It
/// never does.
pub fn comes_after_end<R: Source>(reader: &mut Reader<R>) -> bool
    ensures { result ≡ false }
{
    match reader.next() {
        None => reader.next().is_some(),
        Some(Err(error)) => match error.kind() {
            ErrorKind::UnclosedString
            | ErrorKind::IncompleteComment
            | ErrorKind::InvalidUtf8AsciiStream
            | ErrorKind::InvalidOctalString
            | ErrorKind::InvalidUtf16String => false,
            _ => reader.next().is_some(),
        },
        Some(Ok(_event)) => false,
    }
}

/// Returns `true` if the next item has an offset or isn't an I/O error, which is always true.
pub fn has_its_place<R: Source>(reader: &mut Reader<R>) -> bool
    ensures { result ≡ true }
{
    match reader.next() {
        Some(Err(error)) => !error.is_io() || error.offset().is_some(),
        Some(Ok(_event)) => true,
        None => true,
    }
}

/// Returns how many objects a reader reports before its first call and after it. The first number
/// is 0, and the second is at most the number in the head of a binary file.
pub fn count_in_either(alloc: Global, bytes: &[u8]) -> (usize, usize)
    ensures before { result.0 ≡ 0 }
    ensures after { result.1 ≤ objects_in_head bytes.now }
{
    let mut reader = Reader::new(alloc, bytes);
    let before = reader.objects_in_file();
    drop(reader.next());
    (before, reader.objects_in_file())
}

/// Returns `true` if an item follows the error for XML, or that for a collection that contains
/// itself. It never does.
pub fn comes_after_refusal<R: Source>(reader: &mut Reader<R>) -> bool
    ensures { result ≡ false }
{
    match reader.next() {
        Some(Err(error)) => match error.kind() {
            ErrorKind::XmlUnsupported | ErrorKind::RecursiveObject => reader.next().is_some(),
            _ => false,
        },
        Some(Ok(_event)) => false,
        None => false,
    }
}

/// Returns `true` if a reader yields an error that only a writer has. It never does.
pub fn fails_as_a_writer<R: Source>(reader: &mut Reader<R>) -> bool
    ensures { result ≡ false }
{
    match reader.next() {
        Some(Err(error)) => {
            matches!(
                error.kind(),
                ErrorKind::WriterFailed | ErrorKind::PlistTooLarge
            )
        }
        Some(Ok(_event)) => false,
        None => false,
    }
}

/// Returns `true` if the second item of a reader without limits is `LimitReached`. It never is.
pub fn reaches_a_limit<R: Source>(alloc: Global, source: R) -> bool
    ensures { result ≡ false }
{
    let mut reader = Reader::new(alloc, source);
    drop(reader.next());
    let is_limit = match reader.next() {
        Some(Err(error)) => matches!(error.kind(), ErrorKind::LimitReached(_)),
        Some(Ok(_event)) => false,
        None => false,
    };
    drop(reader);
    is_limit
}

/// Determines the format of a source, and returns `true` if that fails because the source ends too
/// early. It never does, since a source that is shorter than the magic isn't binary.
pub fn refuses_short_input<R: Source>(source: &mut R) -> bool
    ensures { result ≡ false }
{
    match format_of(source) {
        Ok(_) => false,
        Err(error) => error.is_eof(),
    }
}
