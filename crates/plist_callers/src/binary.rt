//! Proved callers of a reader: how many objects it reports, what it yields after an error, and that
//! it doesn't call its source after the end.

ghost use Rattle.std.specs.Prelude.{◌≡◌, ◌≤◌, ◌⊎◌, None, IfSome, false};
ghost use Rattle.plist_binread.specs.BinaryReader.{HasEndedBinary, binary_source};
ghost use Rattle.plist_binread.specs.Remaining.{objects_in_head};

use plist_base::{Error, ErrorKind, OwnedEvent, Source};
use plist_binread::BinaryReader;
use std::alloc::Global;

/// Returns how many objects a reader reports before its first call and after it. The first number
/// is 0, and the second is at most the number in the file's head.
pub fn count_objects(alloc: Global, bytes: &[u8]) -> (usize, usize)
    ensures before { result.0 ≡ 0 }
    ensures after { result.1 ≤ objects_in_head bytes.now }
{
    let mut reader = BinaryReader::new(alloc, bytes);
    let before = reader.objects_in_file();
    drop(reader.next());
    (before, reader.objects_in_file())
}

/// Returns the number of objects in a file whose root isn't one of them. It is the number in the
/// head.
pub fn count_without_root(alloc: Global, bytes: &[u8]) -> Option<usize>
    ensures { IfSome result (λ count. count ≡ objects_in_head bytes.now) }
{
    let mut reader = BinaryReader::new(alloc, bytes);
    match reader.next() {
        Some(Err(error)) => match error.kind() {
            ErrorKind::ObjectReferenceTooLarge => Some(reader.objects_in_file()),
            _ => None,
        },
        Some(Ok(_event)) => None,
        None => None,
    }
}

/// Returns the item after an error, even after `LimitReached` or `Io`. There is none.
pub fn next_after_a_fault<R: Source>(
    reader: &mut BinaryReader<R>,
) -> Option<Result<OwnedEvent, Error>>
    ensures { result ≡ None }
{
    match reader.next() {
        Some(Err(_error)) => reader.next(),
        Some(Ok(_event)) => None,
        None => None,
    }
}

/// Returns `true` if the second item of a reader without limits is `LimitReached`. It never is,
/// whatever the source does.
pub fn reaches_a_limit<R: Source>(alloc: Global, source: R) -> bool
    ensures { result ≡ false }
{
    let mut reader = BinaryReader::new(alloc, source);
    drop(reader.next());
    let is_limit = match reader.next() {
        Some(Err(error)) => matches!(error.kind(), ErrorKind::LimitReached(_)),
        Some(Ok(_event)) => false,
        None => false,
    };
    drop(reader);
    is_limit
}

/// Calls a reader once, and returns how many objects it reports before and after a further call.
/// Both numbers are equal.
pub fn count_again<R: Source>(reader: &mut BinaryReader<R>) -> (usize, usize)
    ensures { result.0 ≡ result.1 }
{
    drop(reader.next());
    let before = reader.objects_in_file();
    drop(reader.next());
    (before, reader.objects_in_file())
}

/// Returns how many objects a reader reports after an error that is its first item, even if a read
/// or an allocation failed: the number in the file's head, or 0.
pub fn count_after_a_failure(alloc: Global, bytes: &[u8]) -> Option<usize>
    ensures { IfSome result (λ count. (count ≡ objects_in_head bytes.now) ⊎ (count ≡ 0)) }
{
    let mut reader = BinaryReader::new(alloc, bytes);
    match reader.next() {
        Some(Err(_error)) => Some(reader.objects_in_file()),
        Some(Ok(_event)) => None,
        None => None,
    }
}

/// Requests an item of a reader that has ended. Its source isn't called.
pub fn asks_after_the_end<R: Source>(reader: &mut BinaryReader<R>)
    requires { HasEndedBinary reader.old }
    ensures { binary_source reader.new ≡ binary_source reader.old }
{
    drop(reader.next());
}
