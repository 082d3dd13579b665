//! Proved callers of a reader over small files. Each has the name of a bug, and shows that the
//! reader doesn't have it. The items and the reader are dropped by calls of `drop`, since dropping
//! a value at the end of its scope makes the proof longer.

ghost use Rattle.std.specs.Prelude.{◌≡◌, IfSome, false, negsuc};
ghost use Rattle.plist_base.specs.Events.{ScalarEvent, event_of};
ghost use Rattle.plist_base.specs.Trees.{Integer as PlainInteger};
ghost use Rattle.plist_callers.specs.SmallInputs.{empty_array, five_at_true, five_byte_offsets, minus_one, missing_child, nested_arrays, root_is_second, four_byte_real};

use plist_base::{ErrorKind, Event, Integer, RealBits};
use plist_binread::BinaryReader;
use std::alloc::Global;

/// Reads a file whose root is its second object, an array. Returns `true` if the reader begins with
/// its first object, a Boolean.
#[tactic(auto, using(crate::proofs::SmallInputs::of_root_is_second))]
pub fn root_is_the_first_object(alloc: Global, bytes: &[u8]) -> bool
    requires { bytes.now ≡ root_is_second }
    ensures { result ≡ false }
{
    let mut reader = BinaryReader::new(alloc, bytes);
    let item = reader.next();
    drop(reader);
    let is_boolean = matches!(&item, Some(Ok(Event::Boolean(_))));
    drop(item);
    is_boolean
}

/// Reads a file with offsets of five bytes. Returns `true` if the reader yields an event of it.
#[tactic(auto, using(crate::proofs::SmallInputs::of_five_byte_offsets))]
pub fn takes_five_byte_offsets(alloc: Global, bytes: &[u8]) -> bool
    requires { bytes.now ≡ five_byte_offsets }
    ensures { result ≡ false }
{
    let mut reader = BinaryReader::new(alloc, bytes);
    let item = reader.next();
    drop(reader);
    let is_event = matches!(&item, Some(Ok(_)));
    drop(item);
    is_event
}

// Returns the integer that an event is, or `None` for any other event.
fn integer_in(event: &Event<'_>) -> Option<Integer>
    ensures { IfSome result (λ number. event_of event.now ≡ ScalarEvent (PlainInteger number)) }
{
    match event {
        Event::Integer(number) => Some(*number),
        _ => None,
    }
}

/// Reads the file of the integer -1. Returns the integer that the reader yields, which is negative.
#[tactic(auto, using(crate::proofs::SmallInputs::of_minus_one))]
pub fn negative_is_unsigned(alloc: Global, bytes: &[u8]) -> Option<Integer>
    requires { bytes.now ≡ minus_one }
    ensures { IfSome result (λ number. number ≡ negsuc 0) }
{
    let mut reader = BinaryReader::new(alloc, bytes);
    match reader.next() {
        Some(Ok(event)) => integer_in(&event),
        _ => None,
    }
}

/// Reads a file with an array, but without the array's child. Returns `true` if the error has
/// another offset than the array.
#[tactic(auto, using(crate::proofs::SmallInputs::of_missing_child))]
pub fn fault_at_the_child(alloc: Global, bytes: &[u8]) -> bool
    requires { bytes.now ≡ missing_child }
    ensures { result ≡ false }
{
    let mut reader = BinaryReader::new(alloc, bytes);
    drop(reader.next());
    let item = reader.next();
    drop(reader);
    match item {
        Some(Err(error)) => match error.kind() {
            ErrorKind::ObjectReferenceTooLarge => error.offset() != Some(8),
            _ => false,
        },
        Some(Ok(_event)) => false,
        None => false,
    }
}

/// Reads a file with the integer 5 at the key `true`. Returns `true` if the integer precedes the
/// key.
#[tactic(auto, using(crate::proofs::SmallInputs::of_five_at_true))]
pub fn values_before_keys(alloc: Global, bytes: &[u8]) -> bool
    requires { bytes.now ≡ five_at_true }
    ensures { result ≡ false }
{
    let mut reader = BinaryReader::new(alloc, bytes);
    drop(reader.next());
    let item = reader.next();
    drop(reader);
    let is_integer = matches!(&item, Some(Ok(Event::Integer(_))));
    drop(item);
    is_integer
}

/// Reads a file with an array in an array. Returns `true` if the child of the inner array is read
/// by the references of the outer one, so that the inner array would contain itself.
#[tactic(auto, using(crate::proofs::SmallInputs::of_nested_arrays))]
pub fn keeps_other_references(alloc: Global, bytes: &[u8]) -> bool
    requires { bytes.now ≡ nested_arrays }
    ensures { result ≡ false }
{
    let mut reader = BinaryReader::new(alloc, bytes);
    drop(reader.next());
    drop(reader.next());
    let item = reader.next();
    drop(reader);
    match item {
        Some(Err(error)) => matches!(error.kind(), ErrorKind::RecursiveObject),
        Some(Ok(_event)) => false,
        None => false,
    }
}

/// Reads a file with an empty array. Returns `true` if the reader runs out of memory for the end of
/// the array, for which it needs none.
#[tactic(auto, using(crate::proofs::SmallInputs::of_empty_array))]
pub fn end_wants_memory(alloc: Global, bytes: &[u8]) -> bool
    requires { bytes.now ≡ empty_array }
    ensures { result ≡ false }
{
    let mut reader = BinaryReader::new(alloc, bytes);
    drop(reader.next());
    let item = reader.next();
    drop(reader);
    match item {
        Some(Err(error)) => matches!(error.kind(), ErrorKind::OutOfMemory),
        Some(Ok(_event)) => false,
        None => false,
    }
}

/// Reads the file of a real of four bytes. Returns `true` if the reader yields a real of eight
/// bytes.
#[tactic(auto, using(crate::proofs::SmallInputs::of_four_byte_real))]
pub fn widens_reals(alloc: Global, bytes: &[u8]) -> bool
    requires { bytes.now ≡ four_byte_real }
    ensures { result ≡ false }
{
    let mut reader = BinaryReader::new(alloc, bytes);
    let item = reader.next();
    drop(reader);
    let is_eight_bytes = matches!(&item, Some(Ok(Event::Real(RealBits::Eight(_)))));
    drop(item);
    is_eight_bytes
}
