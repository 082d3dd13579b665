//! The numbers of kinds and faults, as `bindings/c/sizhetom.h` lists them.

ghost use Rattle.std.specs.Prelude.{◌≡◌};
ghost use Rattle.plist_base.specs.Faults.{kind_of};
ghost use Rattle.plist_c.specs.Numbers.{fault_detail as detail_of_fault, fault_expected as expected_of_fault, fault_number as number_of_fault, kind_number as number_of_kind, limit_number as number_of_limit};

use plist_base::{ErrorKind, EventKind, Limit};

/// Returns the number of an event's kind.
pub(crate) fn kind_number(kind: EventKind) -> u64
    ensures { result ≡ number_of_kind kind }
{
    match kind {
        EventKind::StartArray => 1,
        EventKind::StartDictionary => 2,
        EventKind::EndCollection => 3,
        EventKind::Boolean => 4,
        EventKind::Data => 5,
        EventKind::Date => 6,
        EventKind::Integer => 7,
        EventKind::Real => 8,
        EventKind::String => 9,
        EventKind::Uid => 10,
        EventKind::ValueOrStartCollection => 11,
        EventKind::DictionaryKeyOrEndCollection => 12,
    }
}

/// Returns the number of a fault's kind.
pub(crate) fn fault_number(kind: &ErrorKind) -> u64
    ensures { result ≡ number_of_fault (kind_of kind.now) }
{
    match kind {
        ErrorKind::UnexpectedEof => 1,
        ErrorKind::InvalidMagic => 2,
        ErrorKind::InvalidTrailerObjectOffsetSize => 3,
        ErrorKind::InvalidTrailerObjectReferenceSize => 4,
        ErrorKind::ObjectOffsetTooLarge => 5,
        ErrorKind::ObjectReferenceTooLarge => 6,
        ErrorKind::RecursiveObject => 7,
        ErrorKind::NullObjectUnimplemented => 8,
        ErrorKind::FillObjectUnimplemented => 9,
        ErrorKind::UnknownObjectType(_) => 10,
        ErrorKind::IntegerOutOfRange => 11,
        ErrorKind::OverflowOrNanDate => 12,
        ErrorKind::FractionalDate => 13,
        ErrorKind::InvalidUtf8String => 14,
        ErrorKind::InvalidUtf16String => 15,
        ErrorKind::UnclosedString => 16,
        ErrorKind::IncompleteComment => 17,
        ErrorKind::InvalidUtf8AsciiStream => 18,
        ErrorKind::InvalidOctalString => 19,
        ErrorKind::InvalidDateString => 20,
        ErrorKind::UnexpectedEventType { .. } => 21,
        ErrorKind::ExpectedEndOfEventStream { .. } => 22,
        ErrorKind::UnexpectedEndOfEventStream => 23,
        ErrorKind::Io(_) => 24,
        ErrorKind::OutOfMemory => 25,
        ErrorKind::WriterFailed => 26,
        ErrorKind::PlistTooLarge => 27,
        ErrorKind::XmlUnsupported => 28,
        ErrorKind::YearOutOfRange => 29,
        ErrorKind::LimitReached(_) => 30,
    }
}

/// Returns the number of a limit.
pub(crate) fn limit_number(limit: Limit) -> u64
    ensures { result ≡ number_of_limit limit }
{
    match limit {
        Limit::Depth => 0,
        Limit::Items => 1,
    }
}

/// Returns the marker, the limit, or the kind of the found event that a fault names, or 0.
pub(crate) fn fault_detail(kind: &ErrorKind) -> u64
    ensures { result ≡ detail_of_fault (kind_of kind.now) }
{
    match kind {
        ErrorKind::UnknownObjectType(marker) => u64::from(*marker),
        ErrorKind::UnexpectedEventType { found, .. }
        | ErrorKind::ExpectedEndOfEventStream { found } => kind_number(*found),
        ErrorKind::LimitReached(limit) => limit_number(*limit),
        _ => 0,
    }
}

/// Returns the kind of the expected event that a fault names, or 0.
pub(crate) fn fault_expected(kind: &ErrorKind) -> u64
    ensures { result ≡ expected_of_fault (kind_of kind.now) }
{
    match kind {
        ErrorKind::UnexpectedEventType { expected, .. } => kind_number(*expected),
        _ => 0,
    }
}
