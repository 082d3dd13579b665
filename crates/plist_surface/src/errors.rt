//! Errors: their kinds, and the calls on one.

use crate::traits::{is_copy, is_debug, is_display, is_eq, is_error};
use plist_base::{Error, ErrorKind, EventKind, Limit};
use std::io;
use std::io::Write;

// Returns the kind with this number.
fn kind_at(number: u8) -> Option<ErrorKind> {
    match number {
        1 => Some(ErrorKind::UnexpectedEof),
        2 => Some(ErrorKind::InvalidMagic),
        3 => Some(ErrorKind::InvalidTrailerObjectOffsetSize),
        4 => Some(ErrorKind::InvalidTrailerObjectReferenceSize),
        5 => Some(ErrorKind::ObjectOffsetTooLarge),
        6 => Some(ErrorKind::ObjectReferenceTooLarge),
        7 => Some(ErrorKind::RecursiveObject),
        8 => Some(ErrorKind::NullObjectUnimplemented),
        9 => Some(ErrorKind::FillObjectUnimplemented),
        10 => Some(ErrorKind::UnknownObjectType(136)),
        11 => Some(ErrorKind::IntegerOutOfRange),
        12 => Some(ErrorKind::OverflowOrNanDate),
        13 => Some(ErrorKind::FractionalDate),
        14 => Some(ErrorKind::InvalidUtf8String),
        15 => Some(ErrorKind::InvalidUtf16String),
        _ => later_kind_at(number),
    }
}

fn later_kind_at(number: u8) -> Option<ErrorKind> {
    match number {
        16 => Some(ErrorKind::UnclosedString),
        17 => Some(ErrorKind::IncompleteComment),
        18 => Some(ErrorKind::InvalidUtf8AsciiStream),
        19 => Some(ErrorKind::InvalidOctalString),
        20 => Some(ErrorKind::UnexpectedEventType {
            expected: EventKind::DictionaryKeyOrEndCollection,
            found: EventKind::Integer,
        }),
        21 => Some(ErrorKind::ExpectedEndOfEventStream {
            found: EventKind::String,
        }),
        22 => Some(ErrorKind::UnexpectedEndOfEventStream),
        23 => Some(ErrorKind::InvalidDateString),
        24 => Some(ErrorKind::Io(io::Error::from(io::ErrorKind::NotFound))),
        25 => Some(ErrorKind::OutOfMemory),
        26 => Some(ErrorKind::WriterFailed),
        27 => Some(ErrorKind::PlistTooLarge),
        28 => Some(ErrorKind::XmlUnsupported),
        29 => Some(ErrorKind::YearOutOfRange),
        30 => Some(ErrorKind::LimitReached(Limit::Depth)),
        _ => None,
    }
}

// Returns the content of a kind, by a match over all kinds.
pub fn content_of(kind: &ErrorKind) -> &'static str {
    match kind {
        ErrorKind::UnknownObjectType(_) => "a marker",
        ErrorKind::UnexpectedEventType {
            expected: _,
            found: _,
        } => "two kinds of events",
        ErrorKind::ExpectedEndOfEventStream { found: _ } => "a kind of events",
        ErrorKind::Io(_) => "an io::Error",
        ErrorKind::LimitReached(_) => "a limit",
        ErrorKind::UnexpectedEof
        | ErrorKind::InvalidMagic
        | ErrorKind::InvalidTrailerObjectOffsetSize
        | ErrorKind::InvalidTrailerObjectReferenceSize
        | ErrorKind::ObjectOffsetTooLarge
        | ErrorKind::ObjectReferenceTooLarge
        | ErrorKind::RecursiveObject
        | ErrorKind::NullObjectUnimplemented
        | ErrorKind::FillObjectUnimplemented
        | ErrorKind::IntegerOutOfRange
        | ErrorKind::OverflowOrNanDate
        | ErrorKind::FractionalDate
        | ErrorKind::InvalidUtf8String
        | ErrorKind::InvalidUtf16String
        | ErrorKind::UnclosedString
        | ErrorKind::IncompleteComment
        | ErrorKind::InvalidUtf8AsciiStream
        | ErrorKind::InvalidOctalString
        | ErrorKind::UnexpectedEndOfEventStream
        | ErrorKind::InvalidDateString
        | ErrorKind::OutOfMemory
        | ErrorKind::WriterFailed
        | ErrorKind::PlistTooLarge
        | ErrorKind::XmlUnsupported
        | ErrorKind::YearOutOfRange => "nothing",
    }
}

// Returns the kinds of events.
fn event_kinds() -> [EventKind; 12] {
    [
        EventKind::StartArray,
        EventKind::StartDictionary,
        EventKind::EndCollection,
        EventKind::Boolean,
        EventKind::Data,
        EventKind::Date,
        EventKind::Integer,
        EventKind::Real,
        EventKind::String,
        EventKind::Uid,
        EventKind::ValueOrStartCollection,
        EventKind::DictionaryKeyOrEndCollection,
    ]
}

pub fn is_scalar(kind: EventKind) -> bool {
    is_copy(kind);
    is_eq(&kind);
    is_debug(&kind);
    is_display(&kind);
    match kind {
        EventKind::StartArray | EventKind::StartDictionary | EventKind::EndCollection => false,
        EventKind::Boolean
        | EventKind::Data
        | EventKind::Date
        | EventKind::Integer
        | EventKind::Real
        | EventKind::String
        | EventKind::Uid => true,
        EventKind::ValueOrStartCollection | EventKind::DictionaryKeyOrEndCollection => false,
    }
}

pub fn is_depth(limit: Limit) -> bool {
    is_copy(limit);
    is_eq(&limit);
    is_debug(&limit);
    match limit {
        Limit::Depth => true,
        Limit::Items => false,
    }
}

pub fn error_calls(kind: ErrorKind) -> Result<io::Error, Error> {
    is_debug(&kind);
    let error: Error = kind.with_byte_offset(8);
    is_debug(&error);
    is_display(&error);
    is_error(&error);
    let _kind: &ErrorKind = error.kind();
    let _offset: Option<u64> = error.offset();
    let _is_io: bool = error.is_io();
    let _is_eof: bool = error.is_eof();
    let _failure: Option<&io::Error> = error.as_io();
    error.into_io()
}

fn print_kind<W: Write>(out: &mut W, number: u8, kind: ErrorKind) -> Result<(), Error> {
    let content = content_of(&kind);
    let error: Error = kind.without_position();
    Ok(writeln!(out, "{number} {error} contains {content}")?)
}

fn print_event_kinds<W: Write>(out: &mut W) -> Result<(), Error> {
    for kind in event_kinds() {
        writeln!(out, "{kind:?}: {kind}")?;
    }
    Ok(())
}

pub fn print<W: Write>(out: &mut W) -> Result<(), Error> {
    for number in 1..=30_u8 {
        if let Some(kind) = kind_at(number) {
            print_kind(out, number, kind)?;
        }
    }
    print_event_kinds(out)?;
    let error = ErrorKind::UnknownObjectType(136).with_byte_offset(8);
    Ok(writeln!(out, "{error}")?)
}
