//! Decodes an object from its first bytes, which are buffered or read, and reads the content of a
//! long one.
//!
//! The bytes reach up to the trailer, or there are at least 26 of them, which is enough for any
//! object except a long string or long data.
//!
//! If an object has several faults, the first of the following is reported: the marker is invalid,
//! the object doesn't end before the trailer, or the content is invalid.

ghost use Rattle.std.specs.Prelude.{◌≡◌, ◌+◌, ◌-◌, ◌^◌, ◌<◌, ◌≤◌, IfErr, IfOk, IfSome, MatchResult, OnOk, Some};
ghost use Rattle.plist_decode.specs.Decoded.{CountsSmall, DecodesAfter, DecodesSeen, content_size, DecodesAt, FitsBefore, RefusesObjectAt};
ghost use Rattle.plist_decode.specs.Reading.{AreBytesAt, IsFront, IsFrontAt, IsIoOrMemoryAt, object_with};
ghost use Rattle.plist_decode.specs.CountedContent.{AreUnits, unit_size};
ghost use Rattle.plist_base.specs.Outcomes.{IfRead, IfRefused};
ghost use Rattle.plist_decode.specs.FaultOffsets.{ErrWithin};
ghost use Rattle.plist_base.specs.Sources.{CountsIo};
ghost use Rattle.plist_decode.specs.StepFaults.{error_of, result_with};

use crate::counted_content::{decode_collection, decode_data, decode_text, decode_wide_text};
use crate::counter::DecodeCounter;
use crate::decoded::{AfterMarker, CollectionKind, Content, Decoded};
use crate::fixed_content::{
    decode_date, decode_real, decode_short_real, decode_signed, decode_uid, decode_unsigned,
    decode_wide_integer,
};
use crate::head::Bounds;
use crate::step_fault::{FaultDetails, StepFault};
use plist_base::marker::{CountedKind, Marker};
use plist_base::{PackedScalar, Source, read_exact_at};
use std::alloc::Global;

/// Everything that is needed to decode the objects of a file, except for the source.
#[derive(Drop)]
pub struct Decoder<C: DecodeCounter> {
    /// Counts the small objects that are decoded.
    pub counter: C,
    /// Where the objects of the file end, and how wide its references are.
    pub bounds: Bounds,
    /// The allocator for strings and data.
    pub alloc: Global,
    /// What the error of a step that failed contains besides its fault.
    pub details: FaultDetails,
}

impl<C: DecodeCounter> Decoder<C> {
    /// Creates a decoder for a file. Its head hasn't been read yet.
    pub fn new(alloc: Global, counter: C) -> Self
        ensures { result.counter ≡ counter }
    {
        Decoder {
            counter,
            bounds: Bounds::new(),
            alloc,
            details: FaultDetails::new(),
        }
    }
}

// Decodes an object from its marker and the bytes that follow the marker.
#[inline(always)]
fn decode_after_marker(marker: u8, rest: AfterMarker<'_>, width: usize) -> Decoded
    requires { (0 < width) × (width ≤ 8) }
    ensures { DecodesAfter width (object_with width marker) rest.entry result }
{
    match Marker::decode(marker) {
        Marker::Null => Decoded::faulty(StepFault::Null),
        Marker::Boolean(value) => Decoded::small(PackedScalar::of_boolean(value)),
        Marker::Fill => Decoded::faulty(StepFault::Fill),
        Marker::Integer1 => decode_unsigned(rest, 1),
        Marker::Integer2 => decode_unsigned(rest, 2),
        Marker::Integer4 => decode_unsigned(rest, 4),
        Marker::Integer8 => decode_signed(rest),
        Marker::Integer16 => decode_wide_integer(rest),
        Marker::Real4 => decode_short_real(rest),
        Marker::Real8 => decode_real(rest),
        Marker::Date => decode_date(rest),
        Marker::Counted(kind, low) => match kind {
            CountedKind::Data => decode_data(low, rest),
            CountedKind::Text => decode_text(low, rest),
            CountedKind::WideText => decode_wide_text(low, rest),
            CountedKind::Array => { decode_collection(CollectionKind::Array, low, rest, width) }
            CountedKind::Dictionary => {
                decode_collection(CollectionKind::Dictionary, low, rest, width)
            }
        },
        Marker::Uid(size) => decode_uid(rest, size),
        Marker::Unknown(byte) => Decoded::Faulty(StepFault::Unknown, byte),
    }
}

// Counts the object if it is small.
#[inline(always)]
fn count_small<C: DecodeCounter>(decoded: Decoded, counter: &mut C)
    ensures { CountsSmall C.counts C.count counter.old counter.new decoded }
{
    if let Decoded::Small(..) = decoded {
        counter.raise();
    }
}

/// Decodes the object at an offset from its first bytes, and counts it if it is small.
///
/// No other function decodes small objects, so all decodings are counted.
#[inline(always)]
pub fn decode_front<C: DecodeCounter>(decoder: &mut Decoder<C>, place: u64, seen: &[u8]) -> Decoded
    requires { IsFront decoder.old.bounds place seen.now }
    // Result.
    ensures decoded { DecodesSeen (decoder.old.bounds.trailer - place)
        decoder.old.bounds.reference_width seen.now result }
    // State afterwards.
    ensures counted { CountsSmall C.counts C.count decoder.old.counter decoder.new.counter result }
    ensures bounds { decoder.new.bounds ≡ decoder.old.bounds }
{
    let to_trailer = decoder.bounds.trailer - place;
    let width = decoder.bounds.reference_width;
    let rest = AfterMarker {
        bytes: &seen[1..],
        to_trailer: to_trailer - 1,
    };
    let decoded = decode_after_marker(seen[0], rest, width);
    count_small(decoded, &mut decoder.counter);
    decoded
}

// The number of bytes that is enough for any object except a long string or long data: a marker, a
// length of nine bytes, and sixteen bytes of content.
const FRONT: usize = 26;

/// Returns the bytes from the offset of an object up to the trailer, as far as they are buffered.
/// Returns `None` if these may be too few to decode the object.
#[inline(always)]
pub fn buffered_front<'a, S: Source>(source: &'a S, bounds: &Bounds, place: u64) -> Option<&'a [u8]>
    ensures { IfSome result (λ seen. IsFrontAt (S.known source.now) bounds.now place seen.now) }
{
    if place >= bounds.trailer {
        return None;
    }
    let to_trailer = bounds.trailer - place;
    let buffered = source.buffered(place);
    let seen = &buffered[..to_trailer.min(buffered.len() as u64) as usize];
    if seen.len() >= FRONT || seen.len() as u64 == to_trailer {
        return Some(seen);
    }
    None
}

/// Reads the first bytes of the object at an offset, and decodes it.
///
/// # Errors
///
/// - `Overrun` if the offset isn't before the trailer.
/// - `Kept` if the read fails. The details have the error.
#[cold]
#[inline(never)]
pub fn read_object<S: Source, C: DecodeCounter>(
    source: &mut S,
    decoder: &mut Decoder<C>,
    place: u64,
) -> Result<Decoded, StepFault>
    // Result.
    ensures decoded { IfOk result
        (DecodesAt (S.known source.old) decoder.old.bounds place) }
    ensures fits { IfOk result (FitsBefore decoder.old.bounds.trailer place) }
    // Errors.
    ensures refused { IfErr result (λ fault.
        RefusesObjectAt (S.known source.old) decoder.old.bounds place
        (error_of fault decoder.new.details)) }
    ensures fault { ErrWithin place decoder.old.bounds.trailer
        (result_with result decoder.new.details) }
    // State afterwards.
    ensures counted { MatchResult result
        (CountsSmall C.counts C.count decoder.old.counter decoder.new.counter)
        (λ _. decoder.new.counter ≡ decoder.old.counter) }
    ensures bounds { decoder.new.bounds ≡ decoder.old.bounds }
    ensures unchanged { S.known source.new ≡ S.known source.old }
    ensures failures { CountsIo (Some (result_with result decoder.new.details))
        (S.failures source.old) (S.failures source.new) }
{
    if place >= decoder.bounds.trailer {
        decoder.details.fail_at(place);
        return Err(StepFault::Overrun);
    }
    let to_trailer = decoder.bounds.trailer - place;
    let mut front = [0; FRONT];
    let seen = &mut front[..to_trailer.min(FRONT as u64) as usize];
    decoder
        .details
        .keep_error(read_exact_at(source, place, seen))?;
    Ok(decode_front(decoder, place, seen))
}

/// Reads the content of the object at the given offset, which is a string or data that isn't small.
/// The details then have the object's offset, with which a fault of the content is reported.
///
/// # Errors
///
/// - `Memory` if memory for the bytes can't be allocated.
/// - `Kept` if the bytes can't be read. The error is `Io` if a read fails, or `UnexpectedEof` if
///   the source ends before the content does. It has the offset of the read that failed or returned
///   no byte.
pub fn read_content<S: Source, C: DecodeCounter>(
    source: &mut S,
    decoder: &mut Decoder<C>,
    place: u64,
    content: Content,
) -> Result<Vec<u8>, StepFault>
    requires { place + content.start + content_size content < 2 ^ 64 }
    // Result.
    ensures bytes { IfRead result (S.known source.old)
        (AreBytesAt (place + content.start) (content_size content)) }
    ensures units { IfOk result (λ bytes. AreUnits (unit_size content.kind) bytes.items) }
    // Errors.
    ensures refused { IfRefused (result_with result decoder.new.details) (S.known source.old)
        (IsIoOrMemoryAt (place + content.start) (content_size content)) }
    ensures fault { ErrWithin place (place + content.start + content_size content)
        (result_with result decoder.new.details) }
    // State afterwards.
    ensures place { OnOk result (decoder.new.details.place ≡ place) }
    ensures bounds { decoder.new.bounds ≡ decoder.old.bounds }
    ensures counter { decoder.new.counter ≡ decoder.old.counter }
    ensures unchanged { S.known source.new ≡ S.known source.old }
    ensures failures { CountsIo (Some (result_with result decoder.new.details))
        (S.failures source.old) (S.failures source.new) }
{
    let start = place + u64::from(content.start);
    let size = content.count * content.kind.unit_size();
    let mut bytes = vec![in decoder.alloc; 0u8; size as usize]?;
    decoder
        .details
        .keep_error(read_exact_at(source, start, &mut bytes))?;
    decoder.details.place = place;
    Ok(bytes)
}
