//! Decodes objects that have a length: strings, data, arrays and dictionaries.
//!
//! Each function reads the bytes that follow the marker.

ghost use Rattle.std.specs.Prelude.{◌≡◌, ◌++◌, List, None, Some, ℕ, ◌+◌, ◌-◌, ◌*◌, ◌%◌, ◌<◌, ◌≤◌, false, length, take, IfNone, IfSome, MatchOption};
ghost use Rattle.std.specs.Str.{is_utf8};
ghost use Rattle.plist_base.specs.Object.{length_in, text, wide_text};
ghost use Rattle.plist_base.specs.Packing.{content_bytes, padded};
ghost use Rattle.plist_decode.specs.CountedContent.{IsCount, LiesAfter, RefusesCounted, counted_with};
ghost use Rattle.plist_decode.specs.Decoded.{DecodesAfter, DecodesScalar, MeansDecoded};
ghost use Rattle.plist_decode.specs.Decoding.{is_small_object};
ghost use Rattle.plist_decode.specs.Reading.{counted_kind, object_counted};
ghost use Rattle.plist_decode.specs.declared.decoded.ContentKind.TheVariants.{Data as KindData, Text as KindText, WideText as KindWideText};

use crate::decoded::{AfterMarker, CollectionKind, ContentKind, Decoded};
use crate::numbers::number_from;
use crate::step_fault::StepFault;
use crate::utf16::write_utf8;
use plist_base::marker::LowHalf;
use plist_base::{Ascii, ByteTest, PackedScalar, Utf16Str};
use std::simd::prelude::*;

// Returns the length of an object and the bytes that follow it, or `None` if the length is cut
// off.
#[inline(always)]
fn split_length(low: LowHalf, rest: &[u8]) -> Option<(u64, &[u8])>
    // Whatever follows, the length and the bytes after it are these.
    ensures length { IfSome result (λ found. (more : List ℕ)
        → length_in low (rest.now ++ more) ≡ Some (found.0, found.1.now ++ more)) }
    ensures short { IfSome result (λ found. length found.1.now ≤ length rest.now) }
    ensures near { IfSome result (λ found. length rest.now ≤ length found.1.now + 9) }
    ensures after { IfSome result (LiesAfter rest.now) }
    ensures cut { IfNone result ((length rest.now < 9) × (length_in low rest.now ≡ None)) }
{
    if let Some(length) = low.length() {
        return Some((length, rest));
    }
    let (byte, following) = rest.split_first()?;
    // The low two bits of the byte encode how many bytes the number has.
    let width = 1usize << (*byte % 4);
    if following.len() < width {
        return None;
    }
    Some((number_from(&following[..width]), &following[width..]))
}

// Returns the number of elements of an object and the bytes after its length, or `None` if the
// object doesn't end before the trailer. An element has `size` bytes.
#[inline(always)]
fn split_count<'a>(low: LowHalf, rest: AfterMarker<'a>, size: u64) -> Option<(u64, &'a [u8])>
    ensures count { IfSome result (IsCount low size rest.entry.to_trailer rest.entry.bytes.now) }
    ensures within { IfSome result (λ found. length rest.entry.bytes.now - length found.1.now
        + found.0 * size ≤ rest.entry.to_trailer) }
    ensures short { IfSome result (λ found. length found.1.now ≤ length rest.entry.bytes.now) }
    ensures near { IfSome result (λ found. length rest.entry.bytes.now ≤ length found.1.now + 9) }
    ensures after { IfSome result (LiesAfter rest.entry.bytes.now) }
    ensures refused { IfNone result
        (RefusesCounted low size rest.entry.to_trailer rest.entry.bytes.now) }
{
    let (count, following) = split_length(low, rest.bytes)?;
    let left = rest.to_trailer - (rest.bytes.len() - following.len()) as u64;
    match count.checked_mul(size) {
        Some(all) if all <= left => Some((count, following)),
        _ => None,
    }
}

/// Decodes data.
#[inline(always)]
pub fn decode_data(low: LowHalf, rest: AfterMarker<'_>) -> Decoded
    ensures { DecodesScalar (counted_with KindData low) rest.entry result }
{
    let Some((count, following)) = split_count(low, rest, 1) else {
        return Decoded::faulty(StepFault::Overrun);
    };
    if count > 8 {
        let start = 1 + (rest.bytes.len() - following.len()) as u8;
        return Decoded::Long(ContentKind::Data, start, count);
    }
    Decoded::small(PackedScalar::of_data(&following[..count as usize]).unwrap())
}

// The tag of an empty packed string. The tag of any other one is greater by its length.
const EMPTY_TEXT: u8 = 17;

// Returns the content that begins with the first `count` bytes and continues with zeros. If there
// are eight bytes, they are loaded at once. Otherwise the content is that of data.
#[inline(always)]
fn short_content(bytes: &[u8], count: usize) -> u64
    requires { (count ≤ 8) × (count ≤ length bytes.now) }
    ensures { content_bytes result ≡ padded (take count bytes.now) }
{
    match bytes.first_chunk() {
        Some(eight) if count > 0 => {
            let number = u64::from_be_bytes(*eight);
            number - number % (1 << (64 - 8 * count))
        }
        _ => PackedScalar::of_data(&bytes[..count]).unwrap().content(),
    }
}

// Returns `true` if the bytes are UTF-8. They needn't be ASCII.
#[inline(never)]
fn is_utf8(bytes: &[u8]) -> bool
    ensures { result ≡ is_utf8 bytes.now }
{
    str::from_utf8(bytes).is_ok()
}

// Decodes a UTF-8 string that consists of the first `count` bytes.
#[inline(always)]
fn short_text(bytes: &[u8], count: usize) -> Decoded
    requires { (count ≤ 8) × (count ≤ length bytes.now) }
    ensures { MeansDecoded (text (take count bytes.now)) result }
{
    let content = short_content(bytes, count);
    // One test of the content is enough for ASCII.
    let is_ascii = Ascii::eight(u8x8::from_array(content.to_be_bytes()));
    if !is_ascii && !is_utf8(&bytes[..count]) {
        return Decoded::faulty(StepFault::NotUtf8);
    }
    let tag = EMPTY_TEXT + count as u8;
    Decoded::small(PackedScalar::from_parts(tag, content))
}

/// Decodes a string in UTF-8.
#[inline(always)]
pub fn decode_text(low: LowHalf, rest: AfterMarker<'_>) -> Decoded
    ensures { DecodesScalar (counted_with KindText low) rest.entry result }
{
    let Some((count, following)) = split_count(low, rest, 1) else {
        return Decoded::faulty(StepFault::Overrun);
    };
    if count > 8 {
        let start = 1 + (rest.bytes.len() - following.len()) as u8;
        return Decoded::Long(ContentKind::Text, start, count);
    }
    short_text(following, count as usize)
}

// Decodes a UTF-16 string. Returns `None` if it has more than eight bytes in UTF-8, because it
// can't be packed then.
fn short_wide_text(bytes: &[u8]) -> Option<Decoded>
    requires { length bytes.now % 2 ≡ 0 }
    ensures { MatchOption result (is_small_object (wide_text bytes.now) ≡ false)
        (MeansDecoded (wide_text bytes.now)) }
{
    let Some(text) = Utf16Str::new(bytes) else {
        return Some(Decoded::faulty(StepFault::NotUtf16));
    };
    let size = text.len_utf8();
    if size > 8 {
        return None;
    }
    let mut all = [0; 8];
    let text = write_utf8(text, &mut all[..size]);
    Some(Decoded::small(PackedScalar::of_text(text).unwrap()))
}

/// Decodes a string in UTF-16.
#[inline(always)]
pub fn decode_wide_text(low: LowHalf, rest: AfterMarker<'_>) -> Decoded
    ensures { DecodesScalar (counted_with KindWideText low) rest.entry result }
{
    let Some((count, following)) = split_count(low, rest, 2) else {
        return Decoded::faulty(StepFault::Overrun);
    };
    let start = 1 + (rest.bytes.len() - following.len()) as u8;
    let long = Decoded::Long(ContentKind::WideText, start, count);
    if count > 8 {
        return long;
    }
    match short_wide_text(&following[..2 * count as usize]) {
        Some(short) => short,
        None => long,
    }
}

/// Decodes the start of a collection. The references of the collection have to end before the
/// trailer.
#[inline(always)]
pub fn decode_collection(
    kind: CollectionKind,
    low: LowHalf,
    rest: AfterMarker<'_>,
    width: usize,
) -> Decoded
    requires { (0 < width) × (width ≤ 8) }
    ensures { DecodesAfter width (object_counted width (counted_kind kind) low) rest.entry result }
{
    match split_count(low, rest, kind.children(width as u64)) {
        Some((count, following)) => {
            Decoded::Collection(kind, 1 + (rest.bytes.len() - following.len()) as u8, count)
        }
        None => Decoded::faulty(StepFault::Overrun),
    }
}
