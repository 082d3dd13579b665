//! Hands decoded objects to a visitor.

ghost use Rattle.std.specs.Prelude.{◌≡◌, ◌+◌, ◌<◌, ◌^◌, Some, false, OnOk};
ghost use Rattle.plist_base.specs.Object.{date, text, wide_text};
ghost use Rattle.plist_base.specs.Packing.{content_bytes};
ghost use Rattle.plist_decode.specs.CountedContent.{AreUnits, content_means, unit_size};
ghost use Rattle.plist_decode.specs.Decoded.{FitsBefore, content_size};
ghost use Rattle.plist_binread.specs.ObjectEvents.{SetsContentAt, SetsDecoded, is_refused};
ghost use Rattle.plist_decode.specs.FaultOffsets.{ErrWithin};
ghost use Rattle.plist_binread.specs.Handovers.{HandsItem, HandsUnread};
ghost use Rattle.plist_base.specs.Sources.{CountsIo};
ghost use Rattle.plist_decode.specs.StepFaults.{result_with};

use plist_base::{Ascii, Date, EventVisitor, PackedScalar, Source, Utf16Str, all_pass};
use plist_decode::counter::DecodeCounter;
use plist_decode::decoded::{CollectionKind, Content, ContentKind, Decoded};
use plist_decode::object::{Decoder, read_content};
use plist_decode::step_fault::StepFault;
use plist_decode::utf16::to_utf8;
use std::alloc::Global;
use std::borrow::{CowSlice, CowStr};
use std::ops::ControlFlow;

// Hands over the date in these eight bytes, or returns a fault if the date is out of range.
#[inline(never)]
fn hand_date<V: EventVisitor>(content: u64, visitor: &mut V) -> Result<ControlFlow<()>, StepFault>
    ensures { HandsUnread V.step visitor.old (date (content_bytes content)) result visitor.new }
{
    match Date::from_plist_real(content.to_be_bytes()) {
        Ok(date) => Ok(visitor.date(date)),
        Err(_) => Err(StepFault::NoDate),
    }
}

// Hands over a string that needn't be ASCII, or returns a fault if the bytes aren't UTF-8. It isn't
// inlined, since most strings are ASCII.
#[inline(never)]
fn hand_utf8<V: EventVisitor>(bytes: &[u8], visitor: &mut V) -> Result<ControlFlow<()>, StepFault>
    ensures { HandsUnread V.step visitor.old (text bytes.now) result visitor.new }
{
    match str::from_utf8(bytes) {
        Ok(text) => Ok(visitor.string(CowStr::Borrowed(text))),
        Err(_) => Err(StepFault::NotUtf8),
    }
}

// Hands over a string, or returns a fault if the bytes aren't UTF-8.
//
// The visitor may test the bytes itself. Otherwise ASCII is tested first because most strings are
// ASCII, and this test takes a fraction of the time of the test for UTF-8. ASCII is handed over by
// a call of its own: a string that may be the result of either test would be stored in memory
// first.
#[inline(always)]
fn hand_text<V: EventVisitor>(bytes: &[u8], visitor: &mut V) -> Result<ControlFlow<()>, StepFault>
    ensures { HandsUnread V.step visitor.old (text bytes.now) result visitor.new }
{
    if let Some(answer) = visitor.ascii_string(bytes) {
        return Ok(answer);
    }
    if all_pass::<Ascii>(bytes) {
        let text = unsafe { str::from_utf8_unchecked(bytes) };
        return Ok(visitor.string(CowStr::Borrowed(text)));
    }
    hand_utf8(bytes, visitor)
}

// Hands over a string in UTF-16, in this form or as a string in UTF-8 in memory of its own, or
// returns a fault if it is invalid.
#[inline(never)]
fn hand_wide_text<V: EventVisitor>(
    alloc: Global,
    bytes: &[u8],
    visitor: &mut V,
) -> Result<ControlFlow<()>, StepFault>
    requires { AreUnits 2 bytes.now }
    ensures { HandsUnread V.step visitor.old (wide_text bytes.now) result visitor.new }
{
    let Some(text) = Utf16Str::new(bytes) else {
        return Err(StepFault::NotUtf16);
    };
    match visitor.utf16_string(text) {
        Some(answer) => Ok(answer),
        None => Ok(visitor.string(CowStr::Owned(to_utf8(alloc, text)?))),
    }
}

/// Hands over the string or data in the given bytes, or returns a fault if a string is invalid.
#[inline(always)]
pub fn hand_bytes<V: EventVisitor>(
    alloc: Global,
    kind: ContentKind,
    bytes: &[u8],
    visitor: &mut V,
) -> Result<ControlFlow<()>, StepFault>
    requires { AreUnits (unit_size kind) bytes.now }
    ensures { HandsUnread V.step visitor.old (content_means kind bytes.now) result visitor.new }
{
    match kind {
        ContentKind::Data => Ok(visitor.data(CowSlice::Borrowed(bytes))),
        ContentKind::Text => hand_text(bytes, visitor),
        ContentKind::WideText => hand_wide_text(alloc, bytes, visitor),
    }
}

// Hands over the string or data in these bytes, or returns a fault if a string is invalid. The
// visitor may keep the bytes.
fn hand_owned<V: EventVisitor>(
    alloc: Global,
    kind: ContentKind,
    bytes: Vec<u8>,
    visitor: &mut V,
) -> Result<ControlFlow<()>, StepFault>
    requires { AreUnits (unit_size kind) bytes.items }
    ensures { HandsUnread V.step visitor.old (content_means kind bytes.items) result visitor.new }
{
    match kind {
        ContentKind::Data => Ok(visitor.data(CowSlice::Owned(bytes))),
        ContentKind::Text => match String::from_utf8(bytes) {
            Ok(text) => Ok(visitor.string(CowStr::Owned(text))),
            Err(_) => Err(StepFault::NotUtf8),
        },
        ContentKind::WideText => hand_wide_text(alloc, &bytes, visitor),
    }
}

// Reads the string or data of the object at this offset, which isn't buffered, and hands it over.
#[cold]
#[inline(never)]
fn hand_far<S: Source, C: DecodeCounter, V: EventVisitor>(
    source: &mut S,
    decoder: &mut Decoder<C>,
    place: u64,
    content: Content,
    visitor: &mut V,
) -> Result<ControlFlow<()>, StepFault>
    requires { place + content.start + content_size content < 2 ^ 64 }
    // Result.
    ensures handed { HandsItem V.step visitor.old visitor.new (Some result) (λ event.
        SetsContentAt (S.known source.old) place content
        (result_with result decoder.new.details) event) }
    // Errors.
    ensures fault { ErrWithin place (place + content.start + content_size content)
        (result_with result decoder.new.details) }
    // State afterwards.
    ensures bounds { decoder.new.bounds ≡ decoder.old.bounds }
    ensures counter { decoder.new.counter ≡ decoder.old.counter }
    ensures unchanged { S.known source.new ≡ S.known source.old }
    ensures failures { CountsIo (Some (result_with result decoder.new.details))
        (S.failures source.old) (S.failures source.new) }
{
    let bytes = read_content(source, decoder, place, content)?;
    hand_owned(decoder.alloc, content.kind, bytes, visitor)
}

/// Hands over the first event of the object at the given offset, or returns a fault. A long string
/// or long data is read into new memory.
#[inline(always)]
pub fn hand_decoded<S: Source, C: DecodeCounter, V: EventVisitor>(
    source: &mut S,
    decoder: &mut Decoder<C>,
    place: u64,
    decoded: Decoded,
    visitor: &mut V,
) -> Result<ControlFlow<()>, StepFault>
    requires { FitsBefore decoder.old.bounds.trailer place decoded }
    // Result.
    ensures handed { HandsItem V.step visitor.old visitor.new (Some result) (λ event.
        SetsDecoded (S.known source.old) decoder.old.bounds place decoded
        (result_with result decoder.new.details) event) }
    ensures found { OnOk result (is_refused decoded ≡ false) }
    // Errors.
    ensures fault { ErrWithin place decoder.old.bounds.trailer
        (result_with result decoder.new.details) }
    // State afterwards.
    ensures unchanged { S.known source.new ≡ S.known source.old }
    ensures bounds { decoder.new.bounds ≡ decoder.old.bounds }
    ensures counter { decoder.new.counter ≡ decoder.old.counter }
    ensures failures { CountsIo (Some (result_with result decoder.new.details))
        (S.failures source.old) (S.failures source.new) }
{
    match decoded {
        Decoded::Small(tag, content) => {
            Ok(visitor.packed(PackedScalar::from_parts(tag, content)))
        }
        Decoded::Date(content) => {
            decoder.details.place = place;
            hand_date(content, visitor)
        }
        Decoded::Long(kind, start, count) => {
            let content = Content { kind, start, count };
            hand_far(source, decoder, place, content, visitor)
        }
        Decoded::Collection(CollectionKind::Array, _, count) => Ok(visitor.start_array(Some(
            count,
        ))),
        Decoded::Collection(CollectionKind::Dictionary, _, count) => {
            Ok(visitor.start_dictionary(Some(count)))
        }
        Decoded::Faulty(fault, marker) => {
            decoder.details.fail_at(place);
            decoder.details.marker = marker;
            Err(fault)
        }
    }
}
