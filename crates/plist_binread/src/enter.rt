//! Enters an object: decodes it and hands its first event to a visitor.

ghost use Rattle.std.specs.Prelude.{◌≡◌, ◌+◌, ◌-◌, ◌^◌, ◌<◌, slice_index, true, false, Some, OnOk};
ghost use Rattle.plist_decode.specs.Packed.{unmarked};
ghost use Rattle.plist_binread.specs.Walking.{IsKnownWalk, KeepsWalk, cached_in, walk_objects};
ghost use Rattle.plist_binread.specs.Step.{YieldsEntered, IsLighterEntered, IsCollectionStart, OpensObject};
ghost use Rattle.plist_decode.specs.FaultOffsets.{ErrWithin};
ghost use Rattle.plist_decode.specs.Decoded.{FitsBefore, small_count};
ghost use Rattle.plist_binread.specs.Handovers.{HandsItem};
ghost use Rattle.plist_base.specs.Sources.{CountsIo};
ghost use Rattle.plist_binread.specs.Tokens.{KeepsCached};
ghost use Rattle.plist_decode.specs.StepFaults.{result_with};

use crate::hand::{hand_bytes, hand_decoded};
use crate::references::Reference;
use crate::walk::Walk;
use plist_base::{EventVisitor, PackedScalar, Source};
use plist_decode::counter::DecodeCounter;
use plist_decode::decoded::{Content, Decoded};
use plist_decode::object::{Decoder, buffered_front, decode_front, read_object};
use plist_decode::packed::{is_open, open_tag, set_tag};
use plist_decode::step_fault::StepFault;
use std::ops::ControlFlow;

// Caches a small scalar that was decoded, or opens a collection. If an allocation for the
// collection fails, this function returns `false` and changes nothing.
#[inline(always)]
fn cache_or_open(walk: &mut Walk, number: u64, decoded: Decoded) -> bool
    requires below { number < walk_objects walk.old }
    requires new { slice_index walk.old.tags.items number ≡ 0 }
    requires fits { FitsBefore (2 ^ 64 - 1) 0 decoded }
    // Result.
    ensures yields { result ≡ true → OpensObject number decoded walk.old walk.new }
    ensures wanted { result ≡ false → IsCollectionStart decoded }
    // State afterwards.
    ensures size { walk_objects walk.new ≡ walk_objects walk.old }
    ensures counted { cached_in walk.new ≡ cached_in walk.old + small_count decoded }
    ensures cached { small_count decoded ≡ 1
        → 0 < unmarked (slice_index walk.new.tags.items number) }
    ensures falls { result ≡ true → IsLighterEntered walk.old walk.new }
    ensures unchanged { result ≡ false → (walk.new.tags.items ≡ walk.old.tags.items)
        × (walk.new.contents.items ≡ walk.old.contents.items)
        × (walk.new.frames ≡ walk.old.frames) }
    ensures still_cached { KeepsCached walk.old walk.new }
{
    match decoded {
        Decoded::Small(tag, content) => {
            let number = number as usize;
            set_tag(&mut walk.tags, number, tag);
            walk.contents[number] = content;
            true
        }
        Decoded::Collection(kind, start, count) => {
            match walk.frames.push(number, kind.children(count)) {
                Ok(()) => {
                    set_tag(&mut walk.tags, number as usize, open_tag(kind, start));
                    true
                }
                Err(_) => false,
            }
        }
        Decoded::Date(_) => true,
        Decoded::Long(..) => true,
        Decoded::Faulty(..) => true,
    }
}

/// Hands the first event of an object to a visitor, and opens the object if it is a collection. No
/// token is used or stored.
#[inline(always)]
pub fn enter_object<S: Source, C: DecodeCounter, V: EventVisitor>(
    source: &mut S,
    decoder: &mut Decoder<C>,
    walk: &mut Walk,
    reference: Reference,
    visitor: &mut V,
) -> Result<ControlFlow<()>, StepFault>
    requires known { IsKnownWalk (S.known source.old) decoder.old.bounds walk.old }
    requires counted { C.counts → C.count decoder.old.counter ≡ cached_in walk.old }
    // Result.
    ensures handed { HandsItem V.step visitor.old visitor.new (Some result) (λ event.
        YieldsEntered (S.known source.old) decoder.old.bounds (reference, walk.old)
        (result_with result decoder.new.details) event walk.new) }
    // Errors.
    ensures fault { ErrWithin 0 decoder.old.bounds.trailer
        (result_with result decoder.new.details) }
    // State afterwards.
    ensures kept { KeepsWalk S.known C.counts C.count (source.old, decoder.old, walk.old)
        (source.new, decoder.new, walk.new) }
    ensures still_cached { KeepsCached walk.old walk.new }
    ensures falls { OnOk result (IsLighterEntered walk.old walk.new) }
    ensures failures { CountsIo (Some (result_with result decoder.new.details))
        (S.failures source.old) (S.failures source.new) }
{
    let number = reference.number as usize;
    if reference.number >= walk.tags.len() as u64 {
        decoder.details.fail_at(reference.at);
        return Err(StepFault::Reference);
    }
    let tag = walk.tags[number];
    // The offset of the object, or a small scalar that is cached.
    let content = walk.contents[number];
    if tag != 0 {
        if is_open(tag) {
            decoder.details.fail_at(content);
            return Err(StepFault::Recursion);
        }
        return Ok(visitor.packed(PackedScalar::from_parts(tag, content)));
    }
    let place = content;
    let decoded = match buffered_front(source, &decoder.bounds, place) {
        Some(seen) => {
            let decoded = decode_front(decoder, place, seen);
            if let Decoded::Long(kind, start, count) = decoded {
                let content = Content { kind, start, count };
                if content.lies_in(seen) {
                    let bytes = content.bytes_in(seen);
                    decoder.details.place = place;
                    return hand_bytes(decoder.alloc, kind, bytes, visitor);
                }
            }
            decoded
        }
        None => read_object(source, decoder, place)?,
    };
    if cache_or_open(walk, reference.number, decoded) {
        return hand_decoded(source, decoder, place, decoded, visitor);
    }
    Err(StepFault::Memory)
}
