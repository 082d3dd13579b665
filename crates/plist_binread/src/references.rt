//! Reads the references of collections to their children, from copies of a few bytes.

ghost use Rattle.std.specs.Prelude.{◌≤◌, ◌≡◌, ◌+◌, ◌^◌, ◌<◌, Some};
ghost use Rattle.plist_base.specs.Outcomes.{DecodesBy, IfRefused};
ghost use Rattle.plist_base.specs.Container.{number_at};
ghost use Rattle.plist_decode.specs.FaultOffsets.{ErrWithin};
ghost use Rattle.plist_base.specs.Sources.{CountsIo, IsIoWithin};
ghost use Rattle.plist_decode.specs.StepFaults.{result_with};

use crate::frames::Frame;
use crate::prefetch::Prefetcher;
use crate::walk::Walk;
use plist_base::Source;
use plist_decode::counter::DecodeCounter;
use plist_decode::decoded::CollectionKind;
use plist_decode::numbers::{number_from, read_number};
use plist_decode::object::Decoder;
use plist_decode::step_fault::{FaultDetails, StepFault};

// The number of bytes in a run that isn't empty.
const RUN: usize = 40;

// The number of offsets in such a run at which the run has eight bytes.
const STARTS: u64 = 33;

/// A copy of a few bytes that a source has buffered, from an offset on.
///
/// References that lie one after the other are read from a run, because this is faster than asking
/// the source for every one of them.
#[derive(Clone, Copy)]
pub struct Run {
    /// The offset of the first byte.
    pub at: u64,
    /// The number of offsets, from `at` on, at which a number of up to eight bytes can be read, or
    /// 0 if the run is empty.
    pub starts: u64,
    /// The copied bytes, which are unspecified if the run is empty.
    pub bytes: [u8; RUN],
    ghost short: { starts ≤ 33 },
}

impl Run {
    ghost use Rattle.std.specs.Prelude.{◌≡◌, ◌≤◌, ℕ, List, Option};
    ghost use Rattle.plist_binread.specs.References.{IsNumberAt, IsRunOf};

    /// Creates an empty run.
    pub fn new() -> Self
        ensures { result.starts ≡ 0 }
    {
        Run {
            at: 0,
            starts: 0,
            bytes: [0; RUN],
        }
    }

    /// Replaces the bytes of the run with those that the source has buffered from an offset on. The
    /// run is empty if the source has buffered fewer than 40 bytes there: in the smallest files,
    /// after a short read, or if the source buffers little.
    #[inline(never)]
    pub fn fill<S: Source>(&mut self, source: &S, place: u64)
        ensures { IsRunOf (S.known source.now) self.new }
    {
        self.at = place;
        match source.buffered(place).first_chunk::<RUN>() {
            Some(chunk) => {
                self.bytes = *chunk;
                self.starts = STARTS;
            }
            None => self.starts = 0,
        }
    }

    // Returns the number in the `width` bytes at an offset, or `None` if the run may not contain
    // them.
    #[inline(always)]
    fn find(&self, place: u64, width: usize) -> Option<u64>
        requires { width ≤ 8 }
        ensures { (known : Option (List ℕ)) → IsRunOf known self.now
            → IsNumberAt result known place width }
    {
        if place < self.at || place - self.at >= self.starts {
            return None;
        }
        let first = (place - self.at) as usize;
        Some(number_from(&self.bytes[first..first + width]))
    }

    /// Returns the number in the `width` bytes at an offset, or `None` if the run may not contain
    /// them.
    #[inline(always)]
    pub fn number_at(&self, place: u64, width: usize) -> Option<u64>
        requires { width ≤ 8 }
        ensures { (known : Option (List ℕ)) → IsRunOf known self.now
            → IsNumberAt result known place width }
    {
        // Files with many objects mostly have references of this width. A call with a known width
        // makes fewer tests.
        if width == 4 {
            return self.find(place, 4);
        }
        self.find(place, width)
    }
}

/// A reference to an object.
#[derive(Clone, Copy)]
pub struct Reference {
    /// The offset of the collection that has the reference, or of the trailer for the root.
    pub at: u64,
    /// The number of the object.
    pub number: u64,
}

/// The location of a collection's references.
#[derive(Clone, Copy)]
pub struct References {
    /// The offset of the collection.
    pub place: u64,
    /// The kind of the collection.
    pub kind: CollectionKind,
    /// The number of bytes from the offset to the first reference.
    pub start: u8,
    /// The number of references.
    pub count: u64,
}

impl References {
    ghost use Rattle.std.specs.Prelude.{◌≡◌, ◌^◌, ◌<◌};
    ghost use Rattle.plist_decode.specs.Decoding.{reference_index};
    ghost use Rattle.plist_binread.specs.References.{reference_place};

    // Returns the index of a child's reference among those of its collection.
    //
    // The children of a dictionary alternate between keys and values, but the references to all
    // keys precede those to the values.
    #[inline(always)]
    fn reference_index(&self, index: u64) -> u64
        requires { index < self.now.count }
        ensures { result ≡ reference_index self.now.kind self.now.count index }
    {
        match self.kind {
            CollectionKind::Array => index,
            CollectionKind::Dictionary if index % 2 == 0 => index / 2,
            CollectionKind::Dictionary => self.count / 2 + index / 2,
        }
    }

    /// Returns the offset of the reference to a child.
    ///
    /// It doesn't wrap around, because the references of an open collection end before the trailer.
    #[inline(always)]
    pub fn reference_place(&self, index: u64, width: usize) -> u64
        requires { index < self.now.count }
        ensures { reference_place self.now index width < 2 ^ 64
            → result ≡ reference_place self.now index width }
    {
        let skipped = self.reference_index(index).wrapping_mul(width as u64);
        self.place
            .wrapping_add(u64::from(self.start))
            .wrapping_add(skipped)
    }
}

// Reads a reference that isn't buffered.
#[cold]
#[inline(never)]
fn read_reference<S: Source>(
    source: &mut S,
    details: &mut FaultDetails,
    place: u64,
    width: usize,
) -> Result<u64, StepFault>
    requires width { width ≤ 8 }
    requires fits { place + width < 2 ^ 64 }
    // Result.
    ensures value { DecodesBy (result_with result details.new) (S.known source.old)
        (λ bytes. number_at bytes place width) }
    // Errors.
    ensures refused { IfRefused (result_with result details.new) (S.known source.old)
        (IsIoWithin place width) }
    ensures fault { ErrWithin place (place + width) (result_with result details.new) }
    // State afterwards.
    ensures unchanged { S.known source.new ≡ S.known source.old }
    ensures failures { CountsIo (Some (result_with result details.new)) (S.failures source.old)
        (S.failures source.new) }
{
    details.keep_error(read_number(source, place, width))
}

/// Reads the references of collections.
///
/// The reader stores copies of the bytes around the references that were read last. The references
/// to consecutive children are read from these copies without asking the source again.
#[derive(Clone, Copy)]
pub struct ReferenceReader {
    /// A copy of bytes with references.
    pub near: Run,
    /// A copy of bytes with the references to values, used if they lie far from the references to
    /// the keys.
    pub values: Run,
    /// Prefetches objects when a copy is filled.
    pub prefetcher: Prefetcher,
}

impl ReferenceReader {
    ghost use Rattle.std.specs.Prelude.{◌≡◌, ◌<◌, ◌≤◌, Option, Some, List, ℕ};
    ghost use Rattle.plist_decode.specs.FaultOffsets.{ErrWithin};
    ghost use Rattle.plist_binread.specs.References.{AreReferencesOf, AreRunsOf, IsNumberAt, ReadsChildAt};
    ghost use Rattle.plist_binread.specs.Step.{stored_references};
    ghost use Rattle.plist_binread.specs.Walking.{walk_objects};
    ghost use Rattle.plist_base.specs.Sources.{CountsIo};
    ghost use Rattle.plist_decode.specs.StepFaults.{result_with};

    /// Creates a reader that hasn't read any references yet.
    pub fn new() -> Self
        ensures { (known : Option (List ℕ)) → AreRunsOf known result }
    {
        ReferenceReader {
            near: Run::new(),
            values: Run::new(),
            prefetcher: Prefetcher::new(),
        }
    }

    /// Reads the reference to the next child of an open collection, and returns the child's number.
    #[inline(always)]
    pub fn read_child<S: Source, C: DecodeCounter>(
        &mut self,
        source: &mut S,
        decoder: &mut Decoder<C>,
        walk: &Walk,
        frame: Frame,
    ) -> Result<u64, StepFault>
        requires object { frame.object < walk_objects walk.now }
        requires next { frame.next < frame.count }
        requires references { AreReferencesOf (S.known source.old) decoder.old.bounds
            (stored_references walk.now frame) }
        requires runs { AreRunsOf (S.known source.old) self.old }
        // Result.
        ensures child { ReadsChildAt (result_with result decoder.new.details) (S.known source.old)
            decoder.old.bounds (stored_references walk.now frame).place frame.next }
        // Errors.
        ensures fault { ErrWithin 0 decoder.old.bounds.trailer
            (result_with result decoder.new.details) }
        // State afterwards.
        ensures runs { AreRunsOf (S.known source.old) self.new }
        ensures bounds { decoder.new.bounds ≡ decoder.old.bounds }
        ensures counter { decoder.new.counter ≡ decoder.old.counter }
        ensures unchanged { S.known source.new ≡ S.known source.old }
        ensures failures { CountsIo (Some (result_with result decoder.new.details))
            (S.failures source.old) (S.failures source.new) }
    {
        let width = decoder.bounds.reference_width;
        let references = walk.references(frame);
        let at = references.reference_place(frame.next, width);
        if let Some(number) = self.near.number_at(at, width) {
            return Ok(number);
        }
        if let Some(number) = self.values.number_at(at, width) {
            return Ok(number);
        }
        if at >= decoder.bounds.trailer || decoder.bounds.trailer - at < width as u64 {
            decoder.details.fail_at(references.place);
            return Err(StepFault::Overrun);
        }
        self.prefetcher.prefetch(source, walk, frame, width);
        let found = match references.kind {
            CollectionKind::Dictionary if frame.next % 2 == 1 => {
                self.values.fill(source, at);
                self.values.number_at(at, width)
            }
            CollectionKind::Array | CollectionKind::Dictionary => {
                self.near.fill(source, at);
                self.near.number_at(at, width)
            }
        };
        match found {
            Some(number) => Ok(number),
            None => read_reference(source, &mut decoder.details, at, width),
        }
    }
}
