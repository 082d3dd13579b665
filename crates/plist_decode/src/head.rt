//! Reads the head of a file, which says where the objects are and how to read them.

ghost use Rattle.std.specs.Prelude.{◌^◌, ◌<◌, ◌≤◌};

use crate::numbers::read_numbers;
use crate::trailer::{check_trailer, has_magic, read_trailer};
use plist_base::{Error, ErrorKind, Source};
use std::alloc::Global;

const MAGIC_SIZE: u64 = 8;

const TRAILER_SIZE: u64 = 32;

/// The head of a file: the offset of every object by its number, and how to read the objects.
#[derive(Drop)]
pub struct Head {
    /// The offset of the trailer. All objects end before it.
    pub trailer: u64,
    /// How many bytes a reference has.
    pub reference_width: usize,
    /// The number of the root object.
    pub root: u64,
    /// The offset of every object, by its number.
    pub places: Vec<u64>,
    ghost width: { (0 < reference_width) × (reference_width ≤ 8) },
}

/// Where the objects end, and how wide a reference is.
#[derive(Clone, Copy)]
pub struct Bounds {
    /// The offset of the trailer. All objects end before it.
    pub trailer: u64,
    /// How many bytes a reference has.
    pub reference_width: usize,
    ghost width: { (0 < reference_width) × (reference_width ≤ 8) },
    ghost small: { trailer < 2 ^ 64 },
}

impl Bounds {
    ghost use Rattle.std.specs.Prelude.{◌≡◌};

    /// Creates the bounds of a file without objects.
    pub fn new() -> Self
        ensures { result.trailer ≡ 0 }
    {
        Bounds {
            trailer: 0,
            reference_width: 1,
        }
    }
}

impl Head {
    ghost use Rattle.std.specs.Prelude.{◌≡◌, ◌+◌, ◌^◌, ◌<◌, ◌≤◌, length, Err, IfOk, Ok, Some, ⊤};
    ghost use Rattle.plist_base.specs.Faults.{MatchFault};
    ghost use Rattle.plist_base.specs.Container.{head_of};
    ghost use Rattle.plist_base.specs.Sources.{CountsIo};
    ghost use Rattle.plist_base.specs.Outcomes.{IfRead, IfRefused};
    ghost use Rattle.plist_decode.specs.FaultOffsets.{ErrWithin};
    ghost use Rattle.plist_decode.specs.inner.Heads.{head_seen, IsHeadBefore, IsFaultBefore};

    /// Reads the head of a file.
    ///
    /// # Errors
    ///
    /// - `UnexpectedEof`, `InvalidMagic`, `InvalidTrailerObjectOffsetSize`,
    ///   `InvalidTrailerObjectReferenceSize` or `ObjectOffsetTooLarge`, with an offset, if the head
    ///   is invalid or the source ends early.
    /// - `Io`, with an offset, if a call of the source fails.
    /// - `OutOfMemory`, without an offset, if the offsets of the objects can't be allocated.
    pub fn read<S: Source>(alloc: Global, source: &mut S) -> Result<Self, Error>
        // Result.
        ensures value { IfRead result (S.known source.old)
            (λ bytes head. head_of bytes ≡ Ok (head_seen head)) }
        ensures within { IfRead result (S.known source.old)
            (λ bytes head. head.trailer ≤ length bytes) }
        // Errors.
        ensures refused { IfRefused result (S.known source.old)
            (λ bytes fault. MatchFault fault.kind ⊤ ⊤ (head_of bytes ≡ Err fault)) }
        ensures fault { ErrWithin 0 (2 ^ 64) result }
        // State afterwards.
        ensures unchanged { S.known source.new ≡ S.known source.old }
        ensures failures { CountsIo (Some result) (S.failures source.old) (S.failures source.new) }
    {
        let size = match source.size() {
            Ok(size) => size,
            Err(error) => return Err(ErrorKind::Io(error).with_byte_offset(0)),
        };
        if size < MAGIC_SIZE {
            return Err(ErrorKind::UnexpectedEof.with_byte_offset(size));
        }
        if !has_magic(source)? {
            return Err(ErrorKind::InvalidMagic.with_byte_offset(0));
        }
        if size < TRAILER_SIZE {
            return Err(ErrorKind::UnexpectedEof.with_byte_offset(size));
        }
        Head::read_before(alloc, source, size - TRAILER_SIZE)
    }

    // Reads the head of a file whose trailer is at this offset.
    fn read_before<S: Source>(alloc: Global, source: &mut S, trailer: u64) -> Result<Self, Error>
        requires { trailer + 32 < 2 ^ 64 }
        // Result.
        ensures value { IfRead result (S.known source.old) (IsHeadBefore trailer) }
        ensures trailer { IfOk result (λ head. head.trailer ≡ trailer) }
        // Errors.
        ensures refused { IfRefused result (S.known source.old) (IsFaultBefore trailer) }
        ensures fault { ErrWithin 0 (trailer + 32) result }
        // State afterwards.
        ensures unchanged { S.known source.new ≡ S.known source.old }
        ensures failures { CountsIo (Some result) (S.failures source.old) (S.failures source.new) }
    {
        let t = read_trailer(source, trailer)?;
        check_trailer(trailer, &t)?;
        let width = t.offset_width as usize;
        let places = read_numbers(alloc, source, t.table, width, t.count as usize)?;
        Ok(Head {
            trailer,
            reference_width: t.reference_width as usize,
            root: t.root,
            places,
        })
    }
}
