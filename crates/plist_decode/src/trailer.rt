//! Reads the magic, and reads and checks the trailer.

ghost use Rattle.std.specs.Prelude.{◌≡◌, ◌+◌, ◌-◌, ◌^◌, ◌<◌, ◌≤◌, ℕ, List, length, drop, Ok, Err, IfOk, IfErr, ⊤, Some};
ghost use Rattle.plist_base.specs.Faults.{MatchFault, fault_of, kind_of, error_kind_of};
ghost use Rattle.plist_base.specs.Sources.{CountsIo, FailsReading, IsIoWithin};
ghost use Rattle.plist_base.specs.Container.{head_at, head_with, is_width, trailer_in};
ghost use Rattle.plist_decode.specs.inner.Heads.{has_magic, end_of_table, IsNumberWidth, trailer_seen};
ghost use Rattle.plist_decode.specs.FaultOffsets.{ErrWithin};
ghost use Rattle.plist_base.specs.Outcomes.{DecodesBy, IfFault, IfRead, IfRefused};

use crate::numbers::number_from;
use plist_base::marker::MAGIC;
use plist_base::{Error, ErrorKind, Source, read_exact_at};

/// The contents of the trailer.
#[derive(Clone, Copy)]
pub struct Trailer {
    /// How many bytes an entry of the offset table has.
    pub offset_width: u64,
    /// How many bytes a reference has.
    pub reference_width: u64,
    /// The number of objects.
    pub count: u64,
    /// The number of the root object.
    pub root: u64,
    /// The offset at which the offset table begins.
    pub table: u64,
}

/// Returns `true` if the file begins with the magic.
pub fn has_magic<S: Source>(source: &mut S) -> Result<bool, Error>
    // Result.
    ensures value { DecodesBy result (S.known source.old) has_magic }
    // Errors.
    ensures refused { IfRefused result (S.known source.old) (IsIoWithin 0 8) }
    ensures fault { IfFault result (FailsReading 0 8) }
    // State afterwards.
    ensures unchanged { S.known source.new ≡ S.known source.old }
    ensures failures { CountsIo (Some result) (S.failures source.old) (S.failures source.new) }
{
    let mut found = [0; 8];
    read_exact_at(source, 0, &mut found)?;
    Ok(MAGIC.as_slice() == found.as_slice())
}

/// Reads the trailer at the given offset.
pub fn read_trailer<S: Source>(source: &mut S, trailer: u64) -> Result<Trailer, Error>
    requires { trailer + 32 < 2 ^ 64 }
    // Result.
    ensures value { IfRead result (S.known source.old) (λ bytes t.
        length bytes ≡ trailer + 32 → trailer_seen t ≡ trailer_in (drop trailer bytes)) }
    // Errors.
    ensures refused { IfRefused result (S.known source.old) (IsIoWithin trailer 32) }
    ensures fault { IfFault result (FailsReading trailer 32) }
    // State afterwards.
    ensures unchanged { S.known source.new ≡ S.known source.old }
    ensures failures { CountsIo (Some result) (S.failures source.old) (S.failures source.new) }
{
    let mut last = [0; 32];
    read_exact_at(source, trailer, &mut last)?;
    Ok(Trailer {
        offset_width: number_from(&last[6..7]),
        reference_width: number_from(&last[7..8]),
        count: number_from(&last[8..16]),
        root: number_from(&last[16..24]),
        table: number_from(&last[24..32]),
    })
}

fn is_width(width: u64) -> bool
    ensures { result ≡ is_width width }
{
    matches!(width, 1 | 2 | 3 | 4 | 8)
}

/// Checks that the widths are allowed, and that the offset table ends before the trailer.
pub fn check_trailer(trailer: u64, t: &Trailer) -> Result<(), Error>
    // Result.
    ensures value { IfOk result (λ _. (bytes : List ℕ) → head_with bytes trailer
        (trailer_seen t.now) ≡ Ok (head_at bytes trailer (trailer_seen t.now))) }
    ensures offset_width { IfOk result (λ _. IsNumberWidth t.now.offset_width) }
    ensures reference_width { IfOk result (λ _. IsNumberWidth t.now.reference_width) }
    ensures table { IfOk result (λ _. end_of_table t.now ≤ trailer) }
    // Errors.
    ensures refused { IfErr result (λ error. (bytes : List ℕ)
        → head_with bytes trailer (trailer_seen t.now) ≡ Err (fault_of error)) }
    ensures kinds { IfErr result (λ error. MatchFault (kind_of (error_kind_of error)) ⊥ ⊥ ⊤) }
    ensures fault { ErrWithin trailer trailer result }
{
    if !is_width(t.offset_width) {
        return Err(ErrorKind::InvalidTrailerObjectOffsetSize.with_byte_offset(trailer));
    }
    if !is_width(t.reference_width) {
        return Err(ErrorKind::InvalidTrailerObjectReferenceSize.with_byte_offset(trailer));
    }
    match t.count.checked_mul(t.offset_width) {
        Some(size) if t.table <= trailer && size <= trailer - t.table => Ok(()),
        _ => Err(ErrorKind::ObjectOffsetTooLarge.with_byte_offset(trailer)),
    }
}
