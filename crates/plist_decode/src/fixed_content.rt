//! Decodes objects of a fixed size: integers, reals, dates and Uids.
//!
//! Each function reads the bytes that follow the marker. If the object ends before the trailer,
//! they contain all of it.

ghost use Rattle.std.specs.Prelude.{◌≡◌, ◌++◌, ◌^◌, ◌<◌, ◌≤◌, ℕ, List, length, IfNone, IfSome};
ghost use Rattle.plist_base.specs.Container.{number_of};
ghost use Rattle.plist_base.specs.Object.{Object, Scalar, date, meaning_of_front, signed_integer, unsigned_integer, wide_integer};
ghost use Rattle.plist_base.specs.Trees.{Real, Uid as UidScalar};
ghost use Rattle.plist_base.specs.declared.real.RealBits.TheVariants.{Eight, Four};
ghost use Rattle.plist_decode.specs.Decoded.{DecodesFixed};

use crate::decoded::{AfterMarker, Decoded};
use crate::numbers::number_from;
use crate::step_fault::StepFault;
use plist_base::marker::UidWidth;
use plist_base::{PackedScalar, RealBits, Uid};

// Returns the number in the first `width` bytes, or `None` if there are fewer bytes.
#[inline(always)]
fn front_number(rest: &[u8], width: usize) -> Option<u64>
    requires { width ≤ 8 }
    // Whatever follows, this is the content of an object of `width` bytes.
    ensures value { IfSome result (λ number. (more : List ℕ) (meaning : ℕ → Object) →
        meaning_of_front width (λ content. meaning (number_of content)) (rest.now ++ more)
        ≡ meaning number) }
    ensures small { IfSome result (λ n. n < 256 ^ width) }
    ensures short { IfNone result (length rest.now < width) }
{
    if rest.len() < width {
        return None;
    }
    Some(number_from(&rest[..width]))
}

// Returns the first `N` bytes, or `None` if there are fewer bytes.
fn front_content<const N: usize>(rest: &[u8]) -> Option<[u8; N]>
    // Whatever follows, this is the content of an object of `N` bytes.
    ensures content { IfSome result (λ content. (more : List ℕ) (meaning : List ℕ → Object) →
        meaning_of_front N meaning (rest.now ++ more) ≡ meaning content) }
    ensures short { IfNone result (length rest.now < N) }
{
    match rest.first_chunk::<N>() {
        Some(content) => Some(*content),
        None => None,
    }
}

/// Decodes an unsigned integer.
#[inline(always)]
pub fn decode_unsigned(rest: AfterMarker<'_>, width: usize) -> Decoded
    requires { width ≤ 8 }
    ensures { DecodesFixed width unsigned_integer rest.entry result }
{
    match front_number(rest.bytes, width) {
        Some(number) => Decoded::small(PackedScalar::of_unsigned(number)),
        None => Decoded::faulty(StepFault::Overrun),
    }
}

/// Decodes a signed integer of eight bytes.
#[inline(always)]
pub fn decode_signed(rest: AfterMarker<'_>) -> Decoded
    ensures { DecodesFixed 8 signed_integer rest.entry result }
{
    match front_number(rest.bytes, 8) {
        Some(number) => Decoded::small(PackedScalar::of_signed(number.cast_signed())),
        None => Decoded::faulty(StepFault::Overrun),
    }
}

/// Decodes an integer of sixteen bytes. The first eight bytes have to be zero, because no other
/// integer fits into a `u64`.
#[inline(always)]
pub fn decode_wide_integer(rest: AfterMarker<'_>) -> Decoded
    ensures { DecodesFixed 16 wide_integer rest.entry result }
{
    let bytes = rest.bytes;
    if bytes.len() < 16 {
        return Decoded::faulty(StepFault::Overrun);
    }
    let high = number_from(&bytes[..8]);
    let low = number_from(&bytes[8..16]);
    if high != 0 {
        return Decoded::faulty(StepFault::OutOfRange);
    }
    Decoded::small(PackedScalar::of_unsigned(low))
}

/// Decodes a Uid.
#[inline(always)]
pub fn decode_uid(rest: AfterMarker<'_>, width: UidWidth) -> Decoded
    ensures { DecodesFixed width (λ content. Scalar (UidScalar (number_of content))) rest.entry result }
{
    match front_number(rest.bytes, width.get()) {
        Some(number) => Decoded::small(PackedScalar::of_uid(Uid::new(number))),
        None => Decoded::faulty(StepFault::Overrun),
    }
}

/// Decodes a real of eight bytes.
pub fn decode_real(rest: AfterMarker<'_>) -> Decoded
    ensures { DecodesFixed 8 (λ content. Scalar (Real (Eight content))) rest.entry result }
{
    match front_content(rest.bytes) {
        Some(bytes) => Decoded::small(PackedScalar::of_real(RealBits::Eight(bytes))),
        None => Decoded::faulty(StepFault::Overrun),
    }
}

/// Decodes a real of four bytes.
pub fn decode_short_real(rest: AfterMarker<'_>) -> Decoded
    ensures { DecodesFixed 4 (λ content. Scalar (Real (Four content))) rest.entry result }
{
    match front_content(rest.bytes) {
        Some(bytes) => Decoded::small(PackedScalar::of_real(RealBits::Four(bytes))),
        None => Decoded::faulty(StepFault::Overrun),
    }
}

/// Decodes the bytes of a date, and leaves the check of its range to the caller.
pub fn decode_date(rest: AfterMarker<'_>) -> Decoded
    ensures { DecodesFixed 8 date rest.entry result }
{
    match front_content(rest.bytes) {
        Some(bytes) => Decoded::Date(u64::from_be_bytes(bytes)),
        None => Decoded::faulty(StepFault::Overrun),
    }
}
