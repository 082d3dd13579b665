//! Reads big-endian numbers and bytes at an offset.

ghost use Rattle.std.specs.Prelude.{◌≡◌, ◌+◌, ◌-◌, ◌*◌, ◌^◌, ◌<◌, ◌≤◌, length, IfOk, vec_len, vec_capacity, Some};
ghost use Rattle.plist_base.specs.Sources.{CountsIo, FailsReading, IsIoWithin};
ghost use Rattle.plist_base.specs.Container.{number_of, number_at};
ghost use Rattle.plist_decode.specs.FaultOffsets.{ErrWithin};
ghost use Rattle.plist_decode.specs.Reading.{AreFirstNumbers, IsIoOrMemoryAt};
ghost use Rattle.plist_base.specs.Outcomes.{DecodesBy, IfFault, IfRefused};

use plist_base::{Error, Source, read_exact_at};
use std::alloc::Global;

// Returns the number in four bytes. Files with many objects mostly have numbers of this width, so
// this function has no loop.
fn number_from_four(bytes: &[u8; 4]) -> u64
    ensures value { result ≡ number_of bytes.now }
    ensures small { result < 256 ^ 4 }
{
    let high = u64::from(bytes[0]) * 256 + u64::from(bytes[1]);
    let low = u64::from(bytes[2]) * 256 + u64::from(bytes[3]);
    high * 65536 + low
}

/// Returns the big-endian number in at most eight bytes.
#[inline(always)]
pub fn number_from(bytes: &[u8]) -> u64
    requires { length bytes.now ≤ 8 }
    ensures value { result ≡ number_of bytes.now }
    ensures small { result < 256 ^ length bytes.now }
{
    match bytes.first_chunk::<4>() {
        Some(four) if bytes.len() == 4 => number_from_four(four),
        _ => number_from_each(bytes),
    }
}

// Returns the number in at most eight bytes, one byte at a time.
fn number_from_each(bytes: &[u8]) -> u64
    requires { length bytes.now ≤ 8 }
    ensures value { result ≡ number_of bytes.now }
    ensures small { result < 256 ^ length bytes.now }
{
    let mut number = 0;
    for byte in bytes {
        number = number * 256 + u64::from(*byte);
    }
    number
}

/// Reads the number in the `width` bytes, which are at most eight, at an offset.
///
/// # Errors
///
/// `Io` if a read fails, and `UnexpectedEof` if a read returns no byte. Both have the offset of
/// that read.
#[cold]
#[inline(never)]
pub fn read_number<S: Source>(source: &mut S, place: u64, width: usize) -> Result<u64, Error>
    requires width { width ≤ 8 }
    requires fits { place + width < 2 ^ 64 }
    // Result.
    ensures value { DecodesBy result (S.known source.old) (λ bytes. number_at bytes place width) }
    ensures small { IfOk result (λ number. number < 256 ^ width) }
    // Errors.
    ensures refused { IfRefused result (S.known source.old) (IsIoWithin place width) }
    ensures fault { IfFault result (FailsReading place width) }
    // State afterwards.
    ensures unchanged { S.known source.new ≡ S.known source.old }
    ensures failures { CountsIo (Some result) (S.failures source.old) (S.failures source.new) }
{
    let mut bytes = [0; 8];
    let digits = &mut bytes[..width];
    read_exact_at(source, place, digits)?;
    Ok(number_from(digits))
}

// Appends the next numbers as far as they are buffered, up to `count` numbers in all. The numbers
// lie one after the other from an offset on, and each has `width` bytes.
fn take_buffered<S: Source>(
    source: &S,
    place: u64,
    width: usize,
    count: usize,
    numbers: &mut Vec<u64>,
)
    requires width { (0 < width) × (width ≤ 8) }
    requires fits { place + count * width < 2 ^ 64 }
    requires capacity { count ≤ vec_capacity numbers.old }
    requires few { vec_len numbers.old ≤ count }
    requires items { AreFirstNumbers (S.known source.now) place width numbers.old.items }
    ensures items { AreFirstNumbers (S.known source.now) place width numbers.new.items }
    ensures few { vec_len numbers.new ≤ count }
    ensures more { vec_len numbers.old ≤ vec_len numbers.new }
    ensures capacity { vec_capacity numbers.new ≡ vec_capacity numbers.old }
{
    let read = numbers.len();
    let seen = source.buffered(place + (read * width) as u64);
    let at_hand = (seen.len() / width).min(count - read);
    for i in 0..at_hand {
        numbers.push_reserved(number_from(&seen[i * width..i * width + width]));
    }
}

/// Reads `count` numbers, which lie one after the other from an offset on. Each has `width` bytes,
/// which are at most eight.
///
/// # Errors
///
/// - `Io` if a read fails, and `UnexpectedEof` if a read returns no byte. Both have the offset of
///   that read.
/// - `OutOfMemory`, without an offset, if an allocation fails.
pub fn read_numbers<S: Source>(
    alloc: Global,
    source: &mut S,
    place: u64,
    width: usize,
    count: usize,
) -> Result<Vec<u64>, Error>
    requires width { (0 < width) × (width ≤ 8) }
    requires fits { place + count * width < 2 ^ 64 }
    // Result.
    ensures items { IfOk result (λ numbers.
        AreFirstNumbers (S.known source.old) place width numbers.items) }
    ensures long { IfOk result (λ numbers. vec_len numbers ≡ count) }
    // Errors.
    ensures refused { IfRefused result (S.known source.old) (IsIoOrMemoryAt place (count * width)) }
    ensures fault { ErrWithin place (place + count * width) result }
    // State afterwards.
    ensures unchanged { S.known source.new ≡ S.known source.old }
    ensures failures { CountsIo (Some result) (S.failures source.old) (S.failures source.new) }
{
    let mut numbers = Vec::with_capacity(alloc, count)?;
    while numbers.len() < count {
        let number = read_number(source, place + (numbers.len() * width) as u64, width)?;
        numbers.push_reserved(number);
        take_buffered(source, place, width, count, &mut numbers);
    }
    Ok(numbers)
}
