//! Strings in UTF-16.

ghost use Rattle.std.specs.Prelude.{◌≡◌, ℕ, ◌+◌, ◌*◌, ◌/◌, ◌<◌, ◌≤◌, nat_le, false, true, drop, length, slice_index, take, None, IfSome, MatchOption, ◌%◌, ◌++◌};
ghost use Rattle.std.specs.List.{count_by, sum_by};
ghost use Rattle.std.proofs.Props.{props};
ghost use Rattle.std.specs.Char.Utf16.{has_unpaired_surrogate};
ghost use Rattle.plist_base.specs.ByteTests.{EachByte};
ghost use Rattle.plist_base.specs.Container.{numbers_spelled};
ghost use Rattle.plist_base.specs.Faults.{InvalidUtf16String};
ghost use Rattle.plist_base.specs.Object.{Faulty, Scalar, wide_text};
ghost use Rattle.plist_base.specs.Trees.{String};
ghost use Rattle.plist_base.specs.Utf16.{ArePaired, IsAsciiBlock, IsNextChar, IsUnpaired, IsUtf16, unit_at, chars_of_utf16, utf8_of_utf16, utf8_share};

use crate::byte_test::{Below, all_pass};
use std::simd::prelude::*;

// Tests whether bytes are less than the first bytes of all surrogates.
type BelowSurrogates = Below<0xd8>;

// Returns the unit at an index.
#[inline(always)]
fn unit_at(bytes: &[u8], index: usize) -> u32
    requires { 2 * index + 2 ≤ length bytes.now }
    ensures value { result ≡ unit_at bytes.now index }
    ensures small { result < 0x1_0000 }
{
    u32::from(bytes[2 * index]) * 256 + u32::from(bytes[2 * index + 1])
}

// Returns the character of the surrogate pair that begins at an index, and the index after it, or
// `None` if the surrogate at the index is unpaired.
#[cold]
#[inline(never)]
#[tactic(auto, using(crate::proofs::Utf16Units::surrogates))]
fn pair_at(bytes: &[u8], at: usize) -> Option<(char, usize)>
    requires within { 2 * at + 2 ≤ length bytes.now }
    requires surrogate { (0xd800 ≤ unit_at bytes.now at) × (unit_at bytes.now at < 0xe000) }
    ensures { MatchOption result (IsUnpaired bytes.now at) (IsNextChar bytes.now at) }
{
    let high = unit_at(bytes, at);
    if high >= 0xdc00 || bytes.len() < 2 * at + 4 {
        return None;
    }
    let low = unit_at(bytes, at + 1);
    if low < 0xdc00 || low >= 0xe000 {
        return None;
    }
    let code = 0x1_0000 + (high - 0xd800) * 0x400 + (low - 0xdc00);
    Some((unsafe { char::from_u32_unchecked(code) }, at + 2))
}

// Returns the character that begins with the unit at an index, and the index of the unit after the
// character, or `None` if the unit is an unpaired surrogate.
#[inline(always)]
#[tactic(auto, using(crate::proofs::Utf16Units::next_lone, crate::proofs::Utf16Units::scalar_of))]
fn char_at(bytes: &[u8], at: usize) -> Option<(char, usize)>
    requires { 2 * at + 2 ≤ length bytes.now }
    ensures { MatchOption result (IsUnpaired bytes.now at) (IsNextChar bytes.now at) }
{
    let unit = unit_at(bytes, at);
    if unit >= 0xd800 && unit < 0xe000 {
        return pair_at(bytes, at);
    }
    Some((unsafe { char::from_u32_unchecked(unit) }, at + 1))
}

// Returns whether the first bytes of eight units are less than those of all surrogates.
#[inline(always)]
fn are_below_surrogates(units: &[u8]) -> bool
    requires { 16 ≤ length units.now }
    ensures { result ≡ true → (k : ℕ) → k < 8 → slice_index units.now (2 * k) < 0xd8 }
{
    let first = u8x16::from_slice(units).swizzle::<8>([0, 2, 4, 6, 8, 10, 12, 14]);
    first.simd_ge(u8x8::splat(0xd8)).to_bitmask() == 0
}

// Returns whether each surrogate is paired.
#[inline(never)]
#[tactic(auto, using(crate::proofs::Utf16Units::at_end, crate::proofs::Utf16Blocks::after_block))]
fn all_paired(bytes: &[u8]) -> bool
    ensures yes { result ≡ true → ArePaired bytes.now }
    ensures no { result ≡ false → has_unpaired_surrogate (numbers_spelled 2 bytes.now) ≡ true }
{
    let count = bytes.len() / 2;
    let mut at = 0;
    while at < count {
        if count - at >= 8 && are_below_surrogates(&bytes[2 * at..]) {
            at += 8;
        } else if let Some((_, next)) = char_at(bytes, at) {
            at = next;
        } else {
            return false;
        }
    }
    true
}

// Returns how many bytes a unit adds to its string in UTF-8. The four bytes of the character of a
// surrogate pair are those of two units.
#[inline(always)]
fn utf8_share(unit: u32) -> usize
    ensures value { result ≡ utf8_share unit }
    ensures small { result ≤ 3 }
{
    if unit < 0x80 {
        return 1;
    }
    if unit < 0x800 || unit >= 0xd800 && unit < 0xe000 {
        return 2;
    }
    3
}

// Returns how many of eight units are at least this number.
#[inline(always)]
fn count_from(units: u16x8, least: u16) -> u32
    ensures { result ≡ count_by (λ unit. nat_le least unit) units }
{
    units.simd_ge(u16x8::splat(least)).to_bitmask().count_ones()
}

// Returns how many bytes eight units add to their string in UTF-8.
#[inline(always)]
fn eight_shares(units: u16x8) -> usize
    ensures value { result ≡ sum_by utf8_share units }
    ensures small { result ≤ 24 }
{
    let wide = count_from(units, 0x80) + count_from(units, 0x800);
    let surrogates = count_from(units, 0xd800) - count_from(units, 0xe000);
    (8 + wide - surrogates) as usize
}

// Returns the eight units from an index on.
#[inline(always)]
#[tactic(auto, using(crate::proofs::Utf16Shares::units_of_bytes))]
fn eight_units(bytes: &[u8], at: usize) -> u16x8
    requires { 2 * at + 16 ≤ length bytes.now }
    ensures { result ≡ take 8 (drop at (numbers_spelled 2 bytes.now)) }
{
    let pairs = u8x16::from_slice(&bytes[2 * at..]);
    let turned = pairs.swizzle::<16>([1, 0, 3, 2, 5, 4, 7, 6, 9, 8, 11, 10, 13, 12, 15, 14]);
    u16x8::from_le_bytes(turned)
}

/// A string in UTF-16: its units, each in two bytes in big-endian order. Every surrogate is paired.
#[derive(Clone, Copy)]
pub struct Utf16Str<'a> {
    bytes: &'a [u8],
    ghost valid: { IsUtf16 bytes.now } by { Prim.hlevel props },
}

impl<'a> Utf16Str<'a> {
    ghost use Rattle.plist_base.specs.Utf16Strings.{chars_left, string_of_utf16};

    /// Returns the string with the given bytes as its units, or `None` if a surrogate is unpaired.
    pub fn new(bytes: &'a [u8]) -> Option<Utf16Str<'a>>
        requires { length bytes.now % 2 ≡ 0 }
        ensures string { MatchOption result (wide_text bytes.now ≡ Faulty InvalidUtf16String)
            (λ text. wide_text bytes.now ≡ Scalar (String (string_of_utf16 text))) }
        ensures bytes { IfSome result (λ text. text.bytes.now ≡ bytes.now) }
    {
        if all_pass::<BelowSurrogates>(bytes) || all_paired(bytes) {
            return Some(Utf16Str { bytes });
        }
        None
    }

    /// Returns the string with the given bytes as its units. Every surrogate must be paired.
    #[inline(always)]
    pub fn from_valid(bytes: &'a [u8]) -> Utf16Str<'a>
        requires { IsUtf16 bytes.now }
        ensures { string_of_utf16 result ≡ utf8_of_utf16 bytes.now }
    {
        Utf16Str { bytes }
    }

    /// Returns the bytes of the units.
    #[inline(always)]
    pub fn as_bytes(self) -> &'a [u8]
        ensures valid { IsUtf16 result.now }
        ensures string { utf8_of_utf16 result.now ≡ string_of_utf16 self.entry }
    {
        self.bytes
    }

    /// Returns the number of bytes that the string has in UTF-8.
    #[tactic(auto, using(crate::proofs::Utf16Shares::shares))]
    pub fn len_utf8(self) -> usize
        ensures { result ≡ length (string_of_utf16 self.entry) }
    {
        let mut size = 0;
        let blocks = self.bytes.len() / 16;
        for block in 0..blocks {
            size += eight_shares(eight_units(self.bytes, 8 * block));
        }
        for at in 8 * blocks..self.bytes.len() / 2 {
            size += utf8_share(unit_at(self.bytes, at));
        }
        size
    }

    /// Returns an iterator over the characters.
    #[inline(always)]
    pub fn chars(self) -> Utf16Chars<'a>
        ensures { chars_left result ≡ chars_of_utf16 self.entry.bytes.now }
    {
        let bytes = self.bytes;
        Utf16Chars { bytes, at: 0 }
    }
}

// Returns the second bytes of the first eight units if these are ASCII.
#[inline(always)]
fn ascii_block(units: &[u8]) -> Option<[u8; 8]>
    requires { 16 ≤ length units.now }
    ensures { IfSome result (λ block. IsAsciiBlock units.now block) }
{
    let bytes = u8x16::from_slice(units);
    let first = bytes.swizzle::<8>([0, 2, 4, 6, 8, 10, 12, 14]);
    let second = bytes.swizzle::<8>([1, 3, 5, 7, 9, 11, 13, 15]);
    let not_zero = first.simd_ge(u8x8::splat(1)).to_bitmask();
    let not_ascii = second.simd_ge(u8x8::splat(0x80)).to_bitmask();
    if not_zero | not_ascii == 0 {
        return Some(second.to_array());
    }
    None
}

/// An iterator over the characters of a string in UTF-16.
#[derive(Clone, Copy)]
pub struct Utf16Chars<'a> {
    bytes: &'a [u8],
    // The index of the next unit.
    at: usize,
    ghost within: { at ≤ length bytes.now / 2 },
    ghost paired: { has_unpaired_surrogate (drop at (numbers_spelled 2 bytes.now)) ≡ false },
}

impl<'a> Utf16Chars<'a> {
    ghost use Rattle.plist_base.specs.Utf16Strings.{chars_left};

    /// Yields the next eight characters if all of them are ASCII. Otherwise yields none of them.
    #[inline(always)]
    #[tactic(auto, using(crate::proofs::Utf16Blocks::blocks))]
    pub fn next_eight_ascii(&mut self) -> Option<[u8; 8]>
        ensures yielded { IfSome result
            (λ block. chars_left self.old ≡ block ++ chars_left self.new) }
        ensures ascii { IfSome result (λ block. EachByte (λ byte. byte < 128) block) }
        ensures unchanged { result ≡ None → self.new ≡ self.old }
    {
        if self.bytes.len() / 2 - self.at < 8 {
            return None;
        }
        // In a script other than Latin, the first unit is seldom ASCII.
        if self.bytes[2 * self.at] != 0 {
            return None;
        }
        let block = ascii_block(&self.bytes[2 * self.at..])?;
        self.at += 8;
        Some(block)
    }
}

impl<'a> Iterator for Utf16Chars<'a> {
    type Item = char;

    ghost use Rattle.std.specs.Iterator.{YieldsFirst, item_count};
    ghost use Rattle.plist_base.specs.Utf16Strings.{chars_left};

    ghost next_gives = { YieldsFirst chars_left };

    ghost remaining = { item_count chars_left };

    #[inline(always)]
    #[tactic(auto, using(crate::proofs::Utf16Units::at_end))]
    fn next(&mut self) -> Option<char> {
        if self.at >= self.bytes.len() / 2 {
            return None;
        }
        let (c, next) = char_at(self.bytes, self.at)?;
        self.at = next;
        Some(c)
    }
}
