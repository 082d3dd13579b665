//! Strings beyond ASCII, which a table stores in UTF-16, as a file does.

ghost use Rattle.std.specs.Prelude.{◌≡◌, ◌++◌, ◌+◌, ◌<◌, false, true, length, IfOk, OnOk};
ghost use Rattle.std.specs.Char.{len_utf8};
ghost use Rattle.std.specs.Char.Escape.{encode_utf16};
ghost use Rattle.std.specs.Int.{bytes_high_first};
ghost use Rattle.std.specs.List.{flat_map};
ghost use Rattle.plist_base.specs.Utf16.{utf16_form};
ghost use Rattle.plist_base.specs.Utf16Strings.{string_of_utf16};
ghost use Rattle.plist_buffer.specs.inner.LongContents.{is_ascii_text};

use plist_base::{Ascii, Utf16Str, all_pass};
use std::alloc::{AllocError, Global};

// Returns whether the greatest byte of a string is ASCII.
#[inline(never)]
fn has_ascii_greatest(text: &str) -> bool
    ensures value { result ≡ is_ascii_text text.now }
{
    // The loop doesn't stop early, so that it can be vectorized.
    let mut greatest = 0u8;
    for byte in text.as_bytes() {
        greatest = greatest.max(*byte);
    }
    greatest < 128
}

/// Returns `true` if every byte of a string is ASCII.
#[inline(always)]
pub fn is_ascii_text(text: &str) -> bool
    ensures value { result ≡ is_ascii_text text.now }
{
    // Most strings are ASCII, and `all_pass` finds this out fastest, but doesn't tell the opposite.
    all_pass::<Ascii>(text.as_bytes()) || has_ascii_greatest(text)
}

/// Returns `true` if a string isn't ASCII and has more than eight bytes in UTF-8.
pub(crate) fn is_long_wide(text: Utf16Str<'_>) -> bool
    ensures wide { result ≡ true → is_ascii_text (string_of_utf16 text.entry) ≡ false }
    ensures long { result ≡ true → 8 < length (string_of_utf16 text.entry) }
{
    let mut is_wide = false;
    let mut count = 0usize;
    for c in text.chars() {
        is_wide |= c as u32 >= 128;
        count = c.len_utf8().saturating_add(count);
        if is_wide && count > 8 {
            return true;
        }
    }
    false
}

// Appends the units of a character, each in two bytes in big-endian order.
fn push_units(units: &mut Vec<u8>, c: char) -> Result<(), AllocError>
    ensures { OnOk result (units.new.items
        ≡ units.old.items ++ flat_map (bytes_high_first 2) (encode_utf16 c)) }
{
    let code = c as u32;
    if code < 0x1_0000 {
        return units.extend_from_slice(&(code as u16).to_be_bytes());
    }
    let above = code - 0x1_0000;
    let high = (0xd800 + above / 0x400) as u16;
    let low = (0xdc00 + above % 0x400) as u16;
    units.extend_from_slice(&high.to_be_bytes())?;
    units.extend_from_slice(&low.to_be_bytes())
}

/// Returns the units of a string, each in two bytes in big-endian order.
pub(crate) fn units_of(alloc: Global, text: &str) -> Result<Vec<u8>, AllocError>
    ensures { IfOk result (λ units. units.items ≡ utf16_form text.now) }
{
    // Most characters have one unit, so the memory seldom has to grow.
    let mut units = Vec::with_capacity(alloc, text.chars().count().saturating_mul(2))?;
    for c in text.chars() {
        push_units(&mut units, c)?;
    }
    Ok(units)
}
