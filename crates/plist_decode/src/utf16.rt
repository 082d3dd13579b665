//! Decodes strings in UTF-16.

ghost use Rattle.std.specs.Prelude.{◌≡◌, ◌+◌, ◌%◌, ◌++◌, ◌<◌, ◌≤◌, length, take, encode_utf8, string_bytes, IfOk, IfSome, None};
ghost use Rattle.std.specs.Char.{len_utf8};
ghost use Rattle.std.specs.Str.{encode_utf8_all};
ghost use Rattle.plist_base.specs.Utf16Strings.{chars_left, string_of_utf16};
ghost use Rattle.plist_decode.specs.Utf16Writing.{WritesChars};

use plist_base::{Utf16Chars, Utf16Str};
use std::alloc::{AllocError, Global};
use std::simd::prelude::*;

// Writes bytes after the first `size` bytes, and returns where they end.
#[inline(always)]
fn write_bytes(text: &mut [u8], size: usize, bytes: &[u8]) -> usize
    requires { size + length bytes.now ≤ length text.old }
    ensures size { result ≡ size + length bytes.now }
    ensures written { take result text.new ≡ take size text.old ++ bytes.now }
    ensures length { length text.new ≡ length text.old }
{
    let end = size + bytes.len();
    text[size..end].copy_from_slice(bytes);
    end
}

/// Returns the byte in UTF-8 that contains the lowest six bits of a number. It isn't the first byte
/// of a character.
#[inline(always)]
pub fn byte_after_first(bits: u32) -> u8
    ensures { result ≡ 128 + bits % 64 }
{
    (0x80 + bits % 64) as u8
}

// Writes a character that isn't ASCII in UTF-8 after the first `size` bytes, and returns where it
// ends.
#[inline(always)]
fn write_wide_char(text: &mut [u8], size: usize, code: u32) -> usize
    requires code { (0x80 ≤ code) × (code < 0x11_0000) }
    requires room { size + len_utf8 code ≤ length text.old }
    ensures size { result ≡ size + len_utf8 code }
    ensures written { take result text.new ≡ take size text.old ++ encode_utf8 code }
    ensures length { length text.new ≡ length text.old }
{
    let last = byte_after_first(code);
    if code < 0x800 {
        return write_bytes(text, size, &[(0xc0 + code / 64) as u8, last]);
    }
    let third = byte_after_first(code / 64);
    if code < 0x1_0000 {
        return write_bytes(text, size, &[(0xe0 + code / 4096) as u8, third, last]);
    }
    let second = byte_after_first(code / 4096);
    write_bytes(
        text,
        size,
        &[(0xf0 + code / 0x4_0000) as u8, second, third, last],
    )
}

// Writes the next eight characters after the first `size` bytes if all of them are ASCII, or else
// those up to the first one that isn't ASCII, and returns where they end. So eight units are tested
// again only after such a character. If there is none, writes all characters and returns `None`.
#[inline(always)]
fn write_next(text: &mut [u8], size: usize, chars: &mut Utf16Chars<'_>) -> Option<usize>
    requires { size + length (encode_utf8_all (chars_left chars.old)) ≡ length text.old }
    ensures all { result ≡ None
        → text.new ≡ take size text.old ++ encode_utf8_all (chars_left chars.old) }
    ensures some { IfSome result (λ end.
        WritesChars (size, text.old, chars_left chars.old) (end, text.new, chars_left chars.new)) }
    ensures fewer { IfSome result (λ _.
        length (chars_left chars.new) < length (chars_left chars.old)) }
{
    if let Some(block) = chars.next_eight_ascii() {
        // The bytes are stored as a vector, which takes one instruction.
        u8x8::from_array(block).copy_to_slice(&mut text[size..]);
        return Some(size + 8);
    }
    let mut end = size;
    while let Some(c) = chars.next() {
        let code = c as u32;
        if code >= 0x80 {
            return Some(write_wide_char(text, end, code));
        }
        text[end] = code as u8;
        end += 1;
    }
    None
}

// Writes the characters of an iterator in UTF-8. It isn't inlined, and the loop has an iterator of
// its own, so that the loop's variables stay in registers.
#[inline(never)]
fn write_chars(text: &mut [u8], chars: Utf16Chars<'_>)
    requires { length text.old ≡ length (encode_utf8_all (chars_left chars)) }
    ensures { text.new ≡ encode_utf8_all (chars_left chars.entry) }
{
    let mut left = chars;
    let mut size = 0;
    while let Some(end) = write_next(text, size, &mut left) {
        size = end;
    }
}

/// Writes a string in UTF-8 to `text`, and returns it. `text` must have exactly as many bytes as
/// the string has in UTF-8.
pub fn write_utf8<'t>(string: Utf16Str<'_>, text: &'t mut [u8]) -> &'t str
    requires { length text.old ≡ length (string_of_utf16 string) }
    ensures { result.now ≡ string_of_utf16 string.entry }
{
    write_chars(text, string.chars());
    unsafe { str::from_utf8_unchecked(text) }
}

/// Returns a string in UTF-8, or fails if memory for it can't be allocated.
pub fn to_utf8(alloc: Global, text: Utf16Str<'_>) -> Result<String, AllocError>
    ensures { IfOk result (λ decoded. string_bytes decoded ≡ string_of_utf16 text.entry) }
{
    let mut decoded = vec![in alloc; 0u8; text.len_utf8()]?;
    write_chars(&mut decoded, text.chars());
    Ok(unsafe { String::from_utf8_unchecked(decoded) })
}
