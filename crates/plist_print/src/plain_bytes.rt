//! The printed form of a string: an escape for `"`, `\` and any byte that isn't printable ASCII,
//! and any other byte as it is.

ghost use Rattle.std.specs.Prelude.{◌≡◌, ◌++◌, ◌+◌, ◌*◌, ◌<◌, ◌≤◌, false, length, true};
ghost use Rattle.plist_base.specs.ByteTests.{EachByte};
ghost use Rattle.plist_base.specs.Events.{ScalarEvent};
ghost use Rattle.plist_base.specs.FixedBuffers.{room};
ghost use Rattle.plist_base.specs.Trees.{String};
ghost use Rattle.plist_print.specs.EscapedLines.{escaped_byte, escaped_text, line_of, stands_for_itself};

use crate::hexadecimal::digits_of;
use plist_base::{ByteTest, FixedBuffer};
use std::simd::prelude::*;

// `PLAIN[byte]` says whether this byte of a string is printed as it is.
const PLAIN: [bool; 256] = [
    false, false, false, false, false, false, false, false, false, false, false, false, false,
    false, false, false, false, false, false, false, false, false, false, false, false, false,
    false, false, false, false, false, false, true, true, false, true, true, true, true, true,
    true, true, true, true, true, true, true, true, true, true, true, true, true, true, true, true,
    true, true, true, true, true, true, true, true, true, true, true, true, true, true, true, true,
    true, true, true, true, true, true, true, true, true, true, true, true, true, true, true, true,
    true, true, true, true, false, true, true, true, true, true, true, true, true, true, true,
    true, true, true, true, true, true, true, true, true, true, true, true, true, true, true, true,
    true, true, true, true, true, true, true, true, false, false, false, false, false, false,
    false, false, false, false, false, false, false, false, false, false, false, false, false,
    false, false, false, false, false, false, false, false, false, false, false, false, false,
    false, false, false, false, false, false, false, false, false, false, false, false, false,
    false, false, false, false, false, false, false, false, false, false, false, false, false,
    false, false, false, false, false, false, false, false, false, false, false, false, false,
    false, false, false, false, false, false, false, false, false, false, false, false, false,
    false, false, false, false, false, false, false, false, false, false, false, false, false,
    false, false, false, false, false, false, false, false, false, false, false, false, false,
    false, false, false, false, false, false, false, false, false, false, false, false, false,
    false, false, false, false, false, false,
];

// Returns whether a byte of a string is printed as it is. For a single byte, a look-up in the table
// is faster than the comparisons.
#[tactic(auto, using(crate::proofs::Tables::is_marked))]
fn is_marked_plain(byte: u8) -> bool
    ensures { result ≡ stands_for_itself byte }
{
    PLAIN[byte as usize]
}

// Tests whether bytes of a string are printed as they are.
struct Plain;

#[tactic(auto, using(crate::proofs::ScalarLines::plain_block))]
impl ByteTest for Plain {
    ghost use Rattle.std.specs.Prelude.{◌≡◌, true};
    ghost use Rattle.plist_print.specs.EscapedLines.{stands_for_itself};

    ghost passes = { λ byte. stands_for_itself byte ≡ true };

    #[inline(always)]
    fn sixteen(bytes: u8x16) -> bool {
        let control = bytes.simd_lt(u8x16::splat(0x20)).to_bitmask();
        let high = bytes.simd_ge(u8x16::splat(0x7f)).to_bitmask();
        let backslash = bytes.simd_eq(u8x16::splat(b'\\')).to_bitmask();
        let quote = bytes.simd_eq(u8x16::splat(b'"')).to_bitmask();
        control | high | backslash | quote == 0
    }

    #[inline(always)]
    fn eight(bytes: u8x8) -> bool {
        let control = bytes.simd_lt(u8x8::splat(0x20)).to_bitmask();
        let high = bytes.simd_ge(u8x8::splat(0x7f)).to_bitmask();
        let backslash = bytes.simd_eq(u8x8::splat(b'\\')).to_bitmask();
        let quote = bytes.simd_eq(u8x8::splat(b'"')).to_bitmask();
        control | high | backslash | quote == 0
    }

    #[inline(always)]
    fn one(byte: u8) -> bool {
        is_marked_plain(byte)
    }
}

/// Pushes the escape of a byte that isn't printed as it is.
#[inline(always)]
pub fn push_escape(line: &mut FixedBuffer, byte: u8)
    requires escaped { stands_for_itself byte ≡ false }
    requires room { 4 ≤ room line.old }
    ensures pushed { line.new ≡ line.old ++ escaped_byte byte }
    ensures room { room line.old ≤ room line.new + 4 }
{
    let [high, low] = digits_of(byte);
    line.push(&[b'\\', b'x', high, low]);
}

/// Pushes a byte of a string, or its escape.
#[inline(always)]
pub fn push_byte(line: &mut FixedBuffer, byte: u8)
    requires { 4 ≤ room line.old }
    ensures pushed { line.new ≡ line.old ++ escaped_byte byte }
    ensures room { room line.old ≤ room line.new + 4 }
{
    if is_marked_plain(byte) {
        line.push(&[byte]);
        return;
    }
    push_escape(line, byte);
}

// Pushes a string byte by byte.
#[inline(always)]
fn push_escaped(line: &mut FixedBuffer, text: &[u8])
    requires { 4 * length text.now ≤ room line.old }
    ensures pushed { line.new ≡ line.old ++ escaped_text text.now }
    ensures room { room line.old ≤ room line.new + 4 * length text.now }
{
    for &byte in text {
        push_byte(line, byte);
    }
}

/// Pushes the printed form of a string, which has at most four bytes for every byte of the string.
/// A string that needs no escape is tested and copied in one pass.
#[inline(always)]
pub fn push_text(line: &mut FixedBuffer, text: &[u8])
    requires { 4 * length text.now ≤ room line.old }
    ensures pushed { line.new ≡ line.old ++ escaped_text text.now }
    ensures room { room line.old ≤ room line.new + 4 * length text.now }
{
    if !line.push_passing::<Plain, 0, 0>([], text, []) {
        push_escaped(line, text);
    }
}

// Pushes the line of a string byte by byte. It isn't inlined, so that the variables of the loop
// stay in registers.
#[inline(never)]
fn push_escaped_line(line: &mut FixedBuffer, text: &[u8])
    requires { 4 * length text.now + 64 ≤ room line.old }
    ensures { line.new ≡ line.old ++ line_of (ScalarEvent (String text.now)) }
{
    line.push(b"String \"");
    push_escaped(line, text);
    line.push(b"\"\n");
}

/// Pushes the line of a string that needs no escape, and returns `true`. If the string needs one,
/// it returns `false` and pushes nothing. The string is tested and copied in one pass.
#[inline(always)]
pub fn push_plain_line(line: &mut FixedBuffer, text: &[u8]) -> bool
    requires { length text.now + 64 ≤ room line.old }
    ensures pushed { result ≡ true
        → line.new ≡ line.old ++ line_of (ScalarEvent (String text.now)) }
    ensures ascii { result ≡ true → EachByte (λ byte. byte < 128) text.now }
    ensures unchanged { result ≡ false → line.new ≡ line.old }
{
    line.push_passing::<Plain, 8, 2>(*b"String \"", text, *b"\"\n")
}

/// Pushes the line of a string.
#[inline(always)]
pub fn push_text_line(line: &mut FixedBuffer, text: &[u8])
    requires { 4 * length text.now + 64 ≤ room line.old }
    ensures { line.new ≡ line.old ++ line_of (ScalarEvent (String text.now)) }
{
    if !push_plain_line(line, text) {
        push_escaped_line(line, text);
    }
}
