//! The printed form of a string in UTF-16, which is the same as for its bytes in UTF-8.

ghost use Rattle.std.specs.Prelude.{◌≡◌, ◌++◌, ◌+◌, ◌*◌, ◌<◌, ◌≤◌, [], encode_utf8, false, length, true};
ghost use Rattle.plist_base.specs.ByteTests.{EachByte};
ghost use Rattle.plist_base.specs.FixedBuffers.{room};
ghost use Rattle.plist_base.specs.Utf16Strings.{chars_left};
ghost use Rattle.plist_print.specs.EscapedLines.{escaped_text};
ghost use Rattle.plist_print.specs.Utf16Lines.{PushesChars};

use crate::plain_bytes::{push_byte, push_escape, push_text};
use plist_base::{FixedBuffer, Utf16Chars};
use plist_decode::utf16::byte_after_first;

// Pushes the escapes of bytes that aren't ASCII.
#[inline(always)]
fn push_escapes(line: &mut FixedBuffer, bytes: &[u8])
    requires high { EachByte (λ byte. 128 ≤ byte) bytes.now }
    requires room { 4 * length bytes.now ≤ room line.old }
    ensures pushed { line.new ≡ line.old ++ escaped_text bytes.now }
    ensures room { room line.old ≤ room line.new + 4 * length bytes.now }
{
    for &byte in bytes {
        push_escape(line, byte);
    }
}

// Pushes the printed form of a character: of its bytes in UTF-8.
#[inline(always)]
#[tactic(auto, using(crate::proofs::Utf16Lines::encoded))]
fn push_char(line: &mut FixedBuffer, c: char)
    requires { 16 ≤ room line.old }
    ensures pushed { line.new ≡ line.old ++ escaped_text (encode_utf8 c) }
    ensures room { room line.old ≤ room line.new + 16 }
{
    let code = c as u32;
    if code < 0x80 {
        push_byte(line, code as u8);
        return;
    }
    let last = byte_after_first(code);
    if code < 0x800 {
        push_escapes(line, &[(0xc0 + code / 64) as u8, last]);
        return;
    }
    let third = byte_after_first(code / 64);
    if code < 0x1_0000 {
        push_escapes(line, &[(0xe0 + code / 4096) as u8, third, last]);
        return;
    }
    let second = byte_after_first(code / 4096);
    push_escapes(line, &[(0xf0 + code / 0x4_0000) as u8, second, third, last]);
}

// Pushes the printed form of the next eight characters if all of them are ASCII, or else that of
// the next one. Returns whether there was one.
#[inline(always)]
#[tactic(auto, using(crate::proofs::Utf16Lines::pushes_next))]
fn push_next(line: &mut FixedBuffer, chars: &mut Utf16Chars<'_>) -> bool
    requires { 32 ≤ room line.old }
    ensures pushed { PushesChars (line.old, chars_left chars.old) (line.new, chars_left chars.new) }
    ensures some { result ≡ true → length (chars_left chars.new) < length (chars_left chars.old) }
    ensures none { result ≡ false → chars_left chars.new ≡ [] }
    ensures room { result ≡ false → room line.new ≡ room line.old }
{
    if let Some(block) = chars.next_eight_ascii() {
        push_text(line, &block);
        return true;
    }
    match chars.next() {
        Some(c) => {
            push_char(line, c);
            true
        }
        None => false,
    }
}

/// Pushes the printed forms of the characters that an iterator still has to yield. If less than 32
/// bytes of room are left after some of them, returns `false`, even if no character remains.
/// Otherwise returns `true` once all are pushed. It isn't inlined, and the loop has an iterator of
/// its own, so that its variables stay in registers.
#[inline(never)]
#[tactic(auto, using(crate::proofs::Utf16Lines::pushes_then))]
pub fn push_chars(line: &mut FixedBuffer, chars: &mut Utf16Chars<'_>) -> bool
    requires { 32 ≤ room line.old }
    ensures pushed { PushesChars (line.old, chars_left chars.old) (line.new, chars_left chars.new) }
    ensures all { result ≡ true → chars_left chars.new ≡ [] }
    ensures some { result ≡ false
        → length (chars_left chars.new) < length (chars_left chars.old) }
    ensures room { result ≡ true → 32 ≤ room line.new }
{
    let mut left = *chars;
    while push_next(line, &mut left) {
        if line.room() < 32 {
            *chars = left;
            return false;
        }
    }
    *chars = left;
    true
}
