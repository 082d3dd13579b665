//! Puts strings, in ASCII or in UTF-16.
#![tactic(auto, using(plist_base::proofs::SinkSteps::puts_then))]

ghost use Rattle.std.specs.Prelude.{◌≡◌, ◌≤◌, true, length};
ghost use Rattle.std.specs.Char.Escape.{encode_utf16};
ghost use Rattle.plist_base.specs.Trees.{String};
ghost use Rattle.plist_base.specs.Utf16.{units_of, utf8_of_utf16};
ghost use Rattle.plist_binwrite.specs.Forms.{scalar_form, table_form, units_begun};
ghost use Rattle.plist_base.specs.Sinks.{Puts};
ghost use Rattle.plist_buffer.specs.inner.LongContents.{is_ascii_text};
ghost use Rattle.plist_buffer.specs.StoredScalars.{IsWide};
ghost use Rattle.std.specs.List.{sum_by};

use crate::forms::{CountedKind, put_length, put_number};
use plist_base::Sink;
use plist_buffer::wide::is_ascii_text;
use std::io::Write;

// Puts the UTF-16 units of a character, each in two bytes in big-endian order.
#[inline(always)]
fn put_char<W: Write>(sink: &mut Sink<'_, W>, c: char)
    ensures { Puts W.contents sink.old (table_form 2 (encode_utf16 c)) sink.new }
{
    let code = u64::from(c as u32);
    if code < 0x1_0000 {
        put_number(sink, 2, code);
        return;
    }
    let above = code - 0x1_0000;
    put_number(sink, 2, 0xd800 + above / 0x400);
    put_number(sink, 2, 0xdc00 + above % 0x400);
}

// Puts the UTF-16 units of a string, each in two bytes.
fn put_units<W: Write>(sink: &mut Sink<'_, W>, text: &str)
    ensures { Puts W.contents sink.old (table_form 2 (units_of text.now)) sink.new }
{
    for c in text.chars() {
        put_char(sink, c);
    }
}

// Returns how many UTF-16 units the character has that begins with this byte of a string, or 0 if
// the byte continues a character.
#[inline(always)]
fn units_begun(byte: u8) -> u8
    ensures { result ≡ units_begun byte }
{
    u8::from(byte < 0x80 || byte >= 0xc0) + u8::from(byte >= 0xf0)
}

// Returns how many UTF-16 units the characters have that begin in these bytes of a string. There
// must be at most 64 bytes, so that the number fits into a byte: then the loop is vectorized, with
// sixteen numbers in a register.
fn count_few_units(bytes: &[u8]) -> u8
    requires { length bytes.now ≤ 64 }
    ensures { result ≡ sum_by units_begun bytes.now }
{
    let mut count = 0;
    for &byte in bytes {
        count += units_begun(byte);
    }
    count
}

/// Returns the number of UTF-16 units of a string.
pub fn count_units(text: &str) -> usize
    ensures value { result ≡ length (units_of text.now) }
{
    let mut count = 0;
    for bytes in text.as_bytes().chunks(64) {
        count += usize::from(count_few_units(bytes));
    }
    count
}

/// Puts a string in ASCII.
#[inline(always)]
pub fn put_ascii<W: Write>(sink: &mut Sink<'_, W>, text: &str)
    requires { is_ascii_text text.now ≡ true }
    ensures { Puts W.contents sink.old (scalar_form (String text.now)) sink.new }
{
    put_length(sink, CountedKind::Text, text.len() as u64);
    sink.put(text.as_bytes());
}

/// Puts a string: in ASCII, if it is ASCII, and otherwise in UTF-16.
pub fn put_text<W: Write>(sink: &mut Sink<'_, W>, text: &str)
    ensures { Puts W.contents sink.old (scalar_form (String text.now)) sink.new }
{
    if is_ascii_text(text) {
        put_ascii(sink, text);
    } else {
        put_length(sink, CountedKind::WideText, count_units(text) as u64);
        put_units(sink, text);
    }
}

/// Puts a string that isn't ASCII, given its units in UTF-16.
#[inline(always)]
pub fn put_wide<W: Write>(sink: &mut Sink<'_, W>, units: &[u8])
    requires { IsWide units.now }
    ensures { Puts W.contents sink.old (scalar_form (String (utf8_of_utf16 units.now))) sink.new }
{
    put_length(sink, CountedKind::WideText, (units.len() / 2) as u64);
    sink.put(units);
}
