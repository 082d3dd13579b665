//! The line of every event.

ghost use Rattle.std.specs.Prelude.{◌≡◌, ◌++◌, ◌+◌, ◌*◌, ◌≤◌, codes, length};
ghost use Rattle.std.specs.Fmt.{decimal, signed_decimal};
ghost use Rattle.plist_base.specs.Events.{ScalarEvent};
ghost use Rattle.plist_base.specs.FixedBuffers.{room};
ghost use Rattle.plist_base.specs.PackedScalars.{scalar_of_packed};
ghost use Rattle.plist_base.specs.Trees.{Data};
ghost use Rattle.plist_print.specs.EscapedLines.{hexadecimal, in_notation, line_of, text_of_date, text_of_start};

use crate::hexadecimal::push_hexadecimal;
use crate::plain_bytes::{push_text, push_text_line};
use plist_base::{Date, FixedBuffer, PackedKind, PackedScalar};

/// How the bytes of a string or data are printed.
#[derive(Clone, Copy)]
pub enum Notation {
    /// As in a string: an escape for `"`, `\` and any byte that isn't printable ASCII, and any
    /// other byte as it is.
    Text,
    /// As in data: two hexadecimal digits for every byte.
    Hexadecimal,
}

/// An upper bound of the number of bytes in a line, apart from the printed bytes of a string or
/// data in it.
pub const MAX_FIXED_LINE: usize = 64;

/// An upper bound of the number of bytes in the line of a packed scalar: each of the eight bytes of
/// a string may be printed as four.
pub const MAX_PACKED_LINE: usize = 96;

/// Pushes the printed form of the bytes, which has at most four bytes for every one of them.
pub fn push_bytes(line: &mut FixedBuffer, bytes: &[u8], notation: Notation)
    requires { 4 * length bytes.now ≤ room line.old }
    ensures { line.new ≡ line.old ++ in_notation notation bytes.now }
{
    match notation {
        Notation::Text => push_text(line, bytes),
        Notation::Hexadecimal => push_hexadecimal(line, bytes),
    }
}

// Pushes the line of a number: a word, its digits and the LF.
#[inline(always)]
fn push_number<const N: usize>(line: &mut FixedBuffer, word: [u8; N], number: u64)
    requires { N + 21 ≤ room line.old }
    ensures { line.new ≡ line.old ++ (word.entry ++ decimal number ++ codes "\n") }
{
    line.push_array(word);
    line.push_decimal(number);
    line.push(b"\n");
}

/// Pushes the line of a start: its word, the number of items or pairs if it is known, and the LF.
#[inline(always)]
pub fn push_start<const N: usize>(line: &mut FixedBuffer, word: [u8; N], count: Option<u64>)
    requires { N + 22 ≤ room line.old }
    ensures { line.new ≡ line.old ++ (text_of_start word.entry count ++ codes "\n") }
{
    line.push_array(word);
    match count {
        None => line.push(b"\n"),
        Some(count) => push_number(line, *b" ", count),
    }
}

// Pushes the digits of a signed number.
fn push_signed(line: &mut FixedBuffer, number: i64)
    requires { 21 ≤ room line.old }
    ensures pushed { line.new ≡ line.old ++ signed_decimal number }
    ensures room { room line.old ≤ room line.new + 21 }
{
    if number < 0 {
        line.push(b"-");
        line.push_decimal(number.unsigned_abs());
    } else {
        line.push_decimal(number as u64);
    }
}

// Pushes the line of a negative integer.
#[inline(never)]
fn push_negative(line: &mut FixedBuffer, number: i64)
    requires { 64 ≤ room line.old }
    ensures { line.new ≡ line.old ++ (codes "Integer " ++ signed_decimal number ++ codes "\n") }
{
    line.push(b"Integer ");
    push_signed(line, number);
    line.push(b"\n");
}

// Pushes a date: its second, and its bytes if it has a fraction.
fn push_date(line: &mut FixedBuffer, date: Date)
    requires { 38 ≤ room line.old }
    ensures pushed { line.new ≡ line.old ++ text_of_date date }
    ensures room { room line.old ≤ room line.new + 38 }
{
    push_signed(line, date.plist_secs());
    if date.has_fraction() {
        line.push(b" ");
        push_hexadecimal(line, &date.to_plist_real());
    }
}

// Pushes the line of a date.
#[inline(never)]
fn push_date_line(line: &mut FixedBuffer, date: Date)
    requires { 64 ≤ room line.old }
    ensures { line.new ≡ line.old ++ (codes "Date " ++ text_of_date date ++ codes "\n") }
{
    line.push(b"Date ");
    push_date(line, date);
    line.push(b"\n");
}

// Pushes the line of a real, given its bytes.
#[inline(never)]
fn push_real(line: &mut FixedBuffer, bytes: &[u8])
    requires { 2 * length bytes.now + 6 ≤ room line.old }
    ensures { line.new ≡ line.old ++ (codes "Real " ++ hexadecimal bytes.now ++ codes "\n") }
{
    line.push(b"Real ");
    push_hexadecimal(line, bytes);
    line.push(b"\n");
}

/// Pushes the line of data.
pub fn push_data(line: &mut FixedBuffer, bytes: &[u8])
    requires { 2 * length bytes.now + 64 ≤ room line.old }
    ensures { line.new ≡ line.old ++ line_of (ScalarEvent (Data bytes.now)) }
{
    if bytes.is_empty() {
        line.push(b"Data\n");
        return;
    }
    line.push(b"Data ");
    push_hexadecimal(line, bytes);
    line.push(b"\n");
}

/// Pushes the line of a scalar that isn't a string or data of more than eight bytes.
#[inline(always)]
pub fn push_packed(line: &mut FixedBuffer, scalar: PackedScalar)
    requires { 96 ≤ room line.old }
    ensures { line.new ≡ line.old ++ line_of (ScalarEvent (scalar_of_packed scalar)) }
{
    let content = scalar.content();
    let bytes = content.to_be_bytes();
    match scalar.kind() {
        PackedKind::Boolean(true) => line.push_array(*b"Boolean true\n"),
        PackedKind::Boolean(false) => line.push_array(*b"Boolean false\n"),
        PackedKind::Unsigned => push_number(line, *b"Integer ", content),
        PackedKind::Negative => push_negative(line, content.cast_signed()),
        PackedKind::Real => push_real(line, &bytes),
        PackedKind::ShortReal => {
            let mut four = [0; 4];
            four.copy_from_slice(&bytes[..4]);
            push_real(line, &four);
        }
        PackedKind::Uid => push_number(line, *b"Uid ", content),
        PackedKind::Data(size) => push_data(line, &bytes[..usize::from(size)]),
        PackedKind::String(size) => push_text_line(line, scalar.text_in(&bytes, size).as_bytes()),
        PackedKind::Date => match Date::from_plist_real(bytes) {
            Ok(date) => push_date_line(line, date),
            Err(_) => unreachable!(),
        },
    }
}
