//! Puts the parts of a file: scalars, lengths, references, the offset table and the trailer.
//!
//! The functions put their bytes into a [`Sink`], which keeps the error of a write that fails.
//!
//! For the plan of a file, the lengths of scalars are computed before any byte is put.
#![tactic(auto, using(plist_base::proofs::SinkSteps::puts_then))]

ghost use Rattle.std.specs.Prelude.{◌≡◌, ◌≤◌, ◌+◌, ◌∷◌, length, take};
ghost use Rattle.plist_base.specs.Trees as trees;
ghost use Rattle.plist_binwrite.specs.Forms.{IsWritableScalar, integer_marker, unsigned_form, length_form, scalar_form, table_form};
ghost use Rattle.plist_binwrite.specs.inner.Numbering.{IsCapped};
ghost use Rattle.std.specs.Int.{bytes_high_first};
ghost use Rattle.plist_base.specs.Utf16.{utf8_of_utf16};
ghost use Rattle.plist_buffer.specs.inner.LongContents.{is_ascii_text};
ghost use Rattle.plist_buffer.specs.StoredScalars.{IsStored, IsWide, scalar_of_ref};
ghost use Rattle.plist_base.specs.Object.{byte_of};
ghost use Rattle.plist_base.specs.PackedScalars.{scalar_of_packed};
ghost use Rattle.plist_base.specs.Sinks.{Puts};
ghost use Rattle.plist_binwrite.specs.Written.{table_and_trailer, trailer_of};

pub use crate::text::put_text;
use crate::text::{count_units, put_ascii, put_wide};
use crate::widths::{least_width, offset_width, reference_width};
pub use plist_base::marker::CountedKind;
use plist_base::marker::{LowHalf, Marker, UidWidth};
use plist_base::{Date, Integer, PackedKind, PackedScalar, RealBits, Sink, Uid};
use plist_buffer::stored_scalar::ScalarRef;
use plist_buffer::wide::is_ascii_text;
use std::io::Write;

// Returns eight bytes that begin with the lowest `width` bytes of a number in big-endian order.
#[inline(always)]
#[tactic(auto, using(crate::proofs::NumberForms::front_of_shifted))]
fn front_of(width: usize, number: u64) -> [u8; 8]
    requires { width ≤ 8 }
    ensures { take width result ≡ bytes_high_first width number }
{
    // If `width` is 0, the shift is by 64 bits, which leaves the number as it is.
    number.wrapping_shl(64 - 8 * width as u32).to_be_bytes()
}

/// Puts the lowest `width` bytes of a number in big-endian order. `width` is at most 8.
#[inline(always)]
pub fn put_number<W: Write>(sink: &mut Sink<'_, W>, width: usize, number: u64)
    requires width { width ≤ 8 }
    ensures { Puts W.contents sink.old (bytes_high_first width number) sink.new }
{
    sink.make_room(8);
    sink.buffer.push_first(front_of(width, number), width);
}

// Puts a marker and the bytes of an array.
#[inline(always)]
fn put_marked<W: Write, const N: usize>(sink: &mut Sink<'_, W>, marker: Marker, bytes: [u8; N])
    requires { N ≤ 16 }
    ensures { Puts W.contents sink.old (byte_of marker ∷ bytes.entry) sink.new }
{
    sink.make_room(1 + N);
    sink.buffer.push_array([marker.encode()]);
    sink.buffer.push_array(bytes);
}

// Puts a marker and the lowest `width` bytes of a number.
#[inline(always)]
fn put_marked_number<W: Write>(sink: &mut Sink<'_, W>, marker: Marker, width: usize, number: u64)
    requires width { width ≤ 8 }
    ensures { Puts W.contents sink.old (byte_of marker ∷ bytes_high_first width number) sink.new }
{
    sink.make_room(9);
    sink.buffer.push_array([marker.encode()]);
    sink.buffer.push_first(front_of(width, number), width);
}

// Returns the marker of a number of this width.
#[inline(always)]
fn number_marker(width: usize) -> Marker
    ensures { result ≡ integer_marker width }
{
    match width {
        1 => Marker::Integer1,
        2 => Marker::Integer2,
        4 => Marker::Integer4,
        _ => Marker::Integer8,
    }
}

// Puts an unsigned integer.
#[inline(always)]
fn put_unsigned<W: Write>(sink: &mut Sink<'_, W>, number: u64)
    ensures { Puts W.contents sink.old (unsigned_form number) sink.new }
{
    let width = least_width(number);
    put_marked_number(sink, number_marker(width), width, number);
}

/// Puts a marker of this kind with a length. A length below 15 is in the low half of the marker,
/// and any other length follows the marker as an unsigned integer.
#[inline(always)]
pub fn put_length<W: Write>(sink: &mut Sink<'_, W>, kind: CountedKind, count: u64)
    ensures { Puts W.contents sink.old (length_form kind count) sink.new }
{
    match LowHalf::of_length(count) {
        Some(low) => put_marked(sink, Marker::Counted(kind, low), []),
        None => {
            put_marked(sink, Marker::Counted(kind, LowHalf::follows()), []);
            put_unsigned(sink, count);
        }
    }
}

/// Puts the object of a scalar.
pub fn put_scalar<W: Write>(sink: &mut Sink<'_, W>, scalar: ScalarRef<'_>)
    requires { IsStored scalar }
    ensures { Puts W.contents sink.old (scalar_form (scalar_of_ref scalar.entry)) sink.new }
{
    match scalar {
        ScalarRef::Packed(packed) => put_packed(sink, packed),
        ScalarRef::AsciiString(text) => put_ascii(sink, text),
        ScalarRef::WideString(units) => put_wide(sink, units),
        ScalarRef::Data(bytes) => put_data(sink, bytes),
    }
}

// Puts the object of a scalar that isn't a string or data of more than eight bytes.
fn put_packed<W: Write>(sink: &mut Sink<'_, W>, scalar: PackedScalar)
    ensures { Puts W.contents sink.old (scalar_form (scalar_of_packed scalar)) sink.new }
{
    let content = scalar.content();
    let bytes = content.to_be_bytes();
    match scalar.kind() {
        PackedKind::Boolean(value) => put_boolean(sink, value),
        PackedKind::Unsigned => put_integer(sink, Integer::from(content)),
        PackedKind::Negative => put_integer(sink, Integer::from(content.cast_signed())),
        PackedKind::Real => put_marked(sink, Marker::Real8, bytes),
        PackedKind::ShortReal => {
            let mut four = [0; 4];
            four.copy_from_slice(&bytes[..4]);
            put_marked(sink, Marker::Real4, four);
        }
        PackedKind::Uid => put_uid(sink, Uid::new(content)),
        PackedKind::Data(size) => put_data(sink, &bytes[..usize::from(size)]),
        PackedKind::String(size) => put_text(sink, scalar.text_in(&bytes, size)),
        PackedKind::Date => put_marked(sink, Marker::Date, bytes),
    }
}

/// Puts a Boolean.
#[inline(always)]
pub fn put_boolean<W: Write>(sink: &mut Sink<'_, W>, value: bool)
    ensures { Puts W.contents sink.old (scalar_form (trees.Boolean value)) sink.new }
{
    put_marked(sink, Marker::Boolean(value), []);
}

/// Puts data.
pub fn put_data<W: Write>(sink: &mut Sink<'_, W>, content: &[u8])
    ensures { Puts W.contents sink.old (scalar_form (trees.Data content.now)) sink.new }
{
    put_length(sink, CountedKind::Data, content.len() as u64);
    sink.put(content);
}

/// Puts a date: a marker and its eight bytes.
#[inline(always)]
pub fn put_date<W: Write>(sink: &mut Sink<'_, W>, date: Date)
    ensures { Puts W.contents sink.old (scalar_form (trees.Date date)) sink.new }
{
    put_marked(sink, Marker::Date, date.to_plist_real());
}

/// Puts a real: a marker and its four or eight bytes.
#[inline(always)]
pub fn put_real<W: Write>(sink: &mut Sink<'_, W>, bits: RealBits)
    ensures { Puts W.contents sink.old (scalar_form (trees.Real bits)) sink.new }
{
    match bits {
        RealBits::Four(bytes) => put_marked(sink, Marker::Real4, bytes),
        RealBits::Eight(bytes) => put_marked(sink, Marker::Real8, bytes),
    }
}

/// Puts a Uid in the smallest of 1, 2, 4 and 8 bytes into which it fits.
#[inline(always)]
pub fn put_uid<W: Write>(sink: &mut Sink<'_, W>, uid: Uid)
    ensures { Puts W.contents sink.old (scalar_form (trees.Uid uid)) sink.new }
{
    let width = least_width(uid.get());
    put_marked_number(sink, Marker::Uid(UidWidth::new(width)), width, uid.get());
}

// Puts an integer above `i64::MAX`, in sixteen bytes.
fn put_wide_integer<W: Write>(sink: &mut Sink<'_, W>, number: u64)
    ensures { Puts W.contents sink.old (byte_of Marker.Integer16 ∷ bytes_high_first 16 number)
        sink.new }
{
    put_marked_number(sink, Marker::Integer16, 8, 0);
    put_number(sink, 8, number);
}

/// Puts an integer. One from 0 to `i64::MAX` has the smallest of 1, 2, 4 and 8 bytes into which it
/// fits, a negative one has eight bytes, and one above `i64::MAX` has sixteen.
#[inline(always)]
pub fn put_integer<W: Write>(sink: &mut Sink<'_, W>, value: Integer)
    ensures { Puts W.contents sink.old (scalar_form (trees.Integer value)) sink.new }
{
    match (value.as_unsigned(), value.as_signed()) {
        (Some(number), Some(_)) => put_unsigned(sink, number),
        (Some(number), None) => put_wide_integer(sink, number),
        (None, Some(number)) => {
            put_marked_number(sink, Marker::Integer8, 8, number.cast_unsigned())
        }
        (None, None) => unreachable!(),
    }
}

/// Puts each number of a list in `width` bytes, as in an offset table. `width` is at most 8.
pub fn put_numbers<W: Write>(sink: &mut Sink<'_, W>, width: usize, list: &[u64])
    requires width { width ≤ 8 }
    ensures { Puts W.contents sink.old (table_form width list.now) sink.new }
{
    for index in 0..list.len() {
        put_number(sink, width, list[index]);
    }
}

/// Puts the trailer of a file with `count` objects, whose offset table lies at the byte offset
/// `table`. The root is object 0.
pub fn put_trailer<W: Write>(sink: &mut Sink<'_, W>, count: usize, table: u64)
    ensures { Puts W.contents sink.old (trailer_of count table) sink.new }
{
    let wide = offset_width(table) as u8;
    let narrow = reference_width(count as u64) as u8;
    sink.put(&[0, 0, 0, 0, 0, 0, wide, narrow]);
    put_numbers(sink, 8, &[count as u64, 0, table]);
}

/// Puts the offset table, which contains the byte offset of each object, and then the trailer. The
/// table itself lies at the byte offset `table`.
pub fn put_table_and_trailer<W: Write>(sink: &mut Sink<'_, W>, offsets: &[u64], table: u64)
    ensures { Puts W.contents sink.old (table_and_trailer offsets.now table) sink.new }
{
    put_numbers(sink, offset_width(table), offsets);
    put_trailer(sink, offsets.len(), table);
}

// Returns the length of an unsigned integer with its marker, in bytes.
fn length_of_unsigned(number: u64) -> u64
    ensures value { result ≡ length (unsigned_form number) }
    ensures small { result ≤ 9 }
{
    1 + least_width(number) as u64
}

/// Returns the length in bytes of a marker with this count, which is in the marker or follows it.
#[tactic(auto, unfolding(crate::specs::Forms::length_form))]
pub(crate) fn length_of_count(count: u64) -> u64
    ensures value { (kind : CountedKind) → result ≡ length (length_form kind count) }
    ensures small { result ≤ 10 }
{
    match LowHalf::of_length(count) {
        Some(_) => 1,
        None => 1 + length_of_unsigned(count),
    }
}

// Returns the length of a marker with this count and of the `count` bytes that follow it, or
// 2^64 - 1 if it is greater: no file is that long, so it isn't mistaken for a length.
fn length_of_bytes(count: u64) -> u64
    ensures value { (kind : CountedKind)
        → IsCapped result (length (length_form kind count) + count) }
{
    count.saturating_add(length_of_count(count))
}

// Returns the length of the object of data, or 2^64 - 1 if it is greater.
fn length_of_data(content: &[u8]) -> u64
    ensures value { IsCapped result (length (scalar_form (trees.Data content.now))) }
    ensures writable { IsWritableScalar (trees.Data content.now) }
{
    length_of_bytes(content.len() as u64)
}

// Returns the length of a string's object, or 2^64 - 1 if it is greater.
fn length_of_text(text: &str) -> u64
    ensures value { IsCapped result (length (scalar_form (trees.String text.now))) }
    ensures writable { IsWritableScalar (trees.String text.now) }
{
    if is_ascii_text(text) {
        return length_of_bytes(text.len() as u64);
    }
    let count = count_units(text) as u64;
    count
        .saturating_mul(2)
        .saturating_add(length_of_count(count))
}

// Returns the length of the object of a string that isn't ASCII, given its units in UTF-16, or
// 2^64 - 1 if it is greater.
fn length_of_wide(units: &[u8]) -> u64
    requires { IsWide units.now }
    ensures value { IsCapped result
        (length (scalar_form (trees.String (utf8_of_utf16 units.now)))) }
    ensures writable { IsWritableScalar (trees.String (utf8_of_utf16 units.now)) }
{
    let size = units.len() as u64;
    size.saturating_add(length_of_count(size / 2))
}

// Returns the length of the object of a scalar that isn't a string or data of more than eight
// bytes.
fn length_of_packed(scalar: PackedScalar) -> u64
    ensures value { IsCapped result (length (scalar_form (scalar_of_packed scalar))) }
    ensures writable { IsWritableScalar (scalar_of_packed scalar) }
{
    let content = scalar.content();
    match scalar.kind() {
        PackedKind::Boolean(_) => 1,
        PackedKind::Unsigned if content > i64::MAX as u64 => 17,
        PackedKind::Unsigned | PackedKind::Uid => length_of_unsigned(content),
        PackedKind::Negative | PackedKind::Real | PackedKind::Date => 9,
        PackedKind::ShortReal => 5,
        PackedKind::Data(size) => length_of_data(&content.to_be_bytes()[..usize::from(size)]),
        PackedKind::String(size) => length_of_text(scalar.text_in(&content.to_be_bytes(), size)),
    }
}

/// Returns the length of a scalar's object in bytes, or 2^64 - 1 if it is greater.
pub(crate) fn length_of_scalar(scalar: ScalarRef<'_>) -> u64
    requires { IsStored scalar }
    ensures value { IsCapped result (length (scalar_form (scalar_of_ref scalar.entry))) }
    ensures writable { IsWritableScalar (scalar_of_ref scalar.entry) }
{
    match scalar {
        ScalarRef::Packed(packed) => length_of_packed(packed),
        ScalarRef::AsciiString(text) => length_of_bytes(text.len() as u64),
        ScalarRef::WideString(units) => length_of_wide(units),
        ScalarRef::Data(bytes) => length_of_data(bytes),
    }
}
