//! Scalars that have at most eight bytes of content, in a form that is fast to copy and to compare.

ghost use Rattle.std.specs.Prelude.{◌≡◌, ◌≤◌, length, pos, ◌<◌, None, IfSome, take};
ghost use Rattle.plist_base.specs.Packing.{IsPacked, content_bytes, kind_of_tag, packable_prop, padded, unpacked};
ghost use Rattle.std.proofs.Props.{props};

use crate::{Date, Event, Integer, RealBits, Uid};
use std::hash::{Hash, Hasher};
use std::str;

/// What the content of a [`PackedScalar`] encodes.
#[derive(Clone, Copy)]
pub enum PackedKind {
    /// A Boolean. Its content is zero.
    Boolean(bool),
    /// An integer that isn't negative.
    Unsigned,
    /// A negative integer, in two's complement.
    Negative,
    /// The eight bytes of a real.
    Real,
    /// The four bytes of a real, which are the first four of the content.
    ShortReal,
    /// The number of a Uid.
    Uid,
    /// Data with the given number of bytes, the first ones of the content.
    Data(u8),
    /// A string with the given number of bytes, the first ones of the content.
    String(u8),
    /// The eight bytes of a date.
    Date,
}

impl PackedKind {
    /// Returns the kind that a tag encodes.
    #[inline(always)]
    pub fn of_tag(tag: u8) -> PackedKind
        ensures { result ≡ kind_of_tag tag }
    {
        match tag {
            0..=1 => PackedKind::Boolean(false),
            2 => PackedKind::Boolean(true),
            3 => PackedKind::Unsigned,
            4 => PackedKind::Negative,
            5 => PackedKind::Real,
            6 => PackedKind::ShortReal,
            7 => PackedKind::Uid,
            8..=16 => PackedKind::Data(tag - 8),
            17..=25 => PackedKind::String(tag - 17),
            26.. => PackedKind::Date,
        }
    }
}

/// A scalar that isn't a string or data of more than eight bytes.
///
/// Its tag encodes its kind, and the length of a string or data. Its content is eight bytes, of
/// which those that the kind doesn't need are zeros. So two scalars are equal if and only if their
/// tags and their contents are.
#[derive(Clone, Copy, PartialEq, Eq)]
pub struct PackedScalar {
    tag: u8,
    content: u64,
    ghost packed: { IsPacked tag content } by { Prim.hlevel (props, packable_prop) },
}

// Returns the content that consists of the eight bytes.
#[inline(always)]
fn content_from(bytes: [u8; 8]) -> u64
    ensures { content_bytes result ≡ bytes }
{
    u64::from_be_bytes(bytes)
}

// Returns the number whose eight bytes begin with the given ones and continue with zeros.
#[inline(always)]
fn padded_number(bytes: &[u8]) -> u64
    requires { length bytes.now ≤ 8 }
    ensures { content_bytes result ≡ padded bytes.now }
{
    let mut content = [0; 8];
    content[..bytes.len()].copy_from_slice(bytes);
    content_from(content)
}

impl PackedScalar {
    ghost use Rattle.plist_base.specs.Events.{ScalarEvent, event_of};
    ghost use Rattle.plist_base.specs.PackedScalars.{IsUnpackable, scalar_of_packed};
    ghost use Rattle.plist_base.specs.Trees.{Boolean as BooleanScalar, Data as DataScalar, Date as DateScalar, Integer as IntegerScalar, Real as RealScalar, String as StringScalar, Uid as UidScalar};

    /// Packs a Boolean.
    #[inline(always)]
    pub fn of_boolean(value: bool) -> PackedScalar
        ensures { scalar_of_packed result ≡ BooleanScalar value }
    {
        PackedScalar::from_parts(if value { 2 } else { 1 }, 0)
    }

    /// Packs an integer that isn't negative.
    #[inline(always)]
    pub fn of_unsigned(number: u64) -> PackedScalar
        ensures { scalar_of_packed result ≡ IntegerScalar (pos number) }
    {
        PackedScalar::from_parts(3, number)
    }

    /// Packs an integer of 64 bits with a sign.
    #[inline(always)]
    pub fn of_signed(number: i64) -> PackedScalar
        ensures { scalar_of_packed result ≡ IntegerScalar number }
    {
        let content = number.cast_unsigned();
        if number < 0 {
            return PackedScalar::from_parts(4, content);
        }
        PackedScalar::of_unsigned(content)
    }

    /// Packs an integer.
    #[inline(always)]
    pub fn of_integer(value: Integer) -> PackedScalar
        ensures { scalar_of_packed result ≡ IntegerScalar value }
    {
        match value.as_unsigned() {
            Some(number) => PackedScalar::of_unsigned(number),
            None => PackedScalar::of_signed(value.as_signed().unwrap()),
        }
    }

    /// Packs a real.
    #[inline(always)]
    #[tactic(auto, using(crate::proofs::PackedScalars::reals))]
    pub fn of_real(bits: RealBits) -> PackedScalar
        ensures { scalar_of_packed result ≡ RealScalar bits }
    {
        match bits {
            RealBits::Four(bytes) => PackedScalar::from_parts(6, padded_number(&bytes)),
            RealBits::Eight(bytes) => PackedScalar::from_parts(5, content_from(bytes)),
        }
    }

    /// Packs a Uid.
    #[inline(always)]
    pub fn of_uid(uid: Uid) -> PackedScalar
        ensures { scalar_of_packed result ≡ UidScalar uid }
    {
        PackedScalar::from_parts(7, uid.get())
    }

    /// Packs a date.
    #[inline(always)]
    #[tactic(auto, using(crate::proofs::PackedScalars::packed_date))]
    pub fn of_date(date: Date) -> PackedScalar
        ensures { scalar_of_packed result ≡ DateScalar date }
    {
        PackedScalar::from_parts(26, content_from(date.to_plist_real()))
    }

    /// Packs data, or returns `None` if it has more than eight bytes.
    #[inline(always)]
    pub fn of_data(bytes: &[u8]) -> Option<PackedScalar>
        ensures some { IfSome result (λ packed. scalar_of_packed packed ≡ DataScalar bytes.now) }
        ensures none { result ≡ None → 8 < length bytes.now }
    {
        if bytes.len() > 8 {
            return None;
        }
        Some(PackedScalar {
            tag: 8 + bytes.len() as u8,
            content: padded_number(bytes),
        })
    }

    /// Packs a string, or returns `None` if it has more than eight bytes.
    #[inline(always)]
    pub fn of_text(text: &str) -> Option<PackedScalar>
        ensures some { IfSome result (λ packed. scalar_of_packed packed ≡ StringScalar text.now) }
        ensures none { result ≡ None → 8 < length text.now }
    {
        let bytes = text.as_bytes();
        if bytes.len() > 8 {
            return None;
        }
        Some(PackedScalar {
            tag: 17 + bytes.len() as u8,
            content: padded_number(bytes),
        })
    }

    /// Packs the scalar of an event. Returns `None` if the event is a start or an end, or a string
    /// or data of more than eight bytes. The function is inlined, since most callers know the kind
    /// of the event.
    #[inline(always)]
    pub fn of_event(event: &Event<'_>) -> Option<PackedScalar>
        ensures some { IfSome result (λ packed. event_of event.now
            ≡ ScalarEvent (scalar_of_packed packed)) }
        ensures none { result ≡ None → IsUnpackable (event_of event.now) }
    {
        match event {
            Event::StartArray(_) | Event::StartDictionary(_) | Event::EndCollection => None,
            Event::Boolean(value) => Some(PackedScalar::of_boolean(*value)),
            Event::Data(bytes) => PackedScalar::of_data(bytes.as_slice()),
            Event::Date(date) => Some(PackedScalar::of_date(*date)),
            Event::Integer(value) => Some(PackedScalar::of_integer(*value)),
            Event::Real(bits) => Some(PackedScalar::of_real(*bits)),
            Event::String(text) => PackedScalar::of_text(text.as_str()),
            Event::Uid(uid) => Some(PackedScalar::of_uid(*uid)),
        }
    }

    /// Makes a scalar from its tag and its content.
    #[inline(always)]
    pub fn from_parts(tag: u8, content: u64) -> PackedScalar
        requires { IsPacked tag content }
        ensures { scalar_of_packed result ≡ unpacked tag content }
    {
        PackedScalar { tag, content }
    }

    /// Returns the tag of the scalar, from 1 to 26.
    #[inline(always)]
    pub fn tag(self) -> u8
        ensures { result ≡ self.tag }
    {
        self.tag
    }

    /// Returns the content of the scalar.
    #[inline(always)]
    pub fn content(self) -> u64
        ensures { result ≡ self.content }
    {
        self.content
    }

    /// Returns the string in the first `size` bytes of the content, which are given.
    #[inline(always)]
    pub fn text_in<'a>(self, bytes: &'a [u8; 8], size: u8) -> &'a str
        requires kind { kind_of_tag self.tag ≡ PackedKind.String size }
        requires bytes { bytes.now ≡ content_bytes self.content }
        ensures { result.now ≡ take size bytes.now }
    {
        unsafe { str::from_utf8_unchecked(&bytes[..usize::from(size)]) }
    }

    /// Returns the kind of the scalar.
    #[inline(always)]
    pub fn kind(self) -> PackedKind
        ensures { result ≡ kind_of_tag self.tag }
    {
        PackedKind::of_tag(self.tag)
    }
}

/// Writes the content to the hasher.
impl Hash for PackedScalar {
    ghost use Rattle.std.specs.Hash as fed;
    ghost use Rattle.std.proofs.Common.{rules};
    ghost use Rattle.std.specs.Cmp.Rules.{comparing};

    ghost hash_input = { λ packed. fed.u64 packed.content };

    ghost respects_eq = { λ _ _ same. Prim.search (comparing, rules, same) };

    fn hash<H: Hasher>(&self, state: &mut H) {
        state.write_u64(self.content);
    }
}
