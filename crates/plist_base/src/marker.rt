//! The bytes with which a binary property list begins, and the marker of an object, which is its
//! first byte and determines what follows.

ghost use Rattle.std.specs.Prelude.{◌≡◌, ℕ, ◌%◌, ◌<◌, ◌≤◌, IfNone, IfSome};
ghost use Rattle.plist_base.specs.Object.{IsDecodedMarker, byte_of};

use std::marker::Model;

/// The bytes with which each binary property list begins.
pub const MAGIC: &[u8; 8] = b"bplist00";

/// The low half of the marker of an object that has a length: the length itself if it is below 15,
/// or 15, which means that the length follows the marker.
#[derive(Clone, Copy)]
pub struct LowHalf {
    value: u8,
}

impl Model for LowHalf {
    ghost use Rattle.std.specs.Prelude.{ℕ, ◌<◌};

    ghost Value = { ℕ };

    ghost view = { λ a. a.value };

    ghost invariant = { λ a. a.value < 16 };

    ghost inverse = { λ n. record { value = n } };
}

impl LowHalf {
    /// Returns the low half for a length, or `None` if the length has to follow the marker.
    #[inline(always)]
    pub fn of_length(length: u64) -> Option<LowHalf>
        ensures short { IfSome result (λ low. (low ≡ length) × (length < 15)) }
        ensures long { IfNone result (15 ≤ length) }
    {
        if length >= 15 {
            return None;
        }
        let value = length as u8;
        Some(LowHalf { value })
    }

    /// Returns the low half of a marker that the length follows.
    #[inline(always)]
    pub fn follows() -> LowHalf
        ensures { result ≡ 15 }
    {
        LowHalf { value: 15 }
    }

    /// Returns the length, or `None` if it follows the marker.
    #[inline(always)]
    pub fn length(self) -> Option<u64>
        ensures short { IfSome result (λ length. (length ≡ self) × (self < 15)) }
        ensures follows { IfNone result (self ≡ 15) }
    {
        (self.value < 15).then_some(u64::from(self.value))
    }
}

/// The number of bytes in a Uid: 1 to 8.
#[derive(Clone, Copy)]
pub struct UidWidth {
    bytes: u8,
}

impl Model for UidWidth {
    ghost use Rattle.std.specs.Prelude.{ℕ, ◌<◌, ◌≤◌};

    ghost Value = { ℕ };

    ghost view = { λ a. a.bytes };

    ghost invariant = { λ a. (0 < a.bytes) × (a.bytes ≤ 8) };

    ghost inverse = { λ n. record { bytes = n } };
}

impl UidWidth {
    /// Creates a width of `bytes` bytes, a number from 1 to 8.
    #[inline(always)]
    pub fn new(bytes: usize) -> UidWidth
        requires { (1 ≤ bytes) × (bytes ≤ 8) }
        ensures { result ≡ bytes }
    {
        UidWidth { bytes: bytes as u8 }
    }

    /// Returns the number of bytes.
    #[inline(always)]
    pub fn get(self) -> usize
        ensures value { result ≡ self }
        ensures small { result ≤ 8 }
    {
        usize::from(self.bytes)
    }
}

/// The kind of an object that has a length, in its marker or after it.
#[derive(Clone, Copy)]
pub enum CountedKind {
    /// Data.
    Data,
    /// A string in UTF-8.
    Text,
    /// A string in UTF-16.
    WideText,
    /// An array.
    Array,
    /// A dictionary.
    Dictionary,
}

/// The marker of an object. Only this type depends on the bytes of markers.
#[derive(Clone, Copy)]
pub enum Marker {
    /// A null, which isn't allowed in a property list.
    Null,
    /// A Boolean.
    Boolean(bool),
    /// A fill byte, which isn't an object.
    Fill,
    /// An unsigned integer of one byte.
    Integer1,
    /// An unsigned integer of two bytes.
    Integer2,
    /// An unsigned integer of four bytes.
    Integer4,
    /// A signed integer of eight bytes.
    Integer8,
    /// A signed integer of sixteen bytes.
    Integer16,
    /// A real of four bytes.
    Real4,
    /// A real of eight bytes.
    Real8,
    /// A date.
    Date,
    /// A string, data or a collection, with its length.
    Counted(CountedKind, LowHalf),
    /// A Uid.
    Uid(UidWidth),
    /// A byte that isn't a marker.
    Unknown(u8),
}

impl Marker {
    /// Decodes a marker from its byte. A byte that isn't a marker becomes [`Marker::Unknown`].
    #[inline(always)]
    pub fn decode(byte: u8) -> Marker
        ensures byte { byte_of result ≡ byte }
        ensures decoded { IsDecodedMarker result }
    {
        let low = LowHalf { value: byte % 16 };
        match byte {
            0x00 => Marker::Null,
            0x08 => Marker::Boolean(false),
            0x09 => Marker::Boolean(true),
            0x0f => Marker::Fill,
            0x10 => Marker::Integer1,
            0x11 => Marker::Integer2,
            0x12 => Marker::Integer4,
            0x13 => Marker::Integer8,
            0x14 => Marker::Integer16,
            0x22 => Marker::Real4,
            0x23 => Marker::Real8,
            0x33 => Marker::Date,
            0x40..=0x4f => Marker::Counted(CountedKind::Data, low),
            0x50..=0x5f => Marker::Counted(CountedKind::Text, low),
            0x60..=0x6f => Marker::Counted(CountedKind::WideText, low),
            0x80..=0x87 => Marker::Uid(UidWidth { bytes: byte - 0x7f }),
            0xa0..=0xaf => Marker::Counted(CountedKind::Array, low),
            0xd0..=0xdf => Marker::Counted(CountedKind::Dictionary, low),
            other => Marker::Unknown(other),
        }
    }

    /// Returns the marker's byte.
    #[inline(always)]
    pub fn encode(self) -> u8
        ensures { result ≡ byte_of self }
    {
        match self {
            Marker::Null => 0x00,
            Marker::Boolean(false) => 0x08,
            Marker::Boolean(true) => 0x09,
            Marker::Fill => 0x0f,
            Marker::Integer1 => 0x10,
            Marker::Integer2 => 0x11,
            Marker::Integer4 => 0x12,
            Marker::Integer8 => 0x13,
            Marker::Integer16 => 0x14,
            Marker::Real4 => 0x22,
            Marker::Real8 => 0x23,
            Marker::Date => 0x33,
            Marker::Counted(kind, low) => {
                let high = match kind {
                    CountedKind::Data => 0x40,
                    CountedKind::Text => 0x50,
                    CountedKind::WideText => 0x60,
                    CountedKind::Array => 0xa0,
                    CountedKind::Dictionary => 0xd0,
                };
                high + low.value
            }
            Marker::Uid(width) => 0x7f + width.bytes,
            Marker::Unknown(byte) => byte,
        }
    }
}
