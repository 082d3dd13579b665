//! Defines what an object's first bytes decode to, and how an object can be faulty.

ghost use Rattle.std.specs.Prelude.{◌≡◌, ◌<◌, ◌≤◌, length};

use crate::step_fault::StepFault;
use plist_base::PackedScalar;

/// How the content of a string or data is encoded.
#[derive(Clone, Copy)]
pub enum ContentKind {
    /// The bytes are data.
    Data,
    /// The bytes are a string in UTF-8.
    Text,
    /// The bytes are a string in UTF-16, with units of two bytes.
    WideText,
}

impl ContentKind {
    ghost use Rattle.plist_decode.specs.CountedContent.{unit_size};

    /// Returns the size of an element of the content in bytes.
    pub fn unit_size(self) -> u64
        ensures value { result ≡ unit_size self }
        ensures small { (0 < result) × (result ≤ 2) }
    {
        match self {
            ContentKind::Data | ContentKind::Text => 1,
            ContentKind::WideText => 2,
        }
    }
}

/// The bytes that follow an object's marker, as far as they were read. They reach up to the
/// trailer, or there are at least 25 of them, which is enough for any object except a long string
/// or long data.
#[derive(Clone, Copy)]
pub struct AfterMarker<'a> {
    /// The bytes that were read.
    pub bytes: &'a [u8],
    /// The number of bytes between the marker and the trailer.
    pub to_trailer: u64,
    ghost within: { length bytes.now ≤ to_trailer },
    ghost shown: { length bytes.now < 25 → to_trailer ≤ length bytes.now },
}

/// Describes the content of a string or data: how it is encoded, where it begins, and how long it
/// is.
#[derive(Clone, Copy)]
pub struct Content {
    /// How the content is encoded.
    pub kind: ContentKind,
    /// The number of bytes from the object's offset to the content.
    pub start: u8,
    /// The number of elements, which are units for a string in UTF-16, and bytes otherwise.
    pub count: u64,
}

impl Content {
    ghost use Rattle.std.specs.Prelude.{◌≡◌, ◌+◌, ◌^◌, ◌<◌, ◌≤◌, true, drop, length, take};
    ghost use Rattle.plist_decode.specs.Decoded.{content_size};

    // Returns the size of the content in bytes.
    #[inline(always)]
    fn size(self) -> u64
        requires { content_size self < 2 ^ 64 }
        ensures { result ≡ content_size self }
    {
        self.count * self.kind.unit_size()
    }

    /// Returns `true` if the first bytes of the object, which are given, contain all of its
    /// content.
    #[inline(always)]
    pub fn lies_in(self, seen: &[u8]) -> bool
        requires { content_size self < 2 ^ 64 }
        ensures { result ≡ true → self.start + content_size self ≤ length seen.now }
    {
        let start = usize::from(self.start);
        start <= seen.len() && self.size() <= (seen.len() - start) as u64
    }

    /// Returns the content of the object that begins with the given bytes.
    #[inline(always)]
    pub fn bytes_in(self, seen: &[u8]) -> &[u8]
        requires { self.start + content_size self ≤ length seen.now }
        ensures { result.now ≡ take (content_size self) (drop self.start seen.now) }
    {
        &seen[usize::from(self.start)..][..self.size() as usize]
    }
}

/// The kind of a collection.
#[derive(Clone, Copy)]
pub enum CollectionKind {
    /// An array, which has a reference to each item.
    Array,
    /// A dictionary, which has references to all keys, followed by those to all values.
    Dictionary,
}

impl CollectionKind {
    ghost use Rattle.std.specs.Prelude.{◌≡◌, ◌^◌, ◌<◌};
    ghost use Rattle.plist_decode.specs.Decoding.{child_count};

    /// Returns the number of children of a collection of `count` items or pairs.
    #[inline(always)]
    pub fn children(self, count: u64) -> u64
        requires { child_count self count < 2 ^ 64 }
        ensures { result ≡ child_count self count }
    {
        match self {
            CollectionKind::Array => count,
            CollectionKind::Dictionary => 2 * count,
        }
    }
}

/// An object that was decoded from its first bytes, or the reason why it couldn't be decoded.
///
/// Every variant has a few small fields followed by at most one `u64`, so that a value is passed in
/// two registers.
#[derive(Clone, Copy)]
pub enum Decoded {
    /// A scalar that can be cached. The fields are the tag and the content of a [`PackedScalar`].
    Small(u8, u64),
    /// The eight bytes of a date. The date may be out of range.
    Date(u64),
    /// A string or data that can't be cached. It has the fields of [`Content`].
    Long(ContentKind, u8, u64),
    /// A collection. The fields are its kind, the number of bytes from the object's offset to the
    /// first reference, and the number of items or pairs.
    Collection(CollectionKind, u8, u64),
    /// An object that can't be decoded. The fields are the reason and the marker, which is
    /// unspecified unless the reason is `Unknown`.
    Faulty(StepFault, u8),
}

impl Decoded {
    ghost use Rattle.plist_base.specs.Object.{Scalar};
    ghost use Rattle.plist_base.specs.PackedScalars.{scalar_of_packed};
    ghost use Rattle.plist_decode.specs.Decoded.{MeansDecoded};

    /// Returns an object that can't be decoded for this reason.
    #[inline(always)]
    pub(crate) fn faulty(fault: StepFault) -> Decoded
        ensures { result ≡ Decoded.Faulty fault 0 }
    {
        Decoded::Faulty(fault, 0)
    }

    /// Returns the scalar as a decoded object.
    #[inline(always)]
    pub(crate) fn small(scalar: PackedScalar) -> Decoded
        ensures { MeansDecoded (Scalar (scalar_of_packed scalar)) result }
    {
        Decoded::Small(scalar.tag(), scalar.content())
    }
}
