//! Stores the tag of an object, a byte: that of a small scalar, or one that encodes the layout of
//! an open collection.

ghost use Rattle.std.specs.Prelude.{◌≡◌, ◌<◌, length, slice_index};
ghost use Rattle.plist_decode.specs.Packed.{KeepsOtherTags, is_marked, open_kind, open_start, open_tag};

use crate::decoded::CollectionKind;

/// Returns `true` if `tag` is the tag of an open object.
#[inline(always)]
pub fn is_open(tag: u8) -> bool
    ensures { result ≡ is_marked tag }
{
    tag >= 128
}

/// Returns the tag of an open collection of the given kind. Its references begin `start` bytes
/// after its offset.
#[inline(always)]
pub fn open_tag(kind: CollectionKind, start: u8) -> u8
    requires { start < 16 }
    ensures { result ≡ open_tag kind start }
{
    match kind {
        CollectionKind::Array => 128 + start,
        CollectionKind::Dictionary => 144 + start,
    }
}

/// Returns the kind of the open collection with the given tag.
#[inline(always)]
pub fn open_kind(tag: u8) -> CollectionKind
    ensures { result ≡ open_kind tag }
{
    if tag >= 144 {
        CollectionKind::Dictionary
    } else {
        CollectionKind::Array
    }
}

/// Returns the number of bytes from the offset of the open collection with the given tag to its
/// references.
#[inline(always)]
pub fn open_start(tag: u8) -> u8
    ensures { result ≡ open_start tag }
{
    tag % 16
}

/// Stores the tag of an object.
#[inline(always)]
pub fn set_tag(tags: &mut Vec<u8>, number: usize, tag: u8)
    requires { number < length tags.old.items }
    ensures tag { slice_index tags.new.items number ≡ tag }
    ensures tags { KeepsOtherTags number tags.old.items tags.new.items }
{
    tags[number] = tag;
}
