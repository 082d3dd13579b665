//! A proved caller of the decoder: each small object is counted as it is decoded.

ghost use Rattle.std.specs.Prelude.{◌≡◌, ◌+◌, true};
ghost use Rattle.plist_decode.specs.Reading.{IsFront};

use plist_decode::counter::DecodeCounter;
use plist_decode::decoded::Decoded;
use plist_decode::object::{Decoder, decode_front};

/// Decodes the object at an offset from its first bytes, and returns `true` if it is small. If so,
/// and if the decoder's counter counts, it has counted the object.
pub fn never_counts<C: DecodeCounter>(decoder: &mut Decoder<C>, place: u64, seen: &[u8]) -> bool
    requires { IsFront decoder.old.bounds place seen.now }
    ensures { result ≡ true → C.counts
        → C.count decoder.new.counter ≡ C.count decoder.old.counter + 1 }
{
    match decode_front(decoder, place, seen) {
        Decoded::Small(_, _) => true,
        _ => false,
    }
}
