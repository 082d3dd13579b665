//! Proved callers of hashes: equal scalars have the same hash.

ghost use Rattle.std.specs.Prelude.{◌≡◌, true};
ghost use Rattle.std.specs.Hash.DefaultHasher as sip;
ghost use Rattle.std.specs.List.{fold};

use plist::{Date, Integer, RealBits, Uid};
use std::hash::{DefaultHasher, Hash, Hasher};

// Returns the hash of a value, which is that of its writes in order.
fn hash_of<T: Hash>(value: &T) -> u64
    ensures { result ≡ sip.finish (fold sip.write sip.initial (T.hash_input value.now)) }
{
    let mut state = DefaultHasher::new();
    value.hash(&mut state);
    state.finish()
}

/// Returns `true` if two values have the same hash or aren't equal, which is always true.
pub fn hash_alike<T: Hash>(value: &T, other: &T) -> bool
    ensures { result ≡ true }
{
    value != other || hash_of(value) == hash_of(other)
}

/// Returns `true` if two integers have the same hash or aren't equal, whatever types they were made
/// from. This is always true.
pub fn integers_hash_alike(number: Integer, other: Integer) -> bool
    ensures { result ≡ true }
{
    hash_alike(&number, &other)
}

/// Returns `true` if two identifiers have the same hash or aren't equal, which is always true.
pub fn uids_hash_alike(uid: Uid, other: Uid) -> bool
    ensures { result ≡ true }
{
    hash_alike(&uid, &other)
}

/// Returns `true` if two reals have the same hash or aren't equal, which is always true.
pub fn reals_hash_alike(bits: RealBits, other: RealBits) -> bool
    ensures { result ≡ true }
{
    hash_alike(&bits, &other)
}

/// Returns `true` if two dates have the same hash or aren't equal, which is always true.
pub fn dates_hash_alike(date: Date, other: Date) -> bool
    ensures { result ≡ true }
{
    hash_alike(&date, &other)
}
