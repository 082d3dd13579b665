//! The hashes of scalars, the texts of their errors, and the I/O errors in errors.

use crate::support::{must, same};
use plist_base::{Date, ErrorKind, Integer, InvalidXmlData, InvalidXmlDate, RealBits, Uid};
use plist_support::{DEVICE_MESSAGE, device_error};
use std::hash::{DefaultHasher, Hash, Hasher};
use std::io;
use std::process::Abort;

fn hash_of<T: Hash>(value: &T) -> u64 {
    let mut state = DefaultHasher::new();
    value.hash(&mut state);
    state.finish()
}

// Returns whether two values are equal and have the same hash, and another one is different and has
// a different hash.
fn are_told_apart<T: Hash + Eq>(value: &T, equal: &T, other: &T) -> bool {
    let (hash, others) = (hash_of(value), hash_of(other));
    *value == *equal && *value != *other && hash == hash_of(equal) && hash != others
}

#[test]
fn hashes(rt: HostRuntime) {
    let (seven, again) = (Integer::from(7u8), Integer::from(7i64));
    // All 64 bits are set, as in -1.
    let greatest = Integer::from(u64::MAX);
    let (four, eight) = (RealBits::Four([0; 4]), RealBits::Eight([0; 8]));
    let below = RealBits::Eight([128, 0, 0, 0, 0, 0, 0, 0]);
    let (date, same_date) = (Date::from_plist_secs(5), Date::from_unix_secs(978307205));
    let uid = Uid::new(5);
    let found = [
        are_told_apart(&seven, &again, &Integer::from(-7i64)),
        are_told_apart(&greatest, &greatest, &Integer::from(-1i64)),
        are_told_apart(&four, &four, &RealBits::Four([128, 0, 0, 0])),
        are_told_apart(&eight, &eight, &below),
        are_told_apart(&date, &same_date, &Date::from_plist_secs(6)),
        are_told_apart(&uid, &uid, &Uid::new(6)),
        // In the Rust crate, the hash of a Uid is that of its only field.
        hash_of(&uid) == hash_of(&5u64),
    ];
    same(&rt, "the hashes", &found, &[true; 7]);
}

#[test]
fn texts_of_errors(rt: HostRuntime) {
    let memory = InvalidXmlData::OutOfMemory;
    let found = must(&rt, format!(in rt.alloc(); "{memory}: {InvalidXmlDate}"));
    let wanted = "OutOfMemory: String was not a valid XML plist date";
    same(&rt, "the texts", &found.as_str(), &wanted);
}

// Returns the text of the I/O error that is taken out of an error of this kind, or the text of that
// error if it is no I/O error.
fn text_taken_out(rt: &(impl Abort + AllocGlobal), kind: ErrorKind) -> String {
    let text = match kind.with_byte_offset(3).into_io() {
        Ok(failure) => failure.to_string(rt.alloc()),
        Err(error) => error.to_string(rt.alloc()),
    };
    must(rt, text)
}

#[test]
fn an_io_error_comes_back(rt: HostRuntime) {
    let failed = ErrorKind::Io(device_error(io::ErrorKind::Other));
    let found = text_taken_out(&rt, failed);
    same(&rt, "an I/O error", &found.as_str(), &DEVICE_MESSAGE);
    let found = text_taken_out(&rt, ErrorKind::UnexpectedEof);
    same(
        &rt,
        "another error",
        &found.as_str(),
        &"UnexpectedEof (offset 3)",
    );
}
