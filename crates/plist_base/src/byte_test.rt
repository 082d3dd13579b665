//! Tests that can be made for many bytes together.

ghost use Rattle.std.specs.Prelude.{◌≡◌, ◌+◌, ◌≤◌, length, true, ℕ, ◌<◌};
ghost use Rattle.plist_base.specs.ByteTests.{CopiesPassing, EachByte};

use std::simd::prelude::*;

/// A test of a byte. It can be made for many bytes together.
///
/// A test may reject any byte, but it accepts only those with the property that it tests.
pub trait ByteTest {
    /// The property of a byte that is tested.
    ghost passes: { ℕ → Type 0 };

    /// Returns `true` if sixteen bytes pass the test.
    fn sixteen(bytes: u8x16) -> bool
        ensures { result ≡ true → EachByte passes bytes };

    /// Returns `true` if eight bytes pass the test.
    fn eight(bytes: u8x8) -> bool
        ensures { result ≡ true → EachByte passes bytes };

    /// Returns `true` if a byte passes the test.
    fn one(byte: u8) -> bool
        ensures { result ≡ true → passes byte };
}

/// Tests whether bytes are less than a limit.
pub struct Below<const LIMIT: u8>;

/// Tests whether bytes are ASCII.
pub type Ascii = Below<128>;

impl<const LIMIT: u8> ByteTest for Below<LIMIT> {
    ghost passes = { λ byte. byte < LIMIT };

    #[inline(always)]
    fn sixteen(bytes: u8x16) -> bool {
        bytes.simd_ge(u8x16::splat(LIMIT)).to_bitmask() == 0
    }

    #[inline(always)]
    fn eight(bytes: u8x8) -> bool {
        bytes.simd_ge(u8x8::splat(LIMIT)).to_bitmask() == 0
    }

    #[inline(always)]
    fn one(byte: u8) -> bool {
        byte < LIMIT
    }
}

// Tests at least sixteen bytes. The last sixteen are tested together, even if the previous test
// included some of them.
#[inline(always)]
fn many_pass<T: ByteTest>(bytes: &[u8]) -> bool
    requires { 16 ≤ length bytes.now }
    ensures { result ≡ true → EachByte T.passes bytes.now }
{
    let last = bytes.len() - 16;
    let mut at = 0;
    while at < last {
        if !T::sixteen(u8x16::from_slice(&bytes[at..])) {
            return false;
        }
        at += 16;
    }
    T::sixteen(u8x16::from_slice(&bytes[last..]))
}

// Tests the bytes one by one.
#[inline(always)]
fn few_pass<T: ByteTest>(bytes: &[u8]) -> bool
    ensures { result ≡ true → EachByte T.passes bytes.now }
{
    for &byte in bytes {
        if !T::one(byte) {
            return false;
        }
    }
    true
}

/// Returns `true` if all bytes pass a test.
#[inline(always)]
pub fn all_pass<T: ByteTest>(bytes: &[u8]) -> bool
    ensures { result ≡ true → EachByte T.passes bytes.now }
{
    if bytes.len() > 16 {
        return many_pass::<T>(bytes);
    }
    if bytes.len() >= 8 {
        // The first eight bytes, and then the last eight, which may include some of the first.
        return T::eight(u8x8::from_slice(bytes))
            && T::eight(u8x8::from_slice(&bytes[bytes.len() - 8..]));
    }
    few_pass::<T>(bytes)
}

// Copies the sixteen bytes at an index, before which all bytes were copied, if they pass a test.
// Returns whether they do.
#[inline(always)]
fn copy_sixteen<T: ByteTest>(bytes: &[u8], target: &mut [u8], at: usize) -> bool
    requires within { at + 16 ≤ length bytes.now }
    requires same { length target.old ≡ length bytes.now }
    requires before { CopiesPassing T.passes at bytes.now target.old }
    ensures copied { result ≡ true → CopiesPassing T.passes (at + 16) bytes.now target.new }
    ensures size { length target.new ≡ length target.old }
{
    let block = u8x16::from_slice(&bytes[at..]);
    if !T::sixteen(block) {
        return false;
    }
    block.copy_to_slice(&mut target[at..]);
    true
}

// Copies the eight bytes at an index, before which all bytes were copied, if they pass a test.
// Returns whether they do.
#[inline(always)]
fn copy_eight<T: ByteTest>(bytes: &[u8], target: &mut [u8], at: usize) -> bool
    requires within { at + 8 ≤ length bytes.now }
    requires same { length target.old ≡ length bytes.now }
    requires before { CopiesPassing T.passes at bytes.now target.old }
    ensures copied { result ≡ true → CopiesPassing T.passes (at + 8) bytes.now target.new }
    ensures size { length target.new ≡ length target.old }
{
    let block = u8x8::from_slice(&bytes[at..]);
    if !T::eight(block) {
        return false;
    }
    block.copy_to_slice(&mut target[at..]);
    true
}

// Copies at least sixteen bytes if they pass a test, and returns whether they do. The last sixteen
// are copied together, even if some of them were copied before.
#[inline(always)]
fn copy_many<T: ByteTest>(bytes: &[u8], target: &mut [u8]) -> bool
    requires many { 16 ≤ length bytes.now }
    requires same { length target.old ≡ length bytes.now }
    ensures copied { result ≡ true
        → CopiesPassing T.passes (length bytes.now) bytes.now target.new }
    ensures size { length target.new ≡ length target.old }
{
    let last = bytes.len() - 16;
    let mut at = 0;
    while at < last {
        if !copy_sixteen::<T>(bytes, target, at) {
            return false;
        }
        at += 16;
    }
    copy_sixteen::<T>(bytes, target, last)
}

// Copies bytes one by one if they pass a test, and returns whether they do.
#[inline(always)]
fn copy_few<T: ByteTest>(bytes: &[u8], target: &mut [u8]) -> bool
    requires { length target.old ≡ length bytes.now }
    ensures copied { result ≡ true
        → CopiesPassing T.passes (length bytes.now) bytes.now target.new }
    ensures size { length target.new ≡ length target.old }
{
    for index in 0..bytes.len() {
        if !T::one(bytes[index]) {
            return false;
        }
        target[index] = bytes[index];
    }
    true
}

/// Copies bytes if all of them pass a test, and returns `true` if they do. Otherwise the target is
/// unspecified. Testing and copying together loads every byte only once.
#[inline(always)]
pub(crate) fn copy_passing<T: ByteTest>(bytes: &[u8], target: &mut [u8]) -> bool
    requires { length target.old ≡ length bytes.now }
    ensures copied { result ≡ true → target.new ≡ bytes.now }
    ensures passed { result ≡ true → EachByte T.passes bytes.now }
    ensures size { length target.new ≡ length target.old }
{
    if bytes.len() > 16 {
        return copy_many::<T>(bytes, target);
    }
    if bytes.len() >= 8 {
        if !copy_eight::<T>(bytes, target, 0) {
            return false;
        }
        return copy_eight::<T>(bytes, target, bytes.len() - 8);
    }
    copy_few::<T>(bytes, target)
}
