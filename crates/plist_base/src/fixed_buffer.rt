//! A buffer of fixed size.

ghost use Rattle.std.specs.Prelude.{◌≡◌, ◌+◌, ◌++◌, ◌≤◌, length, true, ℕ, ◌^◌, List, take, [], false, IfOk};
ghost use Rattle.plist_base.specs.ByteTests.{EachByte};
ghost use Rattle.std.specs.Fmt.{decimal};

use crate::Error;
use crate::byte_test::{ByteTest, copy_passing};
use itoa::write_digits;
use std::alloc::Global;
use std::marker::Model;

/// The number of bytes in a [`FixedBuffer`], and the most that a [`Sink`](crate::Sink) buffers.
pub const BUFFER_CAPACITY: usize = 1 << 16;

/// A buffer of [`BUFFER_CAPACITY`] bytes. It never grows.
///
/// A push doesn't check the room: the caller has to make sure that there is enough, and can do so
/// once for a whole line.
#[derive(Drop)]
pub struct FixedBuffer {
    // The first `used` bytes are those that were pushed, and the others are unspecified.
    bytes: Vec<u8>,
    used: usize,
}

impl Model for FixedBuffer {
    ghost Value = { List ℕ };

    ghost view = { λ buffer. take buffer.used buffer.bytes.items };

    ghost invariant = { λ buffer. (buffer.used ≤ 2 ^ 16) × (length buffer.bytes.items ≡ 2 ^ 16) };
}

// Returns the number of decimal digits in a number that has more than six.
#[tactic(auto, using(crate::proofs::Digits::digits))]
fn digits_of_large(number: u64) -> usize
    requires { 1000000 ≤ number }
    ensures { result ≡ length (decimal number) }
{
    match number {
        0..=9_999_999 => 7,
        10_000_000..=99_999_999 => 8,
        100_000_000..=999_999_999 => 9,
        1_000_000_000..=9_999_999_999 => 10,
        10_000_000_000..=99_999_999_999 => 11,
        100_000_000_000..=999_999_999_999 => 12,
        1_000_000_000_000..=9_999_999_999_999 => 13,
        10_000_000_000_000..=99_999_999_999_999 => 14,
        100_000_000_000_000..=999_999_999_999_999 => 15,
        1_000_000_000_000_000..=9_999_999_999_999_999 => 16,
        10_000_000_000_000_000..=99_999_999_999_999_999 => 17,
        100_000_000_000_000_000..=999_999_999_999_999_999 => 18,
        1_000_000_000_000_000_000..=9_999_999_999_999_999_999 => 19,
        _ => 20,
    }
}

// Returns the number of decimal digits in a number. Small numbers are tested first, since they are
// the most frequent.
#[inline(always)]
#[tactic(auto, using(crate::proofs::Digits::digits))]
fn digits_of(number: u64) -> usize
    ensures { result ≡ length (decimal number) }
{
    if number < 100 {
        return if number < 10 { 1 } else { 2 };
    }
    if number < 10_000 {
        return if number < 1_000 { 3 } else { 4 };
    }
    if number < 1_000_000 {
        return if number < 100_000 { 5 } else { 6 };
    }
    digits_of_large(number)
}

// Copies `before`, `bytes` and `after` if all of `bytes` pass a test, and returns whether they do.
#[inline(always)]
fn copy_enclosed<T: ByteTest, const BEFORE: usize, const AFTER: usize>(
    target: &mut [u8],
    before: [u8; BEFORE],
    bytes: &[u8],
    after: [u8; AFTER],
) -> bool
    requires { length target.old ≡ BEFORE + length bytes.now + AFTER }
    ensures copied { result ≡ true → target.new ≡ before.entry ++ bytes.now ++ after.entry }
    ensures passed { result ≡ true → EachByte T.passes bytes.now }
    ensures size { length target.new ≡ length target.old }
{
    let (first, rest) = target.split_at_mut(BEFORE);
    let (middle, last) = rest.split_at_mut(bytes.len());
    first.copy_from_slice(&before);
    last.copy_from_slice(&after);
    copy_passing::<T>(bytes, middle)
}

impl FixedBuffer {
    ghost use Rattle.plist_base.specs.FixedBuffers.{room, buffer_capacity};
    ghost use Rattle.plist_base.specs.Outcomes.{OnlyMemory};

    /// Allocates an empty buffer.
    ///
    /// # Errors
    ///
    /// `OutOfMemory`, without an offset, if the allocation fails.
    pub fn new(alloc: Global) -> Result<FixedBuffer, Error>
        ensures empty { IfOk result (λ buffer. buffer ≡ []) }
        ensures memory { OnlyMemory result }
    {
        let bytes = vec![in alloc; 0u8; BUFFER_CAPACITY]?;
        Ok(FixedBuffer { bytes, used: 0 })
    }

    /// Returns how many more bytes can be pushed.
    #[inline(always)]
    pub fn room(&self) -> usize
        ensures { result ≡ room self.now }
    {
        BUFFER_CAPACITY - self.used
    }

    /// Returns the bytes that were pushed since the last [`FixedBuffer::clear`].
    pub fn as_slice(&self) -> &[u8]
        ensures { result.now ≡ self.now }
    {
        &self.bytes[..self.used]
    }

    /// Removes all pushed bytes.
    pub fn clear(&mut self)
        ensures empty { self.new ≡ [] }
        ensures room { room self.new ≡ buffer_capacity }
    {
        self.used = 0;
    }

    /// Appends bytes, which must fit into the room.
    #[inline(always)]
    pub fn push(&mut self, bytes: &[u8])
        requires room { length bytes.now ≤ room self.old }
        ensures pushed { self.new ≡ self.old ++ bytes.now }
        ensures room { room self.new + length bytes.now ≡ room self.old }
    {
        let end = self.used + bytes.len();
        self.bytes[self.used..end].copy_from_slice(bytes);
        self.used = end;
    }

    /// Appends the bytes of an array, which must fit into the room. A constant array is copied by a
    /// few instructions.
    #[inline(always)]
    pub fn push_array<const N: usize>(&mut self, bytes: [u8; N])
        requires room { N ≤ room self.old }
        ensures pushed { self.new ≡ self.old ++ bytes.entry }
        ensures room { room self.new + N ≡ room self.old }
    {
        self.push(&bytes);
    }

    /// Appends `before`, `bytes` and `after` if all of `bytes` pass a test, and returns `true` if
    /// they do. All three must fit into the room.
    #[inline(always)]
    pub fn push_passing<T: ByteTest, const BEFORE: usize, const AFTER: usize>(
        &mut self,
        before: [u8; BEFORE],
        bytes: &[u8],
        after: [u8; AFTER],
    ) -> bool
        requires room { BEFORE + length bytes.now + AFTER ≤ room self.old }
        ensures pushed { result ≡ true
            → self.new ≡ self.old ++ (before.entry ++ bytes.now ++ after.entry) }
        ensures passed { result ≡ true → EachByte T.passes bytes.now }
        ensures room { result ≡ true
            → room self.new + (BEFORE + length bytes.now + AFTER) ≡ room self.old }
        ensures unchanged { result ≡ false → self.new ≡ self.old }
    {
        let end = self.used + BEFORE + bytes.len() + AFTER;
        let target = &mut self.bytes[self.used..end];
        if !copy_enclosed::<T, BEFORE, AFTER>(target, before, bytes, after) {
            return false;
        }
        self.used = end;
        true
    }

    /// Appends the first `count` of eight bytes. There must be room for all eight: copying a fixed
    /// number of bytes takes a single instruction.
    #[inline(always)]
    #[tactic(auto, using(crate::proofs::Digits::first_after))]
    pub fn push_first(&mut self, bytes: [u8; 8], count: usize)
        requires count { count ≤ 8 }
        requires room { 8 ≤ room self.old }
        ensures pushed { self.new ≡ self.old ++ take count bytes }
        ensures room { room self.new + count ≡ room self.old }
    {
        let end = self.used + count;
        self.push(&bytes);
        self.used = end;
    }

    /// Appends the decimal digits of a number. There must be room for twenty bytes, the most digits
    /// that a `u64` has.
    #[inline(always)]
    #[tactic(auto, using(crate::proofs::Digits::at_most_twenty))]
    pub fn push_decimal(&mut self, number: u64)
        requires room { 20 ≤ room self.old }
        ensures pushed { self.new ≡ self.old ++ decimal number }
        ensures room { room self.old ≤ room self.new + 20 }
    {
        let end = self.used + digits_of(number);
        write_digits(number, self.bytes.as_mut_slice(), end);
        self.used = end;
    }
}
