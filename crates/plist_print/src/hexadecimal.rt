//! Bytes as hexadecimal digits.

ghost use Rattle.std.specs.Prelude.{◌≡◌, ◌++◌, ◌+◌, ◌*◌, ◌<◌, ◌≤◌, [], ◌∷◌, length};
ghost use Rattle.plist_base.specs.FixedBuffers.{room};
ghost use Rattle.plist_print.specs.EscapedLines.{hexadecimal, hexadecimal_digit};

use plist_base::FixedBuffer;

// The hexadecimal digits.
const DIGIT_TABLE: [u8; 16] = *b"0123456789abcdef";

// Returns the hexadecimal digit of a value, from the table.
#[inline(always)]
#[tactic(auto, using(crate::proofs::Tables::is_digit))]
fn digit_at(value: u8) -> u8
    requires { value < 16 }
    ensures { result ≡ hexadecimal_digit value }
{
    DIGIT_TABLE[value as usize]
}

/// Returns the two hexadecimal digits of a byte. For a single byte, two look-ups in the table are
/// faster than the comparisons of `digit_of`.
#[inline(always)]
pub fn digits_of(byte: u8) -> [u8; 2]
    ensures { result ≡ hexadecimal (byte ∷ []) }
{
    [digit_at(byte / 16), digit_at(byte % 16)]
}

// Returns the hexadecimal digit of a value, without a table, so that a loop can be vectorized.
#[inline(always)]
fn digit_of(value: u8) -> u8
    requires { value < 16 }
    ensures { result ≡ hexadecimal_digit value }
{
    if value < 10 {
        b'0' + value
    } else {
        b'a' + (value - 10)
    }
}

// Returns the hexadecimal digits of a block of `N` bytes. The fixed length lets the compiler
// compute the digits of many bytes at once.
#[inline(always)]
fn digits_of_block<const N: usize, const DIGITS: usize>(bytes: &[u8; N]) -> [u8; DIGITS]
    requires { DIGITS ≡ 2 * N }
    ensures { result ≡ hexadecimal bytes.now }
{
    let mut digits = [0; DIGITS];
    for index in 0..N {
        digits[2 * index] = digit_of(bytes[index] / 16);
        digits[2 * index + 1] = digit_of(bytes[index] % 16);
    }
    digits
}

// Pushes two hexadecimal digits for each byte, one byte at a time.
fn push_digits(line: &mut FixedBuffer, bytes: &[u8])
    requires { 2 * length bytes.now ≤ room line.old }
    ensures pushed { line.new ≡ line.old ++ hexadecimal bytes.now }
    ensures room { room line.old ≤ room line.new + 2 * length bytes.now }
{
    for &byte in bytes {
        line.push(&digits_of(byte));
    }
}

// Pushes two hexadecimal digits for each byte in blocks of `N` bytes, and returns the bytes that
// remain.
#[inline(always)]
fn push_blocks<'b, const N: usize, const DIGITS: usize>(
    line: &mut FixedBuffer,
    bytes: &'b [u8],
) -> &'b [u8]
    requires size { (0 < N) × (DIGITS ≡ 2 * N) }
    requires room { 2 * length bytes.now ≤ room line.old }
    ensures pushed { line.new ++ hexadecimal result.now ≡ line.old ++ hexadecimal bytes.now }
    ensures room { room line.old + 2 * length result.now ≤ room line.new + 2 * length bytes.now }
{
    let (blocks, rest) = bytes.as_chunks::<N>();
    for block in blocks {
        line.push(&digits_of_block::<N, DIGITS>(block));
    }
    rest
}

/// Pushes two hexadecimal digits for every byte.
pub fn push_hexadecimal(line: &mut FixedBuffer, bytes: &[u8])
    requires { 2 * length bytes.now ≤ room line.old }
    ensures pushed { line.new ≡ line.old ++ hexadecimal bytes.now }
    ensures room { room line.old ≤ room line.new + 2 * length bytes.now }
{
    let shorter = push_blocks::<64, 128>(line, bytes);
    let rest = push_blocks::<8, 16>(line, shorter);
    push_digits(line, rest);
}
