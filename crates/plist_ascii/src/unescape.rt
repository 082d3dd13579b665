//! Takes the escapes in quoted strings.

ghost use Rattle.std.specs.Prelude.{◌≡◌, ◌<◌, ◌≤◌, [], ◌∷◌, Some, true, false, MatchOption};
ghost use Rattle.std.specs.Char.{digit_value, is_digit};
ghost use Rattle.plist_base.specs.Faults.{InvalidOctalString, InvalidUtf16String};
ghost use Rattle.plist_ascii.specs.Escapes.{simple_escape, octal_escape, octal_char, octal_text, code_unit, unit_of, is_surrogate, pair_text, low_half, unicode_escape, escape};
ghost use Rattle.plist_ascii.specs.inner.Inputs.{CountsFailed, GivesBy, IsCharOr, escaped_bytes};

use crate::byte_reader::ByteReader;
use crate::fault::TokenFault;
use crate::input::Input;

/// What an escape denotes.
#[derive(Clone, Copy)]
pub enum Escaped {
    /// A byte.
    Byte(u8),
    /// A character, which is stored in UTF-8.
    Char(char),
}

// The characters 128 to 255 of NeXTSTEP's encoding.
const NEXTSTEP: [char; 128] = [
    '\u{A0}', '\u{C0}', '\u{C1}', '\u{C2}', '\u{C3}', '\u{C4}', '\u{C5}', '\u{C7}', '\u{C8}',
    '\u{C9}', '\u{CA}', '\u{CB}', '\u{CC}', '\u{CD}', '\u{CE}', '\u{CF}', '\u{D0}', '\u{D1}',
    '\u{D2}', '\u{D3}', '\u{D4}', '\u{D5}', '\u{D6}', '\u{D9}', '\u{DA}', '\u{DB}', '\u{DC}',
    '\u{DD}', '\u{DE}', '\u{B5}', '\u{D7}', '\u{F7}', '\u{A9}', '\u{A1}', '\u{A2}', '\u{A3}',
    '\u{2044}', '\u{A5}', '\u{192}', '\u{A7}', '\u{A4}', '\u{2019}', '\u{201C}', '\u{AB}',
    '\u{2039}', '\u{203A}', '\u{FB01}', '\u{FB02}', '\u{AE}', '\u{2013}', '\u{2020}', '\u{2021}',
    '\u{B7}', '\u{A6}', '\u{B6}', '\u{2022}', '\u{201A}', '\u{201E}', '\u{201D}', '\u{BB}',
    '\u{2026}', '\u{2030}', '\u{AC}', '\u{BF}', '\u{B9}', '\u{2CB}', '\u{B4}', '\u{2C6}',
    '\u{2DC}', '\u{AF}', '\u{2D8}', '\u{2D9}', '\u{A8}', '\u{B2}', '\u{2DA}', '\u{B8}', '\u{B3}',
    '\u{2DD}', '\u{2DB}', '\u{2C7}', '\u{2014}', '\u{B1}', '\u{BC}', '\u{BD}', '\u{BE}', '\u{E0}',
    '\u{E1}', '\u{E2}', '\u{E3}', '\u{E4}', '\u{E5}', '\u{E7}', '\u{E8}', '\u{E9}', '\u{EA}',
    '\u{EB}', '\u{EC}', '\u{C6}', '\u{ED}', '\u{AA}', '\u{EE}', '\u{EF}', '\u{F0}', '\u{F1}',
    '\u{141}', '\u{D8}', '\u{152}', '\u{BA}', '\u{F2}', '\u{F3}', '\u{F4}', '\u{F5}', '\u{F6}',
    '\u{E6}', '\u{F9}', '\u{FA}', '\u{FB}', '\u{131}', '\u{FC}', '\u{FD}', '\u{142}', '\u{F8}',
    '\u{153}', '\u{DF}', '\u{FE}', '\u{FF}', '\u{FFFD}', '\u{FFFD}',
];

// Returns the byte that this byte denotes after a backslash, or `None` if it denotes none.
fn simple_of(byte: u8) -> Option<u8>
    ensures { result ≡ simple_escape byte }
{
    match byte {
        b'\\' => Some(b'\\'),
        b'"' => Some(b'"'),
        b'\'' => Some(b'\''),
        b'a' => Some(b'\x07'),
        b'b' => Some(b'\x08'),
        b'f' => Some(b'\x0C'),
        b'n' => Some(b'\n'),
        b'r' => Some(b'\r'),
        b't' => Some(b'\t'),
        b'v' => Some(b'\x0B'),
        _ => None,
    }
}

// Returns the value of a digit, or `None` if the byte isn't a digit of this radix.
fn digit(byte: u8, radix: u32) -> Option<u32>
    requires radix { (2 ≤ radix) × (radix ≤ 36) }
    ensures { MatchOption result (is_digit byte radix ≡ false) (λ value.
        (is_digit byte radix ≡ true) × (value ≡ digit_value byte) × (value < radix)) }
{
    char::from(byte).to_digit(radix)
}

// Returns the character of an octal escape with this number.
#[tactic(auto, unfolding(crate::specs::Escapes::octal_char), using(crate::proofs::Texts::to_char))]
fn octal_char(number: u32) -> Option<char>
    requires { number < 512 }
    ensures { result ≡ Some (octal_char number) }
{
    if number >= 128 && number < 256 {
        return Some(NEXTSTEP[(number - 128) as usize]);
    }
    char::from_u32(number)
}

// Returns the character of three octal digits, or `None` if one of the bytes isn't an octal digit.
#[tactic(auto, unfolding(crate::specs::Escapes::octal_text))]
fn octal_of(first: u8, second: u8, third: u8) -> Option<char>
    ensures { IsCharOr InvalidOctalString (octal_text (first ∷ second ∷ third ∷ [])) result }
{
    let a = digit(first, 8)?;
    let b = digit(second, 8)?;
    let c = digit(third, 8)?;
    octal_char(a * 64 + b * 8 + c)
}

// Returns the UTF-16 unit of four hexadecimal digits, or `None` if one of the bytes isn't a digit.
fn unit_of(first: u8, second: u8, third: u8, fourth: u8) -> Option<u16>
    ensures { result ≡ unit_of (first ∷ second ∷ third ∷ fourth ∷ []) }
{
    let a = digit(first, 16)?;
    let b = digit(second, 16)?;
    let c = digit(third, 16)?;
    let d = digit(fourth, 16)?;
    Some((a * 4096 + b * 256 + c * 16 + d) as u16)
}

// Returns the character of a unit, or `None` if the unit is a surrogate.
fn lone_char(unit: u16) -> Option<char>
    ensures { MatchOption result (is_surrogate unit ≡ true) (λ c.
        (is_surrogate unit ≡ false) × (c ≡ unit)) }
{
    char::from_u32(u32::from(unit))
}

// Returns the character of a surrogate pair, or `None` if the units aren't one.
fn pair_char(high: u16, low: u16) -> Option<char>
    ensures { IsCharOr InvalidUtf16String (pair_text high low) result }
{
    if !(0xD800..0xDC00).contains(&high) || !(0xDC00..0xE000).contains(&low) {
        return None;
    }
    char::from_u32(0x1_0000 + (u32::from(high) - 0xD800) * 0x400 + (u32::from(low) - 0xDC00))
}

impl<R: ByteReader> Input<R> {
    /// Takes the rest of an escape after its backslash, and returns what it denotes.
    #[tactic(auto, unfolding(crate::specs::Escapes::escape))]
    pub fn escape(&mut self) -> Result<Escaped, TokenFault>
        ensures answers { GivesBy R.remaining escaped_bytes escape self.old result self.new }
        ensures failures { CountsFailed R.failures self.old result self.new }
    {
        let byte = self.expect_byte()?;
        if byte == b'U' {
            return self.unicode_escape();
        }
        match digit(byte, 8) {
            Some(_) => self.octal_escape(byte),
            None => match simple_of(byte) {
                Some(other) => Ok(Escaped::Byte(other)),
                None => Err(TokenFault::InvalidUtf8),
            },
        }
    }

    // Takes the rest of an octal escape, whose first digit has been taken.
    fn octal_escape(&mut self, first: u8) -> Result<Escaped, TokenFault>
        ensures answers { GivesBy R.remaining escaped_bytes (octal_escape first) self.old
            result self.new }
        ensures failures { CountsFailed R.failures self.old result self.new }
    {
        let second = self.expect_byte()?;
        let third = self.expect_byte()?;
        match octal_of(first, second, third) {
            Some(c) => Ok(Escaped::Char(c)),
            None => Err(TokenFault::InvalidOctal),
        }
    }

    // Takes the unit or the surrogate pair after `\U`, and returns its character.
    fn unicode_escape(&mut self) -> Result<Escaped, TokenFault>
        ensures answers { GivesBy R.remaining escaped_bytes unicode_escape self.old
            result self.new }
        ensures failures { CountsFailed R.failures self.old result self.new }
    {
        let unit = self.code_unit()?;
        match lone_char(unit) {
            Some(c) => Ok(Escaped::Char(c)),
            None => {
                let low = self.low_half()?;
                match pair_char(unit, low) {
                    Some(c) => Ok(Escaped::Char(c)),
                    None => Err(TokenFault::InvalidUtf16),
                }
            }
        }
    }

    // Takes the four hexadecimal digits of a unit. All four are taken before they are checked.
    fn code_unit(&mut self) -> Result<u16, TokenFault>
        ensures answers { GivesBy R.remaining (λ u. u) code_unit self.old result self.new }
        ensures failures { CountsFailed R.failures self.old result self.new }
    {
        let a = self.expect_byte()?;
        let b = self.expect_byte()?;
        let c = self.expect_byte()?;
        let d = self.expect_byte()?;
        unit_of(a, b, c, d).ok_or(TokenFault::InvalidUtf16)
    }

    // Takes the second half of a surrogate pair: a backslash, `u` or `U`, and a unit. The byte
    // after the backslash is taken only if it is `u` or `U`.
    fn low_half(&mut self) -> Result<u16, TokenFault>
        ensures answers { GivesBy R.remaining (λ u. u) low_half self.old result self.new }
        ensures failures { CountsFailed R.failures self.old result self.new }
    {
        let first = self.expect_byte()?;
        if first != b'\\' {
            return Err(TokenFault::InvalidUtf16);
        }
        match self.peek()? {
            Some(b'u' | b'U') => {
                self.take_first(1);
                self.code_unit()
            }
            _ => Err(TokenFault::InvalidUtf16),
        }
    }
}
