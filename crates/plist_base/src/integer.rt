//! Integers from `i64::MIN` to `u64::MAX`.

ghost use Rattle.std.specs.Prelude.{◌≡◌, pos, negsuc, codes, ◌-◌, ◌^◌, ◌≤◌, ◌≤ℤ◌, ◌<ℤ◌, ◌↔◌, IsSome, IfSome, Some, ℤ, refl};
ghost use Rattle.std.specs.Fmt.{signed_decimal, styled_signed_decimal};
ghost use Rattle.plist_base.specs.IntegerText.{SpellsInteger, unsigned_of_text, without_prefixes, IsNumberOf, number_for, whole, IsOrderOf};
ghost use Rattle.std.proofs.Common.{ap};
ghost use Rattle.std.specs.Cmp.{partial_equiv_from_equiv, int_cmp_total, signed_po};
ghost use Rattle.std.specs.Ordering.{int_eq, int_cmp};
ghost use Rattle.std.proofs.lemmas.Cmp.{int_eq_equiv};

use std::cmp::Ordering;
use std::fmt;
use std::marker::Model;
use std::str::FromStr;

// An integer in 64 bits, and whether it is negative. An `i128` would be aligned to 16 bytes, and so
// would every event.
#[derive(Clone, Copy, PartialEq, Eq, Hash)]
enum Number {
    Negative(i64),
    Unsigned(u64),
}

/// An integer from `i64::MIN` to `u64::MAX`.
///
/// Integers are compared by their values, whatever types they were made from.
#[derive(Clone, Copy, Eq, Hash)]
pub struct Integer {
    number: Number,
}

impl Model for Integer {
    ghost Value = { ℤ };

    ghost view = { λ a. whole a.number };

    ghost invariant = { λ a. IsNumberOf (whole a.number) a.number };

    ghost inverse = { λ z. record { number = number_for z } };

    ghost inverse_ok = { λ a kept. ap (λ n. record { number = n }) kept.2 };
}

impl Integer {
    /// Returns the value as an `i64`, or `None` if it is above `i64::MAX`.
    ///
    /// No `Integer` is below `i64::MIN`.
    pub fn as_signed(self) -> Option<i64>
        ensures fits { IsSome result ↔ (self <ℤ pos (2 ^ 63)) }
        ensures value { IfSome result (λ n. n ≡ self) }
        ensures never_lower { negsuc (2 ^ 63 - 1) ≤ℤ self }
    {
        match self.number {
            Number::Negative(number) => Some(number),
            Number::Unsigned(number) => i64::try_from(number).ok(),
        }
    }

    /// Returns the value as a `u64`, or `None` if it is negative.
    ///
    /// No `Integer` is above `u64::MAX`.
    pub fn as_unsigned(self) -> Option<u64>
        ensures fits { IsSome result ↔ (pos 0 ≤ℤ self) }
        ensures value { IfSome result (λ n. pos n ≡ self) }
        ensures never_higher { self <ℤ pos (2 ^ 64) }
    {
        match self.number {
            Number::Negative(_) => None,
            Number::Unsigned(number) => Some(number),
        }
    }

    /// Parses an integer.
    ///
    /// If the string begins with `0x`, every leading `0x` is removed; the rest is hexadecimal with
    /// an optional `+`, and at most `u64::MAX`. Any other string is decimal with an optional sign,
    /// from `i64::MIN` to `u64::MAX`. At least one digit is required, and leading zeros are
    /// allowed. No other characters are allowed, not even blanks at the ends.
    ///
    /// # Errors
    ///
    /// [`InvalidInteger`] if and only if the string spells no such integer.
    ///
    /// # Examples
    ///
    /// ```rust
    /// let number = Integer::from_str("0x10").ok()?;
    /// number.as_signed()
    /// ```
    pub fn from_str(text: &str) -> Result<Integer, InvalidInteger>
        ensures number { SpellsInteger text.now result }
    {
        let number = match text.strip_prefix("0x") {
            Some(rest) => unsigned(strip_prefixes(rest), 16),
            None => match text.parse::<i64>() {
                Ok(number) => Some(Integer::from(number)),
                Err(_) => unsigned(text, 10),
            },
        };
        number.ok_or(InvalidInteger)
    }

    // Returns the value as an `i128`.
    pub(crate) fn widened(self) -> i128
        ensures { result ≡ self }
    {
        match self.number {
            Number::Negative(number) => i128::from(number),
            Number::Unsigned(number) => i128::from(number),
        }
    }
}

impl PartialEq for Integer {
    ghost eq = { int_eq };

    ghost laws = { partial_equiv_from_equiv int_eq_equiv };

    fn eq(&self, other: &Integer) -> bool {
        self.widened() == other.widened()
    }
}

/// Orders integers by their values.
impl Ord for Integer {
    ghost cmp = { int_cmp };

    ghost total = { int_cmp_total };

    ghost matches_partial_cmp = { λ a b. refl };

    ghost matches_eq = { λ a b. refl };

    fn cmp(&self, other: &Integer) -> Ordering
        ensures value { result ≡ int_cmp self.now other.now }
        ensures order { IsOrderOf self.now other.now result }
    {
        self.widened().cmp(&other.widened())
    }
}

/// Orders integers by their values.
impl PartialOrd for Integer {
    ghost partial_cmp = { λ a b. Some (int_cmp a b) };

    ghost laws = { signed_po };

    fn partial_cmp(&self, other: &Integer) -> Option<Ordering> {
        Some(self.cmp(other))
    }
}

impl From<i64> for Integer {
    ghost from_gives = { λ number integer. integer ≡ number };

    fn from(value: i64) -> Integer {
        if value < 0 {
            return Integer {
                number: Number::Negative(value),
            };
        }
        Integer::from(value.cast_unsigned())
    }
}

impl From<i32> for Integer {
    ghost from_gives = { λ number integer. integer ≡ number };

    fn from(value: i32) -> Integer {
        Integer::from(i64::from(value))
    }
}

impl From<i16> for Integer {
    ghost from_gives = { λ number integer. integer ≡ number };

    fn from(value: i16) -> Integer {
        Integer::from(i64::from(value))
    }
}

impl From<i8> for Integer {
    ghost from_gives = { λ number integer. integer ≡ number };

    fn from(value: i8) -> Integer {
        Integer::from(i64::from(value))
    }
}

impl From<u64> for Integer {
    ghost from_gives = { λ number integer. integer ≡ pos number };

    fn from(value: u64) -> Integer {
        Integer {
            number: Number::Unsigned(value),
        }
    }
}

impl From<u32> for Integer {
    ghost from_gives = { λ number integer. integer ≡ pos number };

    fn from(value: u32) -> Integer {
        Integer::from(u64::from(value))
    }
}

impl From<u16> for Integer {
    ghost from_gives = { λ number integer. integer ≡ pos number };

    fn from(value: u16) -> Integer {
        Integer::from(u64::from(value))
    }
}

impl From<u8> for Integer {
    ghost from_gives = { λ number integer. integer ≡ pos number };

    fn from(value: u8) -> Integer {
        Integer::from(u64::from(value))
    }
}

/// Formats the value in decimal. A negative one begins with `-`.
impl fmt::Display for Integer {
    ghost output = { λ integer. Some (signed_decimal integer) };

    ghost styled_output = { λ integer spec. Some (styled_signed_decimal spec integer) };

    fn fmt<W: fmt::Write>(&self, f: &mut fmt::Formatter<W>) -> fmt::Result {
        fmt::Display::fmt(&self.widened(), f)
    }
}

/// Formats the value in decimal.
impl fmt::Debug for Integer {
    ghost debug_output = { λ integer. Some (signed_decimal integer) };

    fn fmt<W: fmt::Write>(&self, f: &mut fmt::Formatter<W>) -> fmt::Result {
        fmt::Debug::fmt(&self.widened(), f)
    }
}

/// The error of parsing a string that spells no [`Integer`].
#[derive(Clone, Copy, Debug, PartialEq, Eq)]
pub struct InvalidInteger;

impl fmt::Display for InvalidInteger {
    ghost output = { λ _. Some (codes "String was not a valid plist integer") };

    fn fmt<W: fmt::Write>(&self, f: &mut fmt::Formatter<W>) -> fmt::Result {
        f.write_str("String was not a valid plist integer")
    }
}

impl std::error::Error for InvalidInteger {}

// Parses a number with an optional plus sign. Returns `None` if the string isn't one, or if the
// number doesn't fit into a `u64`.
#[tactic(auto, using(crate::proofs::Numerals::unsigned_ok, crate::proofs::Numerals::unsigned_err))]
fn unsigned(text: &str, radix: u32) -> Option<Integer>
    requires radix { (2 ≤ radix) × (radix ≤ 36) }
    ensures { result ≡ unsigned_of_text radix text.now }
{
    let number = u64::from_str_radix(text, radix).ok()?;
    Some(Integer::from(number))
}

// Returns the string without its leading `0x`s.
fn strip_prefixes(text: &str) -> &str
    ensures { result.now ≡ without_prefixes text.now }
{
    let mut rest = text;
    'prefixes: while let Some(more) = rest.strip_prefix("0x") {
        rest = more;
    }
    rest
}

/// Parses as [`Integer::from_str`] does, so that `text.parse::<Integer>()` can be called.
impl FromStr for Integer {
    type Err = InvalidInteger;

    ghost from_str_gives = { λ text result. SpellsInteger text result };

    fn from_str(text: &str) -> Result<Integer, InvalidInteger> {
        Integer::from_str(text)
    }
}
