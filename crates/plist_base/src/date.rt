//! Dates, which are stored as the eight bytes of a real.

ghost use Rattle.std.specs.Prelude.{◌≡◌, ℕ, ◌^◌, ◌<◌, ◌≤◌, ◌↔◌, ◌==◌, false, true, pos, ℤ, ◌*ℤ◌, ◌-ℤ◌, Some, None, IfNone, IsSome, IfSome, IsErr, IfOk, IfErr, List, MatchOption};
ghost use Rattle.plist_base.specs.Date.{IsDate, IsSecondOf, IsSecondOfDate, IsWhole, date_bytes, date_of_bytes, has_fraction, if_second_of_date, is_second_of_date, parts_in_second, plist_epoch, real_bits, real_exponent, real_mantissa, real_parts, real_scale, second_of_bits, second_of_bytes, whole_seconds, HasNoSecond, IsExactly, IsOnlyAt, IsWholeAt, whole_bits};

use crate::ErrorKind;
use std::marker::Model;

// The Unix second of 2001-01-01T00:00:00Z, from which the seconds of property lists count.
const PLIST_EPOCH: i64 = 978_307_200;

/// A point in time whose second is from -9999-01-01T00:00:00Z to 9999-12-31T23:59:59Z. It is stored
/// as the eight bytes of a real: the seconds since 2001-01-01T00:00:00Z, with a fraction.
///
/// Two dates are equal if their bytes are. So dates in the same second differ if their fractions
/// do.
#[derive(Clone, Copy, Debug, PartialEq, Eq, Hash)]
pub struct Date {
    bytes: [u8; 8],
}

impl Model for Date {
    ghost Value = { List ℕ };

    ghost view = { λ a. a.bytes };

    ghost invariant = { λ a. IsDate a.bytes };

    ghost inverse = { λ bytes. record { bytes = bytes } };
}

impl Date {
    /// Makes a date from the big-endian bytes of a `binary64`, which counts the seconds since
    /// 2001-01-01T00:00:00Z.
    ///
    /// The fraction is kept. A negative zero becomes a positive zero.
    ///
    /// # Errors
    ///
    /// [`ErrorKind::OverflowOrNanDate`] if the real is infinite or a NaN, or its second is outside
    /// the range of dates.
    #[tactic(auto, using(crate::proofs::DateRounding::no_seconds))]
    pub fn from_plist_real(bytes: [u8; 8]) -> Result<Date, ErrorKind>
        // Result.
        ensures date { IfOk result (λ date. date_of_bytes bytes ≡ Some date) }
        ensures bytes { IfOk result (λ date. date ≡ date_bytes bytes) }
        // Errors.
        ensures refused { IsErr result ↔ (date_of_bytes bytes ≡ None) }
        ensures error { IfErr result (λ error. error ≡ ErrorKind.OverflowOrNanDate) }
        ensures no_second { IfErr result (λ _. HasNoSecond bytes) }
    {
        let bits = u64::from_be_bytes(bytes);
        if second_of_bits(bits).is_none() {
            return Err(ErrorKind::OverflowOrNanDate);
        }
        if bits == 1 << 63 {
            return Ok(Date { bytes: [0; 8] });
        }
        Ok(Date { bytes })
    }

    // Makes a date from the bytes that one stores.
    #[inline(always)]
    pub(crate) fn from_valid(bytes: [u8; 8]) -> Date
        requires { date_of_bytes bytes ≡ Some bytes }
        ensures { result ≡ bytes }
    {
        Date { bytes }
    }

    /// Returns the big-endian bytes of the date's `binary64`.
    pub fn to_plist_real(&self) -> [u8; 8]
        ensures bytes { result ≡ self.now }
        ensures back { date_of_bytes result ≡ Some self.now }
        ensures date { IsDate self.now }
    {
        self.bytes
    }

    /// Converts a second since 2001-01-01T00:00:00Z to a date without a fraction. Returns `None` if
    /// the second is outside the range of dates.
    pub fn from_plist_secs(second: i64) -> Option<Date>
        // Result.
        ensures second { IfSome result (λ date. second_of_bytes date ≡ Some second) }
        ensures date { IfSome result (λ date. IsDate date) }
        ensures whole { IfSome result (λ date. IsWhole date) }
        ensures exact { IfSome result (IsExactly second) }
        // Errors.
        ensures in_range { IsSome result ↔ IsSecondOfDate second }
        // Laws.
        ensures only { IfSome result (IsOnlyAt second) }
    {
        let bits = bits_of_second(second)?;
        let bytes = bits.to_be_bytes();
        Some(Date { bytes })
    }

    /// Converts a Unix second to a date without a fraction. Returns `None` if the second is outside
    /// the range of dates.
    ///
    /// # Examples
    ///
    /// ```rust
    /// let value = Value::Date(Date::from_unix_secs(0)?);
    /// value.as_date()?.to_xml_format(alloc).ok()
    /// ```
    pub fn from_unix_secs(second: i64) -> Option<Date>
        // Result.
        ensures second { IfSome result (λ d. second_of_bytes d ≡ Some (second -ℤ plist_epoch)) }
        ensures date { IfSome result (λ date. IsDate date) }
        ensures whole { IfSome result (λ date. IsWhole date) }
        ensures exact { IfSome result (IsExactly (second -ℤ plist_epoch)) }
        // Errors.
        ensures in_range { IsSome result ↔ IsSecondOfDate (second -ℤ plist_epoch) }
        // Laws.
        ensures only { IfSome result (IsOnlyAt (second -ℤ plist_epoch)) }
    {
        Date::from_plist_secs(second.checked_sub(PLIST_EPOCH)?)
    }

    /// Returns this date in seconds since 2001-01-01T00:00:00Z, rounded down.
    pub fn plist_secs(&self) -> i64
        ensures second { second_of_bytes self.now ≡ Some result }
        ensures greatest { IsSecondOf result (real_bits self.now) }
        ensures in_range { IsSecondOfDate result }
        ensures date { IsDate self.now }
    {
        second_of_bits(u64::from_be_bytes(self.bytes)).unwrap()
    }

    /// Returns this date in Unix seconds, rounded down.
    #[tactic(auto, using(crate::proofs::DateRounding::unix_and_back))]
    pub fn unix_secs(&self) -> i64
        ensures second { second_of_bytes self.now ≡ Some (result -ℤ plist_epoch) }
        ensures greatest { IsSecondOf (result -ℤ plist_epoch) (real_bits self.now) }
        ensures date { IsDate self.now }
    {
        self.plist_secs() + PLIST_EPOCH
    }

    /// Returns the start of the second in which this date lies, which is the date without its
    /// fraction. A date without a fraction is returned unchanged.
    ///
    /// # Examples
    ///
    /// ```rust
    /// let second = value.as_date()?.start_of_second();
    /// second.to_xml_format(alloc).ok()
    /// ```
    pub fn start_of_second(self) -> Date
        // Result.
        ensures second { second_of_bytes result ≡ second_of_bytes self }
        ensures date { IsDate result }
        ensures whole { IsWhole result }
        // Laws.
        ensures unchanged { IsWhole self → result ≡ self }
    {
        Date::from_plist_secs(self.plist_secs()).unwrap()
    }

    /// Returns `true` if this date lies between two seconds.
    #[tactic(auto, using(crate::proofs::DateShifts::fraction_far))]
    pub fn has_fraction(&self) -> bool
        ensures { result ≡ has_fraction (real_bits self.now) }
    {
        // An absolute value of 2^52 or more has no fraction.
        match absolute_seconds(u64::from_be_bytes(self.bytes)) {
            None => false,
            Some((_, has_fraction)) => has_fraction,
        }
    }
}

// Returns the whole seconds in the absolute value of a real, and whether it has a fraction as well.
// Returns `None` if the absolute value is 2^52 or more, or if the real is infinite or a NaN.
#[tactic(auto, unfolding(crate::specs::Date::real_exponent))]
fn absolute_seconds(bits: u64) -> Option<(u64, bool)>
    ensures far { IfNone result (1075 ≤ real_exponent bits) }
    ensures near { IfSome result (λ found. (real_exponent bits < 1075)
        × (found.0 ≡ whole_seconds (real_mantissa bits) (real_scale bits))
        × (found.1 ≡ has_fraction bits) × (found.0 < 2 ^ 52)) }
{
    let exponent = (bits >> 52) % 0x800;
    if exponent >= 1075 {
        return None;
    }
    let fraction = bits % (1 << 52);
    let mantissa = if exponent == 0 {
        fraction
    } else {
        (1 << 52) + fraction
    };
    // A mantissa has 53 bits, so a shift by 63 removes all of them.
    let shift = (1075 - exponent.max(1)).min(63);
    Some((mantissa >> shift, mantissa % (1 << shift) != 0))
}

// Returns the second, or `None` if it is outside the range of dates.
fn checked_second(second: i64) -> Option<i64>
    ensures { result ≡ if_second_of_date second }
{
    (-378_683_424_000..=252_423_993_599)
        .contains(&second)
        .then_some(second)
}

// Returns the value rounded down to a second, or `None` if that isn't in the range of dates.
#[tactic(auto, using(crate::proofs::DateShifts::second_far))]
fn second_of_bits(bits: u64) -> Option<i64>
    ensures { result ≡ second_of_bits bits }
{
    let (whole, has_fraction) = absolute_seconds(bits)?;
    if bits < 1 << 63 {
        return checked_second(whole as i64);
    }
    checked_second(-((whole + u64::from(has_fraction)) as i64))
}

#[tactic(auto, using(crate::proofs::DateEncoding::encoded, crate::proofs::DateEncoding::sum_is))]
fn bits_of_whole(number: u64) -> u64
    requires { number < 2 ^ 53 }
    ensures is { result ≡ whole_bits number }
    ensures small { result < 2 ^ 63 }
{
    if number == 0 {
        return 0;
    }
    let zeros = u64::from(number.leading_zeros());
    // The highest bit of the shifted mantissa adds one to the exponent.
    (1085 - zeros) * 4_503_599_627_370_496 + (number << (zeros - 11))
}

#[tactic(auto, using(crate::proofs::DateEncoding::seconds_written))]
fn bits_of_second(second: i64) -> Option<u64>
    ensures in_range { MatchOption result (is_second_of_date second ≡ false)
        (λ bits. (is_second_of_date second ≡ true) × (bits == 2 ^ 63 ≡ false)) }
    ensures back { IfSome result (IsWholeAt second) }
    ensures exact { IfSome result (λ bits. real_parts bits ≡ (second *ℤ pos parts_in_second)) }
{
    checked_second(second)?;
    let bits = bits_of_whole(second.unsigned_abs());
    Some(if second < 0 { (1 << 63) + bits } else { bits })
}
