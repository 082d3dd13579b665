//! Parses and prints dates.

ghost use Rattle.std.specs.Prelude.{◌≡◌, ◌↔◌, ◌+◌, ◌<◌, ◌≤◌, ℕ, List, length, true, codes, Some, None, Ok, IsErr, IsSome, IsTrue, IfOk, IfSome, MatchOption, string_bytes};
ghost use Rattle.jiff_core.specs.Calendar.{IsEpochDay, IsWithin};
ghost use Rattle.plist_base.specs.Outcomes.{OnlyMemory};
ghost use Rattle.plist_base.specs.Date.{IsWhole, has_fraction, real_bits, second_of_bytes};
ghost use Rattle.plist_base.specs.DateTexts.{HasTextYear, IsDateText, IsInUtc, IsRefused, second_of_text, PrintsOnly};
ghost use Rattle.plist_base.specs.Faults.{FractionalDate, InvalidDateString, YearOutOfRange, fault_without_offset, fault_of};
ghost use Rattle.plist_base.specs.UnixSeconds as spec;
ghost use Rattle.plist_base.specs.UnixSeconds.{HasFourDigitYear, IsTextOfSecond, utc_text};

use crate::{Date, Error, ErrorKind};
use jiff_core::civil;
use std::alloc::Global;
use std::fmt;

/// The error of parsing a string that isn't a date.
#[derive(Clone, Copy, Debug, PartialEq, Eq)]
pub struct InvalidXmlDate;

impl Date {
    /// Parses a date, such as `2001-01-01T00:00:00Z`.
    ///
    /// The form is a year of four digits and `-MM-DD`, then `T`, `t` or a space, then `HH:MM:SS`,
    /// and then `Z`, `z` or a sign with `HH:MM`. Hours are from 00 to 23, and minutes and seconds
    /// from 00 to 59. Fractions and the second 60 aren't allowed.
    ///
    /// # Errors
    ///
    /// [`InvalidXmlDate`] if and only if the string doesn't have this form, the calendar doesn't
    /// have the day, or the date in UTC is outside the range of dates.
    ///
    /// # Examples
    ///
    /// ```rust
    /// let day = Date::from_xml_format("2001-01-02T00:00:00Z").ok()?;
    /// Some(day.plist_secs())
    /// ```
    #[tactic(auto, using(crate::proofs::DateRounding::parsed_texts))]
    pub fn from_xml_format(text: &str) -> Result<Date, InvalidXmlDate>
        // Result.
        ensures second { IfOk result (λ date. second_of_bytes date ≡ second_of_text text.now) }
        ensures whole { IfOk result (λ date. IsWhole date) }
        // Errors.
        ensures refused { IsErr result ↔ (second_of_text text.now ≡ None) }
        // Laws.
        ensures back { (date : List ℕ) → IsDateText date text.now → result ≡ Ok date }
        ensures prints { IfOk result (λ date. IsInUtc text.now → IsDateText date text.now) }
    {
        let Some(second) = unix_second_of_text(text) else {
            return Err(InvalidXmlDate);
        };
        Date::from_unix_secs(second).ok_or(InvalidXmlDate)
    }

    /// Formats this date as `YYYY-MM-DDTHH:MM:SSZ`.
    ///
    /// # Errors
    ///
    /// [`ErrorKind::FractionalDate`] if this date lies between two seconds, else
    /// [`ErrorKind::YearOutOfRange`] if its year isn't from 0 to 9999, else
    /// [`ErrorKind::OutOfMemory`] if an allocation fails. No error has an offset.
    ///
    /// # Examples
    ///
    /// ```rust
    /// let value = Value::Date(Date::from_unix_secs(0)?);
    /// value.as_date()?.to_xml_format(alloc).ok()
    /// ```
    #[tactic(auto, using(crate::proofs::DateRounding::printed_texts))]
    pub fn to_xml_format(&self, alloc: Global) -> Result<String, Error>
        // Result.
        ensures text { IfOk result (λ text. IsDateText self.now (string_bytes text)) }
        // Errors.
        ensures fraction { has_fraction (real_bits self.now) ≡ true
            → IsRefused FractionalDate result }
        ensures year { IsWhole self.now → ¬ (HasTextYear self.now)
            → IsRefused YearOutOfRange result }
        ensures memory { IsWhole self.now → HasTextYear self.now → OnlyMemory result }
        // Laws.
        ensures only { (text : List ℕ) → IsDateText self.now text → PrintsOnly text result }
    {
        if self.has_fraction() {
            return Err(ErrorKind::FractionalDate.without_position());
        }
        match UtcSecond::from_unix_secs(self.unix_secs()) {
            None => Err(ErrorKind::YearOutOfRange.without_position()),
            Some(parts) => Ok(parts.to_string(alloc)?),
        }
    }
}

impl fmt::Display for InvalidXmlDate {
    ghost output = { λ _. Some (codes "String was not a valid XML plist date") };

    fn fmt<W: fmt::Write>(&self, f: &mut fmt::Formatter<W>) -> fmt::Result {
        f.write_str("String was not a valid XML plist date")
    }
}

impl std::error::Error for InvalidXmlDate {}

/// Converts to [`ErrorKind::InvalidDateString`], without an offset.
impl From<InvalidXmlDate> for Error {
    ghost from_gives = { λ _ e. fault_of e ≡ fault_without_offset InvalidDateString };

    fn from(_error: InvalidXmlDate) -> Error {
        ErrorKind::InvalidDateString.without_position()
    }
}

// Returns the number that the two digits at an offset spell, or `None` if one isn't a digit.
#[tactic(auto, unfolding(crate::specs::UnixSeconds::two_digits))]
fn two_digits_at(text: &[u8], place: usize) -> Option<u8>
    requires { place + 1 < length text.now }
    ensures is { result ≡ spec.two_digits_at text.now place }
    ensures small { IfSome result (λ n. n < 100) }
{
    let (tens, ones) = (text[place], text[place + 1]);
    if tens.is_ascii_digit() && ones.is_ascii_digit() {
        Some((tens - b'0') * 10 + (ones - b'0'))
    } else {
        None
    }
}

// Parses the `YYYY-MM-DD` at offset 0, and returns the number of days from 1970-01-01 to it, or
// `None` if the calendar doesn't have it.
#[tactic(auto, unfolding(crate::specs::UnixSeconds::day_number))]
fn day_in(text: &[u8]) -> Option<i32>
    requires { 10 ≤ length text.now }
    ensures is { result ≡ spec.day_in text.now }
    ensures bound { IfSome result (λ n. IsEpochDay n) }
{
    let century = two_digits_at(text, 0)?;
    let year = two_digits_at(text, 2)?;
    let month = two_digits_at(text, 5)?;
    let day = two_digits_at(text, 8)?;
    // A greater month or day might not fit into an `i8`, the type of the calendar's parameters.
    if month > 12 || day > 31 {
        return None;
    }
    let year = u16::from(century) * 100 + u16::from(year);
    let date = civil::Date::new(year as i16, month as i8, day as i8).ok()?;
    Some(date.to_unix_epoch_day())
}

// Parses the `HH:MM:SS` at offset 11, and returns the second of the day, or `None` if a part is out
// of range.
#[tactic(auto, unfolding(crate::specs::UnixSeconds::second_of_day))]
fn time_in(text: &[u8]) -> Option<u32>
    requires { 19 ≤ length text.now }
    ensures is { result ≡ spec.time_in text.now }
    ensures bound { IfSome result (λ n. n < 86400) }
{
    let hour = two_digits_at(text, 11)?;
    let minute = two_digits_at(text, 14)?;
    let second = two_digits_at(text, 17)?;
    (hour < 24 && minute < 60 && second < 60).then_some(
        u32::from(hour) * 3600 + u32::from(minute) * 60 + u32::from(second),
    )
}

// Returns whether the text is long enough and has the separators at their offsets.
fn has_separators(text: &[u8]) -> bool
    ensures is { result ≡ spec.has_separators text.now }
    ensures long { IsTrue result → 20 ≤ length text.now }
{
    text.len() >= 20
        && text[4] == b'-'
        && text[7] == b'-'
        && (text[10] == b'T' || text[10] == b't' || text[10] == b' ')
        && text[13] == b':'
        && text[16] == b':'
}

// Parses the zone at offset 19, which is `Z`, `z`, or a sign with `HH:MM`, and returns how many
// seconds it is ahead of UTC.
fn zone_in(text: &[u8]) -> Option<i32>
    requires { 20 ≤ length text.now }
    ensures is { result ≡ spec.zone_in text.now }
    ensures bound { IfSome result (λ n. IsWithin 86399 n) }
{
    if text.len() == 20 {
        return (text[19] == b'Z' || text[19] == b'z').then_some(0);
    }
    if text.len() != 25 || text[22] != b':' {
        return None;
    }
    let hours = two_digits_at(text, 20)?;
    let minutes = two_digits_at(text, 23)?;
    if hours >= 24 || minutes >= 60 {
        return None;
    }
    let seconds = i32::from(hours) * 3600 + i32::from(minutes) * 60;
    match text[19] {
        b'+' => Some(seconds),
        b'-' => Some(-seconds),
        _ => None,
    }
}

// Returns the Unix second that a string spells, or `None` if it isn't a date.
//
// The form is `YYYY-MM-DD`, then `T`, `t` or a space, then `HH:MM:SS`, and then `Z`, `z` or a sign
// with `HH:MM`, in the years 0 to 9999. The calendar must have the day. Hours are from 00 to 23,
// and minutes and seconds from 00 to 59, so the second 60 isn't allowed.
#[tactic(auto, unfolding(crate::specs::UnixSeconds::unix_second_of_text))]
fn unix_second_of_text(text: &str) -> Option<i64>
    ensures is { result ≡ spec.unix_second_of_text text.now }
{
    let text = text.as_bytes();
    if !has_separators(text) {
        return None;
    }
    let day = day_in(text)?;
    let time = time_in(text)?;
    let zone = zone_in(text)?;
    Some(i64::from(day) * 86_400 + i64::from(time) - i64::from(zone))
}

const SECONDS_A_DAY: i64 = 86_400;

// A second of the years 0 to 9999, in UTC.
#[derive(Clone, Copy)]
struct UtcSecond {
    century: u8,
    // The year within its century.
    year: u8,
    month: u8,
    day: u8,
    hour: u8,
    minute: u8,
    second: u8,
}

impl UtcSecond {
    // Returns the calendar parts of a Unix second, or `None` if its year isn't from 0 to 9999.
    #[tactic(auto, using(crate::proofs::OneDateText::years))]
    fn from_unix_secs(second: i64) -> Option<UtcSecond>
        ensures year { IsSome result ↔ HasFourDigitYear second }
        ensures text { IfSome result (λ parts. IsTextOfSecond second (utc_text parts)) }
        ensures only { (other : List ℕ) → IsTextOfSecond second other
            → MatchOption result ⊥ (λ parts. other ≡ utc_text parts) }
    {
        match civil::Date::from_unix_epoch_day(second.div_euclid(SECONDS_A_DAY)) {
            Ok(date) if date.year >= 0 => {
                let year = date.year.unsigned_abs();
                let second = second.rem_euclid(SECONDS_A_DAY).unsigned_abs() as u32;
                Some(UtcSecond {
                    century: (year / 100) as u8,
                    year: (year % 100) as u8,
                    month: date.month,
                    day: date.day,
                    hour: (second / 3600) as u8,
                    minute: (second / 60 % 60) as u8,
                    second: (second % 60) as u8,
                })
            }
            _ => None,
        }
    }
}

// Formats the second as `YYYY-MM-DDTHH:MM:SSZ`.
impl fmt::Display for UtcSecond {
    ghost output = { λ second. Some (utc_text second) };

    fn fmt<W: fmt::Write>(&self, f: &mut fmt::Formatter<W>) -> fmt::Result {
        write!(
            f,
            "{:02}{:02}-{:02}-{:02}T{:02}:{:02}:{:02}Z",
            self.century, self.year, self.month, self.day, self.hour, self.minute, self.second
        )
    }
}
