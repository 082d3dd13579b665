//! Proved callers of dates and their texts: each text is read back as its date, some reals aren't
//! dates, and some dates have no text.

ghost use Rattle.std.specs.Prelude.{◌≡◌, IfOk, None, Some, false, string_bytes};
ghost use Rattle.plist_base.specs.Date.{IsWhole};
ghost use Rattle.plist_base.specs.DateTexts.{HasTextYear, IsInUtc, IsRefused, second_of_text};
ghost use Rattle.plist_base.specs.Faults.{FractionalDate, InvalidDateString, YearOutOfRange};

use plist_base::{Date, Error, ErrorKind};
use std::alloc::Global;

/// Parses a text as a date, and returns the text of that date. This is `text` itself if `text` has
/// `T` at index 10 and `Z` at index 19.
///
/// # Errors
///
/// `InvalidDateString`, without an offset, if the text spells no date; otherwise the errors of
/// [`Date::to_xml_format`].
pub fn text_again(alloc: Global, text: &str) -> Result<String, Error>
    ensures same { IfOk result (λ again. IsInUtc text.now → string_bytes again ≡ text.now) }
    ensures refused { second_of_text text.now ≡ None → IsRefused InvalidDateString result }
{
    let date = Date::from_xml_format(text)?;
    date.to_xml_format(alloc)
}

/// Converts a date to its text, and parses the text again. The result is equal to `date`.
///
/// # Errors
///
/// The errors are those of [`Date::to_xml_format`]: the date has no text, or an allocation fails.
pub fn date_again(alloc: Global, date: &Date) -> Result<Date, Error>
    ensures same { IfOk result (λ again. again ≡ date.now) }
{
    let text = date.to_xml_format(alloc)?;
    match Date::from_xml_format(text.as_str()) {
        Err(_) => unreachable!(),
        Ok(again) => Ok(again),
    }
}

/// Returns the error of printing the date half a second after 2001-01-01T00:00:00Z.
pub fn half_second(alloc: Global) -> Result<String, Error>
    ensures { IsRefused FractionalDate result }
{
    match Date::from_plist_real([0x3f, 0xe0, 0, 0, 0, 0, 0, 0]) {
        Ok(date) => date.to_xml_format(alloc),
        Err(kind) => Err(kind.without_position()),
    }
}

/// Returns the error of printing a date with a year outside 0 to 9999.
pub fn other_year(alloc: Global, date: &Date) -> Result<String, Error>
    requires whole { IsWhole date.now }
    requires year { ¬ (HasTextYear date.now) }
    ensures { IsRefused YearOutOfRange result }
{
    date.to_xml_format(alloc)
}

/// Returns `true` if the start of a date's second lies in another second than the date.
pub fn start_changes_second(date: Date) -> bool
    ensures { result ≡ false }
{
    date.start_of_second().plist_secs() != date.plist_secs()
}

/// Returns `true` if the start of a date's second has a fraction.
pub fn start_keeps_fraction(date: Date) -> bool
    ensures { result ≡ false }
{
    date.start_of_second().has_fraction()
}

/// Returns `true` if a date without a fraction differs from the start of its second.
pub fn start_changes_whole(date: Date) -> bool
    requires whole { IsWhole date }
    ensures { result ≡ false }
{
    date.start_of_second() != date
}

/// Returns the error of making a date of an infinite real.
pub fn infinite_date() -> Option<ErrorKind>
    ensures { result ≡ Some ErrorKind.OverflowOrNanDate }
{
    Date::from_plist_real([0x7f, 0xf0, 0, 0, 0, 0, 0, 0]).err()
}
