//! Finds strings that can be borrowed from the bytes at hand.

ghost use Rattle.std.specs.Prelude.{◌<◌, ◌≤◌, ℕ, Bool, length, IfSome};
ghost use Rattle.plist_ascii.specs.Unread.{IfKnown, stops, unread};
ghost use Rattle.plist_ascii.specs.inner.Inputs.{BeginWithText, LeadsToText, hand};

use crate::byte_reader::ByteReader;
use crate::input::Input;
use crate::stop::{Stop, run_length};
use crate::text::may_be_number;
use crate::token::{Lead, lead_of};

/// A string among the bytes at hand.
#[derive(Clone, Copy)]
pub struct BorrowedText<'a> {
    /// The number of bytes up to the end of the string, including the blanks before it.
    pub count: usize,
    /// The string.
    pub text: &'a str,
}

// Returns the bare string with which these bytes begin, unless it begins with a slash, may continue
// after the last byte, isn't UTF-8, or spells an integer.
#[inline(always)]
fn bare_front(stop: Stop, bytes: &[u8]) -> Option<BorrowedText<'_>>
    ensures text { IfSome result (λ borrowed. BeginWithText (stops stop) bytes.now borrowed.count
        borrowed.text.now) }
    ensures within { IfSome result (λ borrowed. borrowed.count ≤ length bytes.now) }
{
    let (first, rest) = bytes.split_first()?;
    let Lead::Bare = lead_of(*first) else {
        return None;
    };
    let count = run_length(stop, rest);
    if count == rest.len() {
        return None;
    }
    let length = 1 + count;
    match str::from_utf8(&bytes[..length]) {
        Ok(text) => {
            if may_be_number(text) {
                return None;
            }
            Some(BorrowedText {
                count: length,
                text,
            })
        }
        Err(_) => None,
    }
}

// Returns the quoted string with which these bytes begin, unless it has an escape, doesn't end
// among them, or isn't UTF-8.
#[inline(always)]
fn quoted_front(bytes: &[u8]) -> Option<BorrowedText<'_>>
    ensures text { IfSome result (λ borrowed. (ends : ℕ → Bool)
        → BeginWithText ends bytes.now borrowed.count borrowed.text.now) }
    ensures within { IfSome result (λ borrowed. borrowed.count ≤ length bytes.now) }
{
    let (first, rest) = bytes.split_first()?;
    let Lead::Quote = lead_of(*first) else {
        return None;
    };
    let count = run_length(Stop::Quoted(*first), rest);
    let end = rest.get(count)?;
    if *end != *first {
        return None;
    }
    match str::from_utf8(&rest[..count]) {
        Ok(text) => Some(BorrowedText {
            count: count + 2,
            text,
        }),
        Err(_) => None,
    }
}

// Returns the string with which these bytes begin, if it can be borrowed from them.
#[inline(always)]
fn front_text(stop: Stop, bytes: &[u8]) -> Option<BorrowedText<'_>>
    ensures text { IfSome result (λ borrowed. BeginWithText (stops stop) bytes.now borrowed.count
        borrowed.text.now) }
    ensures within { IfSome result (λ borrowed. borrowed.count ≤ length bytes.now) }
{
    match bare_front(stop, bytes) {
        Some(borrowed) => Some(borrowed),
        None => quoted_front(bytes),
    }
}

impl<R: ByteReader> Input<R> {
    /// Returns the string that is next after blanks, if it is a quoted string without escapes, or a
    /// bare string that spells no integer and doesn't begin with a slash. Returns `None` if it
    /// isn't UTF-8, or if the buffer doesn't have all of it, with the byte that ends it. No byte is
    /// read or taken.
    #[inline(always)]
    pub fn borrowed_text(&self, stop: Stop) -> Option<BorrowedText<'_>>
        ensures text { IfSome result (λ borrowed. IfKnown (unread R.remaining self.now)
            (λ bytes. LeadsToText (stops stop) bytes borrowed.count borrowed.text.now)) }
        ensures within { IfSome result (λ borrowed. borrowed.count
            ≤ length (hand R.window self.now)) }
        ensures some { IfSome result (λ borrowed. 0 < borrowed.count) }
    {
        let bytes = self.at_hand();
        let blanks = run_length(Stop::Lead, bytes);
        let front = front_text(stop, &bytes[blanks..])?;
        Some(BorrowedText {
            count: blanks + front.count,
            text: front.text,
        })
    }
}
