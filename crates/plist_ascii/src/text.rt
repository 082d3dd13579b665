//! Bare strings, and the meaning of strings.

ghost use Rattle.std.specs.Prelude.{◌≡◌, ◌++◌, ◌||◌, ◌≤◌, None, Some, false, true, IfOk, IfErr, OnOk, string_bytes};
ghost use Rattle.plist_base.specs.IntegerText.{integer_of_text};
ghost use Rattle.plist_base.specs.Events.{event_of};
ghost use Rattle.plist_ascii.specs.TokenPrefixes.{is_one_of};
ghost use Rattle.plist_ascii.specs.Texts.{bare, bare_event, quoted_event};
ghost use Rattle.plist_ascii.specs.Ascii.{IsTextEvent};
ghost use Rattle.plist_ascii.specs.Unread.{stops};
ghost use Rattle.plist_ascii.specs.inner.Inputs.{Means, kind_in_bytes, CountsFailed, GivesBy, TakesRun};
ghost use Rattle.std.specs.Char.{is_digit};
ghost use Rattle.std.specs.Str.{is_utf8};

use crate::byte_reader::ByteReader;
use crate::fault::TokenFault;
use crate::input::Input;
use crate::stop::Stop;
use plist_base::{Event, Integer, OwnedEvent};
use std::alloc::Global;
use std::borrow::CowStr;

// Returns the string of these bytes, or `InvalidUtf8` if they aren't UTF-8.
fn text_of(bytes: Vec<u8>) -> Result<String, TokenFault>
    ensures value { IfOk result (λ text. (is_utf8 bytes.items ≡ true)
        × (string_bytes text ≡ bytes.items)) }
    ensures fault { IfErr result (λ f. (is_utf8 bytes.items ≡ false)
        × (f ≡ TokenFault.InvalidUtf8)) }
{
    match String::from_utf8(bytes) {
        Ok(text) => Ok(text),
        Err(_) => Err(TokenFault::InvalidUtf8),
    }
}

// Returns whether this byte is a sign or a decimal digit.
fn begins_number(byte: u8) -> bool
    ensures { result ≡ is_one_of "+-" byte || is_digit byte 10 }
{
    matches!(byte, b'+' | b'-' | b'0'..=b'9')
}

// Returns `false` only if these bytes don't spell an integer. The first byte decides this for most
// strings.
#[tactic(auto, using(crate::proofs::Numbers::no_number))]
fn may_spell_number(bytes: &[u8]) -> bool
    ensures { result ≡ false → integer_of_text bytes.now ≡ None }
{
    if bytes.is_empty() {
        return false;
    }
    begins_number(bytes[0])
}

/// Returns `false` only if the string doesn't spell an integer.
#[inline(always)]
pub fn may_be_number(text: &str) -> bool
    ensures { result ≡ false → integer_of_text text.now ≡ None }
{
    if !may_spell_number(text.as_bytes()) {
        return false;
    }
    Integer::from_str(text).is_ok()
}

/// Returns the event of a bare string with the given bytes, or `InvalidUtf8` if they aren't UTF-8.
#[tactic(auto, unfolding(crate::specs::Texts::bare_event))]
pub fn bare_event(bytes: Vec<u8>) -> Result<OwnedEvent, TokenFault>
    ensures { Means result (bare_event bytes.items) }
{
    let text = text_of(bytes)?;
    if !may_spell_number(text.as_bytes()) {
        return Ok(Event::String(CowStr::Owned(text)));
    }
    match Integer::from_str(text.as_str()) {
        Ok(number) => Ok(Event::Integer(number)),
        Err(_) => Ok(Event::String(CowStr::Owned(text))),
    }
}

/// Returns the event of a quoted string with the given bytes, or `InvalidUtf8` if they aren't
/// UTF-8.
#[tactic(auto, unfolding(crate::specs::Texts::quoted_event))]
pub fn quoted_event(bytes: Vec<u8>) -> Result<OwnedEvent, TokenFault>
    ensures { Means result (quoted_event bytes.items) }
{
    let text = text_of(bytes)?;
    Ok(Event::String(CowStr::Owned(text)))
}

impl<R: ByteReader> Input<R> {
    /// Takes the bytes before the next stop, and appends them to `text`. An error is `Io` or
    /// `OutOfMemory`.
    #[inline(always)]
    pub fn take_run(&mut self, stop: Stop, text: &mut Vec<u8>) -> Result<(), TokenFault>
        // Result.
        ensures value { OnOk result (TakesRun R.remaining stop
            (λ run. text.new.items ≡ text.old.items ++ run) self.old self.new) }
        // Errors.
        ensures fault { IfErr result (λ f. kind_in_bytes f ≡ None) }
        // State afterwards.
        ensures place { self.old.taken ≤ self.new.taken }
        ensures failures { CountsFailed R.failures self.old result self.new }
    {
        'run: loop {
            match self.peek()? {
                Some(_byte) => {
                    if !self.take_part(stop, &[], text)? {
                        return Ok(());
                    }
                }
                None => return Ok(()),
            }
        }
    }

    /// Takes the rest of a bare string after its first byte, and returns its event.
    pub fn bare(&mut self, alloc: Global, stop: Stop, first: u8) -> Result<OwnedEvent, TokenFault>
        ensures answers { GivesBy R.remaining (λ event. Some (event_of event))
            (bare (stops stop) first) self.old result self.new }
        ensures kinds { IfOk result (λ event. IsTextEvent (event_of event)) }
        ensures failures { CountsFailed R.failures self.old result self.new }
    {
        let mut text = Vec::new(alloc);
        if self.take_part(stop, &[first], &mut text)? {
            self.take_run(stop, &mut text)?;
        }
        bare_event(text)
    }
}
