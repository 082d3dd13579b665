//! Takes tokens. The first byte of a token decides its kind.

ghost use Rattle.std.specs.Prelude.{◌≡◌, None, IfErr, IfOk};
ghost use Rattle.plist_base.specs.Events.{event_of};
ghost use Rattle.std.specs.Option.{option_map};
ghost use Rattle.plist_ascii.specs.Texts.{slash};
ghost use Rattle.plist_ascii.specs.Ascii.{lead_of, is_blank, token_by, IsTextEvent, IsAsciiEvent, IfBracket};
ghost use Rattle.plist_ascii.specs.Unread.{stops};
ghost use Rattle.plist_ascii.specs.inner.Inputs.{CountsFailed, IfCame, GivesBy, AllocatesForText};

use crate::byte_reader::ByteReader;
use crate::fault::TokenFault;
use crate::input::Input;
use crate::stop::Stop;
use plist_base::{Event, OwnedEvent};
use std::alloc::Global;

/// What the first byte of a token begins.
#[derive(Clone, Copy)]
pub enum Lead {
    /// An array.
    ArrayStart,
    /// A dictionary.
    DictionaryStart,
    /// The end of an array or a dictionary.
    End,
    /// Nothing: a separator or white space.
    Blank,
    /// A quoted string.
    Quote,
    /// A comment, or a bare string.
    Slash,
    /// A bare string.
    Bare,
}

/// Returns what the byte begins.
#[inline(always)]
pub fn lead_of(byte: u8) -> Lead
    ensures { result ≡ lead_of byte }
{
    match byte {
        b',' | b';' | b'=' | b' ' | b'\r' | b'\t' | b'\n' => Lead::Blank,
        b'(' => Lead::ArrayStart,
        b'{' => Lead::DictionaryStart,
        b')' | b'}' => Lead::End,
        b'\'' | b'"' => Lead::Quote,
        b'/' => Lead::Slash,
        _ => Lead::Bare,
    }
}

/// Returns `true` if the byte is a separator (`,`, `;` or `=`) or white space (space, tab, CR or
/// LF).
#[inline(always)]
pub fn is_blank(byte: u8) -> bool
    ensures { result ≡ is_blank byte }
{
    matches!(byte, b',' | b';' | b'=' | b' ' | b'\r' | b'\t' | b'\n')
}

impl<R: ByteReader> Input<R> {
    // Takes the rest of the token that a slash begins, and returns its event, or `None` for a
    // comment. The LF that ends a line comment isn't taken.
    fn slash(&mut self, alloc: Global, stop: Stop) -> Result<Option<OwnedEvent>, TokenFault>
        // Result.
        ensures answers { GivesBy R.remaining (option_map event_of) (slash (stops stop)) self.old
            result self.new }
        ensures kinds { IfCame result (λ event. IsTextEvent (event_of event)) }
        // Errors.
        ensures memory { IfErr result (AllocatesForText R.remaining (slash (stops stop)) self.old) }
        // State afterwards.
        ensures failures { CountsFailed R.failures self.old result self.new }
    {
        match self.peek()? {
            Some(b'/') => {
                self.take_first(1);
                self.skip_run(Stop::LineEnd)?;
                Ok(None)
            }
            Some(b'*') => {
                self.take_first(1);
                self.block_comment()?;
                Ok(None)
            }
            Some(_byte) => {
                let event = self.bare(alloc, stop, b'/')?;
                Ok(Some(event))
            }
            None => Err(TokenFault::IncompleteComment),
        }
    }

    /// Takes the rest of the token that begins with `byte`, which has been taken, and returns its
    /// event. A separator, white space and a comment have no event, and `None` is returned.
    #[tactic(auto, using(crate::proofs::Texts::text_tokens))]
    pub fn token_by(
        &mut self,
        alloc: Global,
        stop: Stop,
        byte: u8,
    ) -> Result<Option<OwnedEvent>, TokenFault>
        // Result.
        ensures answers { GivesBy R.remaining (option_map event_of)
            (token_by (stops stop) (lead_of byte) byte) self.old result self.new }
        ensures kinds { IfCame result (λ event. IsAsciiEvent (event_of event)) }
        // Errors.
        ensures memory { IfErr result (AllocatesForText R.remaining
            (token_by (stops stop) (lead_of byte) byte) self.old) }
        // State afterwards.
        ensures brackets { self.old.peeked ≡ None → IfCame result (λ event.
            IfBracket (event_of event) (self.new.peeked ≡ None)) }
        ensures quotes { lead_of byte ≡ Lead.Quote → IfOk result (λ _. self.new.peeked ≡ None) }
        ensures failures { CountsFailed R.failures self.old result self.new }
    {
        match lead_of(byte) {
            Lead::ArrayStart => Ok(Some(Event::StartArray(None))),
            Lead::DictionaryStart => Ok(Some(Event::StartDictionary(None))),
            Lead::End => Ok(Some(Event::EndCollection)),
            Lead::Blank => Ok(None),
            Lead::Quote => {
                let event = self.quoted_text(alloc, byte)?;
                Ok(Some(event))
            }
            Lead::Slash => self.slash(alloc, stop),
            Lead::Bare => {
                let event = self.bare(alloc, stop, byte)?;
                Ok(Some(event))
            }
        }
    }
}
