//! Takes quoted strings.

ghost use Rattle.std.specs.Prelude.{◌≡◌, ◌++◌, None, Some, IfOk, OnOk, vec_items};
ghost use Rattle.plist_base.specs.Events.{event_of};
ghost use Rattle.plist_ascii.specs.Texts.{quoted, quoted_token};
ghost use Rattle.plist_ascii.specs.Ascii.{IsTextEvent};
ghost use Rattle.plist_ascii.specs.inner.Inputs.{CountsFailed, GivesBy, escaped_bytes};

use crate::byte_reader::ByteReader;
use crate::fault::TokenFault;
use crate::input::Input;
use crate::stop::Stop;
use crate::text::quoted_event;
use crate::unescape::Escaped;
use plist_base::OwnedEvent;
use std::alloc::{AllocError, Global};

// Appends the bytes that an escape denotes.
fn push_escaped(text: &mut Vec<u8>, piece: Escaped) -> Result<(), AllocError>
    ensures value { OnOk result (text.new.items ≡ text.old.items ++ escaped_bytes piece) }
{
    match piece {
        Escaped::Byte(byte) => {
            text.push(byte)?;
            Ok(())
        }
        Escaped::Char(c) => {
            let mut buffer = [0u8; 4];
            let bytes = c.encode_utf8(&mut buffer);
            text.extend_from_slice(bytes.as_bytes())?;
            Ok(())
        }
    }
}

impl<R: ByteReader> Input<R> {
    // Takes a string up to and including its closing quote, and returns the bytes that it stands
    // for.
    fn quoted(&mut self, alloc: Global, quote: u8) -> Result<Vec<u8>, TokenFault>
        ensures answers { GivesBy R.remaining vec_items (quoted quote) self.old result self.new }
        ensures peeked { IfOk result (λ _. self.new.peeked ≡ None) }
        ensures failures { CountsFailed R.failures self.old result self.new }
    {
        let mut text = Vec::new(alloc);
        'parts: loop {
            self.take_run(Stop::Quoted(quote), &mut text)?;
            if self.expect_byte()? == quote {
                return Ok(text);
            }
            let piece = self.escape()?;
            push_escaped(&mut text, piece)?;
        }
    }

    /// Takes the rest of a quoted string after its opening quote, and returns its event. No byte
    /// after the closing quote is looked at.
    pub fn quoted_text(&mut self, alloc: Global, quote: u8) -> Result<OwnedEvent, TokenFault>
        ensures answers { GivesBy R.remaining (λ event. Some (event_of event)) (quoted_token quote)
            self.old result self.new }
        ensures kinds { IfOk result (λ event. IsTextEvent (event_of event)) }
        ensures peeked { IfOk result (λ _. self.new.peeked ≡ None) }
        ensures failures { CountsFailed R.failures self.old result self.new }
    {
        let text = self.quoted(alloc, quote)?;
        quoted_event(text)
    }
}
