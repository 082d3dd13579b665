//! The reader of ASCII property lists.

ghost use Rattle.plist_ascii.specs.AsciiReader.{readable};

use crate::byte_reader::ByteReader;
use crate::dialect::Dialect;
use crate::input::Input;
use crate::stop::Stop;
use plist_base::{Error, EventVisitor, OwnedEvent};
use std::alloc::Global;
use std::borrow::CowStr;
use std::ops::ControlFlow;

/// Reads an ASCII property list as events, from its first byte on.
///
/// Brackets open and close collections, and quotes (`'` or `"`) and other bytes begin strings.
/// White space (space, tab, CR and LF), separators (`,`, `;` and `=`) and comments (`//` up to an
/// LF, and `/*` up to `*/`) are skipped. The nesting of collections isn't checked. A bare string
/// that spells an integer is yielded as an integer. The [`Dialect`] decides which bytes end a bare
/// string. The reader looks at one byte after an item only if that byte decides where the item
/// ends. At most 2^64 - 1 bytes are taken.
///
/// The offset of an error is the number of bytes taken; `OutOfMemory` has none.
///
/// `{ a = (1, 'b'); }` yields the start of a dictionary, `a`, the start of an array, the integer 1,
/// `b` and two ends. Starts have no length.
///
/// # Errors
///
/// `UnclosedString`, `IncompleteComment`, `InvalidUtf8AsciiStream`, `InvalidOctalString` and
/// `InvalidUtf16String` are errors in the bytes. After one of them, the reader continues with the
/// next byte that wasn't taken. The error is `Io` if a read fails, and `OutOfMemory` if an
/// allocation for a string fails. After one of these two, and after its last item, the reader
/// returns `None` on every call.
#[derive(Drop)]
pub struct AsciiReader<R> {
    input: Input<R>,
    alloc: Global,
    dialect: Dialect,
}

impl<R: ByteReader> AsciiReader<R> {
    ghost use Rattle.std.specs.Prelude.{◌≡◌, None};
    ghost use Rattle.std.specs.Option.{option_map};
    ghost use Rattle.plist_ascii.specs.Ascii.{OnlyBareTextsDiffer};
    ghost use Rattle.plist_ascii.specs.Unread.{readable_with};
    ghost use Rattle.plist_ascii.specs.AsciiReader.{untaken_bytes, dialect_of, device_of, peeked_byte, place_of, HasEndedAscii};

    /// Creates a reader of the lax dialect. Reading begins when the first item is requested.
    ///
    /// # Examples
    ///
    /// ```rust
    /// let mut reader: AsciiReader<R> = AsciiReader::new(alloc, inner);
    /// let _item: Option<Result<OwnedEvent, Error>> = reader.next();
    /// reader.into_inner()
    /// ```
    pub fn new(alloc: Global, inner: R) -> Self
        // Result.
        ensures bytes { untaken_bytes R.remaining result ≡ readable (R.remaining inner) }
        ensures inner { device_of result ≡ inner }
        ensures dialect { dialect_of result ≡ Dialect.Lax }
        ensures place { place_of result ≡ 0 }
        ensures peeked_byte { peeked_byte result ≡ None }
    {
        AsciiReader::with_dialect(alloc, inner, Dialect::Lax)
    }

    /// Creates a reader of the given dialect. Reading begins when the first item is requested.
    ///
    /// In the tight dialect `{a=b}` yields the start of a dictionary, `a`, `b` and an end.
    pub fn with_dialect(alloc: Global, inner: R, dialect: Dialect) -> Self
        // Result.
        ensures bytes { untaken_bytes R.remaining result ≡ readable (R.remaining inner) }
        ensures inner { device_of result ≡ inner }
        ensures dialect { dialect_of result ≡ dialect }
        ensures place { place_of result ≡ 0 }
        ensures peeked_byte { peeked_byte result ≡ None }
        // Laws.
        ensures alike { OnlyBareTextsDiffer }
    {
        AsciiReader {
            input: Input::new(inner),
            alloc,
            dialect,
        }
    }

    /// Returns the inner reader. Unless the reader has ended, at most one byte past the last item
    /// has been read from the inner one.
    ///
    /// If such a byte was read, it is lost. After a bracket or a quoted string, no such byte has
    /// been read.
    #[tactic(auto, unfolding(crate::specs::Unread::unread_of))]
    pub fn into_inner(self) -> R
        ensures bytes { ¬ (HasEndedAscii self) → untaken_bytes R.remaining self
            ≡ option_map (readable_with (peeked_byte self) (place_of self)) (R.remaining result) }
        ensures inner { result ≡ device_of self }
    {
        self.input.into_inner()
    }
}

impl<R: ByteReader + Drop> Iterator for AsciiReader<R> {
    type Item = Result<OwnedEvent, Error>;

    ghost use Rattle.std.specs.Iterator.{at_most};
    ghost use Rattle.plist_ascii.specs.AsciiReader.{GivesAscii, ascii_steps};

    ghost next_gives = { GivesAscii R.remaining R.failures };

    ghost remaining = { λ s. at_most (ascii_steps s) };

    fn next(&mut self) -> Option<Result<OwnedEvent, Error>> {
        if self.input.has_ended() {
            return None;
        }
        let stop = Stop::Bare(self.dialect);
        'tokens: loop {
            match self.input.take_past(Stop::Lead) {
                Ok(Some(byte)) => match self.input.token_by(self.alloc, stop, byte) {
                    Ok(Some(event)) => return Some(Ok(event)),
                    Ok(None) => {}
                    Err(fault) => return Some(Err(self.input.error(fault))),
                },
                Ok(None) => {
                    self.input.end();
                    return None;
                }
                Err(fault) => return Some(Err(self.input.error(fault))),
            }
        }
    }
}

impl<R: ByteReader + Drop> AsciiReader<R> {
    ghost use Rattle.std.specs.Prelude.{◌<◌, IfSome};
    ghost use Rattle.plist_base.specs.Visits.{TakesTurn, YieldsPlain};
    ghost use Rattle.plist_ascii.specs.AsciiReader.{GivesAscii, ascii_steps};

    // Hands the next event to a visitor, after it was read by `next`.
    fn hand_over_read<V: EventVisitor>(
        &mut self,
        visitor: &mut V,
    ) -> Option<Result<ControlFlow<()>, Error>>
        ensures turn { TakesTurn (YieldsPlain (GivesAscii R.remaining R.failures)) V.step
            (self.old, visitor.old) result (self.new, visitor.new) }
        ensures falls { IfSome result (λ _. ascii_steps self.new < ascii_steps self.old) }
    {
        match self.next() {
            None => None,
            Some(Ok(event)) => Some(Ok(visitor.event(event))),
            Some(Err(error)) => Some(Err(error)),
        }
    }

    /// Hands the next event to a visitor, and returns what the visitor returns, or `None` if no
    /// event remains. A quoted string without escapes, or a bare string that spells no integer and
    /// doesn't begin with a slash, is borrowed from the buffer of the inner reader if that has all
    /// bytes from the end of the previous item to the byte that ends the string, and if there is no
    /// comment among them. Any other string is handed over as an owned one.
    ///
    /// # Errors
    ///
    /// The error that replaces the event. The visitor is unchanged then.
    pub fn hand_over<V: EventVisitor>(
        &mut self,
        visitor: &mut V,
    ) -> Option<Result<ControlFlow<()>, Error>>
        ensures turn { TakesTurn (YieldsPlain (GivesAscii R.remaining R.failures)) V.step
            (self.old, visitor.old) result (self.new, visitor.new) }
        ensures falls { IfSome result (λ _. ascii_steps self.new < ascii_steps self.old) }
    {
        let Some(borrowed) = self.input.borrowed_text(Stop::Bare(self.dialect)) else {
            return self.hand_over_read(visitor);
        };
        let flow = visitor.string(CowStr::Borrowed(borrowed.text));
        let count = borrowed.count;
        self.input.take_first(count);
        Some(Ok(flow))
    }
}
