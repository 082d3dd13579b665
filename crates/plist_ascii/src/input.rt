//! Takes the bytes of a reader one after another.
#![tactic(auto, unfolding(crate::specs::Unread::unread_of, crate::specs::inner::Inputs::hand_of))]

ghost use Rattle.std.specs.Prelude.{◌≡◌, ◌+◌, ◌++◌, ◌^◌, ◌<◌, ◌≤◌, ℕ, List, [], drop, length, None, Some, true, false, IfOk, IfErr, IfSome, IsSome, OnOk, ⊤};
ghost use Rattle.plist_ascii.specs.Unread.{IfKnown, unread};
ghost use Rattle.plist_base.specs.Faults.{UnclosedString, fault_of};
ghost use Rattle.plist_ascii.specs.inner.Inputs.{fault_after, kind_in_bytes, CountsByte, CountsFailed, EndsInput, IfCame, LooksAhead, TakesHand, TakesIf, TakesNext, TakesOneMore, TakesPart, hand};

use crate::byte_reader::ByteReader;
use crate::fault::TokenFault;
use crate::stop::{Stop, run_length};
use plist_base::{Error, ErrorKind};
use std::alloc::AllocError;
use std::io;

/// Takes the bytes of a reader one after another, at most 2^64 - 1 of them.
#[derive(Drop)]
pub struct Input<R> {
    inner: R,
    // The byte that was read but not taken yet, if any.
    peeked: Option<u8>,
    // The number of bytes taken.
    taken: u64,
    // Whether the input has ended, after which nothing is read.
    ended: bool,
    // The error of a read that failed, until it is returned.
    failure: Option<io::Error>,
}

impl<R> Input<R> {
    /// Creates an input over a reader.
    pub fn new(inner: R) -> Self
        ensures inner { result.inner ≡ inner }
        ensures fresh { (result.peeked ≡ None) × (result.taken ≡ 0) × (result.ended ≡ false) }
    {
        Input {
            inner,
            peeked: None,
            taken: 0,
            ended: false,
            failure: None,
        }
    }

    /// Returns the reader. A byte that was read but not taken is lost.
    pub fn into_inner(self) -> R
        ensures { result ≡ self.inner }
    {
        self.inner
    }

    /// Returns `true` if the input has ended.
    pub fn has_ended(&self) -> bool
        ensures { result ≡ self.now.ended }
    {
        self.ended
    }
}

impl<R: ByteReader> Input<R> {
    /// Returns bytes that can be taken without a read: the byte that was read but not taken, if
    /// there is one, and otherwise the buffered bytes. The slice is empty if the input has ended or
    /// if 2^64 - 1 bytes were taken.
    #[inline(always)]
    pub fn at_hand(&self) -> &[u8]
        ensures hand { result.now ≡ hand R.window self.now }
        ensures next { IfKnown (unread R.remaining self.now) (λ xs. (rest : List ℕ)
            × (xs ≡ hand R.window self.now ++ rest)) }
    {
        let most = u64::MAX - self.taken;
        if self.ended || most == 0 {
            return &[];
        }
        match self.peeked {
            Some(_) => self.peeked.as_slice(),
            None => {
                let bytes = self.inner.buffered();
                if most < bytes.len() as u64 {
                    return &bytes[..most as usize];
                }
                bytes
            }
        }
    }

    /// Takes the first `count` of the bytes that `at_hand` returns.
    #[inline(always)]
    pub fn take_first(&mut self, count: usize)
        requires within { count ≤ length (hand R.window self.old) }
        // Result.
        ensures bytes { IfKnown (unread R.remaining self.old) (λ xs.
            unread R.remaining self.new ≡ Some (drop count xs)) }
        // State afterwards.
        ensures place { self.new.taken ≡ self.old.taken + count }
        ensures fits { self.new.taken < 2 ^ 64 }
        ensures peeked { 0 < count → self.new.peeked ≡ None }
        ensures failures { R.failures self.new.inner ≡ R.failures self.old.inner }
    {
        self.taken += count as u64;
        if self.peeked.is_none() {
            self.inner.consume(count);
            return;
        }
        if count > 0 {
            self.peeked = None;
        }
    }

    // Reads one byte without taking it. This function is called only if no byte can be taken
    // without a read. It returns `None` if the input has ended, or if 2^64 - 1 bytes were taken.
    #[inline(never)]
    fn read_ahead(&mut self) -> Result<Option<u8>, TokenFault>
        requires { hand R.window self.old ≡ [] }
        ensures { LooksAhead R.remaining R.window R.failures self.old result self.new }
    {
        if self.ended || self.taken == u64::MAX {
            return Ok(None);
        }
        match self.inner.next_byte() {
            Ok(Some(byte)) => {
                self.peeked = Some(byte);
                Ok(Some(byte))
            }
            Ok(None) => {
                self.ended = true;
                Ok(None)
            }
            Err(failure) => {
                self.failure = Some(failure);
                Err(TokenFault::Io)
            }
        }
    }

    /// Returns the next byte without taking it, or `None` at the end. It reads a byte only if none
    /// can be taken without a read. The only error is `Io`.
    #[inline(always)]
    pub fn peek(&mut self) -> Result<Option<u8>, TokenFault>
        ensures { LooksAhead R.remaining R.window R.failures self.old result self.new }
    {
        let bytes = self.at_hand();
        if bytes.is_empty() {
            return self.read_ahead();
        }
        Ok(Some(bytes[0]))
    }

    /// Takes and returns the next byte, or returns `None` at the end. The only error is `Io`.
    #[inline(always)]
    pub fn take(&mut self) -> Result<Option<u8>, TokenFault>
        // Result.
        ensures next { IfOk result (λ byte. TakesNext R.remaining self.old byte self.new) }
        // Errors.
        ensures fault { IfErr result (λ f. f ≡ TokenFault.Io) }
        // State afterwards.
        ensures peeked { IfCame result (λ _. self.new.peeked ≡ None) }
        ensures place { CountsByte self.old result self.new }
        ensures failures { CountsFailed R.failures self.old result self.new }
    {
        match self.peek()? {
            Some(byte) => {
                self.take_first(1);
                Ok(Some(byte))
            }
            None => Ok(None),
        }
    }

    /// Takes the next byte if it is `expected`, and returns `true` if it is. The only error is
    /// `Io`.
    #[inline(always)]
    pub fn take_if(&mut self, expected: u8) -> Result<bool, TokenFault>
        // Result.
        ensures next { IfOk result (λ is. TakesIf R.remaining expected self.old is self.new) }
        // Errors.
        ensures fault { IfErr result (λ f. f ≡ TokenFault.Io) }
        // State afterwards.
        ensures rises { IfOk result (λ is. is ≡ true → TakesOneMore self.old self.new) }
        ensures same { IfOk result (λ is. is ≡ false → self.new.taken ≡ self.old.taken) }
        ensures unmoved { IfErr result (λ _. self.new.taken ≡ self.old.taken) }
        ensures failures { CountsFailed R.failures self.old result self.new }
    {
        match self.peek()? {
            Some(byte) if byte == expected => {
                self.take_first(1);
                Ok(true)
            }
            _ => Ok(false),
        }
    }

    /// Takes the next byte of a quoted string. At the end of the input, the error is
    /// `UnclosedString`.
    pub fn expect_byte(&mut self) -> Result<u8, TokenFault>
        // Result.
        ensures value { IfOk result (λ c. TakesNext R.remaining self.old (Some c) self.new) }
        // Errors.
        ensures fault { IfErr result (λ f. IfSome (kind_in_bytes f) (λ kind. (kind ≡ UnclosedString)
            × TakesNext R.remaining self.old None self.new)) }
        // State afterwards.
        ensures peeked { IfOk result (λ _. self.new.peeked ≡ None) }
        ensures place { OnOk result (TakesOneMore self.old self.new) }
        ensures unchanged { IfErr result (λ _. self.new.taken ≡ self.old.taken) }
        ensures failures { CountsFailed R.failures self.old result self.new }
    {
        match self.take()? {
            Some(byte) => Ok(byte),
            None => Err(TokenFault::UnclosedString),
        }
    }

    /// Takes the bytes that `at_hand` returns, up to the first stop, which isn't taken. Returns
    /// `true` if there is no stop among them, so that the run may continue after them.
    #[inline(always)]
    pub fn skip_part(&mut self, stop: Stop) -> bool
        // Result.
        ensures part { TakesPart R.remaining stop (λ _. ⊤) self.old result self.new }
        // State afterwards.
        ensures whole { result ≡ true → TakesHand R.window self.old self.new }
        ensures place { self.old.taken ≤ self.new.taken }
        ensures failures { R.failures self.new.inner ≡ R.failures self.old.inner }
    {
        let bytes = self.at_hand();
        let count = run_length(stop, bytes);
        let goes_on = count == bytes.len();
        self.take_first(count);
        goes_on
    }

    /// Appends `front` to `text`, and then takes and appends the bytes that `at_hand` returns, up
    /// to the first stop, which isn't taken. Returns `true` if there is no stop among them, so that
    /// the run may continue after them.
    #[inline(always)]
    pub fn take_part(
        &mut self,
        stop: Stop,
        front: &[u8],
        text: &mut Vec<u8>,
    ) -> Result<bool, AllocError>
        // Result.
        ensures part { IfOk result (λ more. TakesPart R.remaining stop (λ part. text.new.items
            ≡ (text.old.items ++ front.now) ++ part) self.old more self.new) }
        // State afterwards.
        ensures whole { IfOk result (λ more. more ≡ true
            → TakesHand R.window self.old self.new) }
        ensures place { self.old.taken ≤ self.new.taken }
        ensures failures { R.failures self.new.inner ≡ R.failures self.old.inner }
    {
        let bytes = self.at_hand();
        let count = run_length(stop, bytes);
        let goes_on = count == bytes.len();
        text.reserve(front.len().saturating_add(count))?;
        text.extend_from_slice(front)?;
        text.extend_from_slice(&bytes[..count])?;
        self.take_first(count);
        Ok(goes_on)
    }

    /// Ends the input, so that nothing more is read.
    pub fn end(&mut self)
        ensures unread { unread R.remaining self.new ≡ Some [] }
        ensures ended { self.new.ended ≡ true }
        ensures inner { self.new.inner ≡ self.old.inner }
        ensures place { self.new.taken ≡ self.old.taken }
    {
        self.peeked = None;
        self.ended = true;
    }

    /// Returns the error for a token that can't be taken, and ends the input if a read or an
    /// allocation has failed.
    #[cold]
    #[inline(never)]
    pub fn error(&mut self, fault: TokenFault) -> Error
        requires failed { fault ≡ TokenFault.Io → IsSome self.old.failure }
        // Result.
        ensures error { fault_of result ≡ fault_after fault self.old.taken }
        // State afterwards.
        ensures ends { EndsInput R.remaining fault self.old self.new }
        ensures place { self.new.taken ≡ self.old.taken }
        ensures inner { self.new.inner ≡ self.old.inner }
    {
        let place = self.taken;
        match fault {
            TokenFault::Io => {
                let failure = self.failure.take().unwrap();
                self.end();
                ErrorKind::Io(failure).with_byte_offset(place)
            }
            TokenFault::OutOfMemory => {
                self.end();
                ErrorKind::OutOfMemory.without_position()
            }
            TokenFault::UnclosedString => ErrorKind::UnclosedString.with_byte_offset(place),
            TokenFault::IncompleteComment => ErrorKind::IncompleteComment.with_byte_offset(place),
            TokenFault::InvalidUtf8 => ErrorKind::InvalidUtf8AsciiStream.with_byte_offset(place),
            TokenFault::InvalidOctal => ErrorKind::InvalidOctalString.with_byte_offset(place),
            TokenFault::InvalidUtf16 => ErrorKind::InvalidUtf16String.with_byte_offset(place),
        }
    }
}
