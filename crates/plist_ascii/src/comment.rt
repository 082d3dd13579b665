//! Takes comments.

ghost use Rattle.std.specs.Prelude.{◌≡◌, ◌^◌, ◌<◌, ◌≤◌, None, IfErr, IfOk, OnOk, ⊤};
ghost use Rattle.plist_ascii.specs.Texts.{block_comment};
ghost use Rattle.plist_ascii.specs.inner.Inputs.{CountsFailed, GivesBy, IfCame, TakesPast, TakesRun};

use crate::byte_reader::ByteReader;
use crate::fault::TokenFault;
use crate::input::Input;
use crate::stop::Stop;

impl<R: ByteReader> Input<R> {
    /// Takes the bytes before the next stop. The only error is `Io`.
    #[inline(always)]
    pub fn skip_run(&mut self, stop: Stop) -> Result<(), TokenFault>
        // Result.
        ensures value { OnOk result (TakesRun R.remaining stop (λ _. ⊤) self.old self.new) }
        // Errors.
        ensures fault { IfErr result (λ f. f ≡ TokenFault.Io) }
        // State afterwards.
        ensures place { self.old.taken ≤ self.new.taken }
        ensures failures { CountsFailed R.failures self.old result self.new }
    {
        'run: loop {
            match self.peek()? {
                Some(_byte) => {
                    if !self.skip_part(stop) {
                        return Ok(());
                    }
                }
                None => return Ok(()),
            }
        }
    }

    /// Takes the bytes up to and including the next stop, and returns the stop, or `None` if the
    /// input ends before a stop. The only error is `Io`.
    #[inline(always)]
    pub fn take_past(&mut self, stop: Stop) -> Result<Option<u8>, TokenFault>
        // Result.
        ensures value { IfOk result (λ byte. TakesPast R.remaining stop self.old byte self.new) }
        // Errors.
        ensures fault { IfErr result (λ f. f ≡ TokenFault.Io) }
        // State afterwards.
        ensures peeked { IfCame result (λ _. self.new.peeked ≡ None) }
        ensures rises { IfCame result (λ _. self.old.taken < self.new.taken) }
        ensures place { self.old.taken ≤ self.new.taken }
        ensures countable { IfCame result (λ _. self.new.taken < 2 ^ 64) }
        ensures failures { CountsFailed R.failures self.old result self.new }
    {
        self.skip_run(stop)?;
        self.take()
    }

    /// Takes the rest of a block comment up to and including its `*/`. Its `/*` has been taken. No
    /// byte after the comment is looked at. If there is no `*/`, the error is `IncompleteComment`.
    pub fn block_comment(&mut self) -> Result<(), TokenFault>
        ensures answers { GivesBy R.remaining (λ _. None) block_comment self.old result self.new }
        ensures memory { IfErr result (λ f. f ≡ TokenFault.OutOfMemory → ⊥) }
        ensures failures { CountsFailed R.failures self.old result self.new }
    {
        'stars: loop {
            match self.take_past(Stop::Star)? {
                Some(_star) => {
                    if self.take_if(b'/')? {
                        return Ok(());
                    }
                }
                None => return Err(TokenFault::IncompleteComment),
            }
        }
    }
}
