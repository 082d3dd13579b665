//! The readers from which bytes are taken.

ghost use Rattle.std.specs.Prelude.{◌≡◌, ◌≤◌, ◌++◌, ℕ, List, [], length, take, Option, None, IfOk, IfSome, MatchResult};
ghost use Rattle.std.specs.Io.KnownBytes.{Consumes};
ghost use Rattle.plist_ascii.specs.Unread.{GivesByte, RisesIfCounted};

use std::io;
use std::io::Read;

/// A reader from which bytes are taken one by one, or several at once if they are buffered.
///
/// Every `Read` is a `ByteReader` that counts no failures and buffers nothing. A reader that counts
/// its failures may implement this trait, too. `BufferedSource` of `plist_reader` does so. It
/// counts the failures of its source and buffers what a read returned, so that a reader of events
/// can hand over strings from the buffer without copying them.
pub trait ByteReader {
    /// The remaining bytes, if they are known.
    ghost remaining: { Self → Option (List ℕ) };
    /// The number of reads that failed, if they are counted.
    ghost failures: { Self → Option ℕ };
    /// The buffered bytes.
    ghost window: { Self → List ℕ };

    /// Returns the next byte, or `None` at the end. A failed read isn't tried again, not even after
    /// `Interrupted`.
    ///
    /// # Errors
    ///
    /// The I/O error of the read that failed. The remaining bytes are unspecified then.
    fn next_byte(&mut self) -> Result<Option<u8>, io::Error>
        ensures byte { IfOk result (λ b. GivesByte (remaining self.old) b (remaining self.new)) }
        ensures failures { MatchResult result (λ _. failures self.new ≡ failures self.old)
            (λ _. RisesIfCounted (failures self.old) (failures self.new)) };

    /// Returns the buffered bytes. They are the next ones, and taking them needs no read.
    fn buffered(&self) -> &[u8]
        ensures window { result.now ≡ window self.now }
        ensures next { IfSome (remaining self.now) (λ bytes. (rest : List ℕ)
            × (bytes ≡ window self.now ++ rest)) };

    /// Takes the first `count` of the buffered bytes.
    fn consume(&mut self, count: usize)
        requires within { count ≤ length (window self.old) }
        ensures bytes { Consumes (remaining self.old) (remaining self.new)
            (take count (window self.old)) }
        ensures failures { failures self.new ≡ failures self.old };
}

/// Reads byte by byte, counts no failures and buffers nothing.
impl<R: Read> ByteReader for R {
    ghost remaining = { R.remaining };

    ghost failures = { λ _. None };

    ghost window = { λ _. [] };

    fn next_byte(&mut self) -> Result<Option<u8>, io::Error> {
        let mut buffer = [0u8; 1];
        let count = self.read(&mut buffer)?;
        if count == 0 {
            return Ok(None);
        }
        Ok(Some(buffer[0]))
    }

    fn buffered(&self) -> &[u8] {
        &[]
    }

    fn consume(&mut self, _count: usize) {}
}
