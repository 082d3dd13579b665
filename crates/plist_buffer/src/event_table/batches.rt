//! Appends several small scalars to a table, which are looked up together.
//!
//! In a large table a look-up mostly waits for memory, but the processor waits only once for
//! look-ups that follow one another at once.

ghost use Rattle.std.specs.Prelude.{◌≡◌, ◌++◌, ◌≤◌, length, take, Some, IfSome, OnOk, OnErr};
ghost use Rattle.plist_buffer.specs.StoredScalars.{event_of_small, events_of_small};

use super::EventTable;
use crate::entries::ScalarNumber;
use crate::waiting::BATCH_SIZE;
use plist_base::PackedScalar;
use std::alloc::AllocError;

impl<'e> EventTable<'e> {
    ghost use Rattle.plist_buffer.specs.EventTable.{plain_events, lists_in, GrowsBy};
    ghost use Rattle.plist_buffer.specs.inner.Entries.{scalar_numbered, AreFound, KeepsScalars};

    // Returns the index of each of at most `BATCH_SIZE` scalars among the small ones, or `None`
    // for those that aren't stored. The loop does nothing else, so that the look-ups wait for
    // memory together.
    #[inline(always)]
    fn find_each(&self, scalars: &[PackedScalar]) -> [Option<usize>; BATCH_SIZE]
        requires { length scalars.now ≤ BATCH_SIZE }
        ensures { AreFound (lists_in self.now) scalars.now result }
    {
        let mut found = [None; BATCH_SIZE];
        for index in 0..scalars.len() {
            found[index] = self.small.get_index_of(&scalars[index]);
        }
        found
    }

    // Appends a small scalar, given its index, or `None` if none was found.
    #[inline(always)]
    fn push_found(&mut self, scalar: PackedScalar, found: Option<usize>) -> Result<(), AllocError>
        requires { IfSome found (λ index. scalar_numbered (lists_in self.old)
            (ScalarNumber.Small index) ≡ Some (event_of_small scalar)) }
        ensures events { OnOk result (GrowsBy self.old (event_of_small scalar) self.new) }
        ensures kept { OnOk result (KeepsScalars (lists_in self.old) (lists_in self.new)) }
        ensures unchanged { OnErr result (plain_events self.new ≡ plain_events self.old) }
    {
        match found {
            Some(index) => self.repeat(ScalarNumber::Small(index)),
            None => self.push_small(scalar),
        }
    }

    // Looks up at most `BATCH_SIZE` small scalars, and then appends them. Returns the number of
    // those that were appended, which is less than all only if an allocation failed.
    #[inline(never)]
    pub(crate) fn append_small(&mut self, scalars: &[PackedScalar]) -> usize
        requires { length scalars.now ≤ BATCH_SIZE }
        ensures within { result ≤ length scalars.now }
        ensures events { plain_events self.new
            ≡ plain_events self.old ++ events_of_small (take result scalars.now) }
    {
        let found = self.find_each(scalars);
        for index in 0..scalars.len() {
            if self.push_found(scalars[index], found[index]).is_err() {
                return index;
            }
        }
        scalars.len()
    }
}
