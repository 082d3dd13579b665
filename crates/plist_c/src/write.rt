//! The function that C calls to write.

ghost use Rattle.std.specs.Prelude.{◌≡◌, ◌⊎◌, [], false, IfErr, OnOk, true};
ghost use Rattle.plist_buffer.specs.EventBuffers.{buffered_events, is_whole};
ghost use Rattle.plist_c.specs.Files.{EndsAtRecord, Writes, files_of};
ghost use Rattle.plist_c.specs.Outcomes.{plain_outcome};
ghost use Rattle.plist_c.specs.Records.{flaw_number as number_of_flaw};
ghost use Rattle.plist_c.specs.inner.Writing.{HasPushed, IsRejection, PushesRecord, Stores, WritesBuffered, outcome_of_rejection};

use crate::flat::{FlatEvent, Outcome};
use crate::numbers::kind_number;
use crate::record::{Flaw, event_of};
use plist_base::{ErrorKind, EventKind};
use plist_binwrite::{EqualScalars, Sharing};
use plist_buffer::event_buffer::{EventBuffer, PushError};
use plist_share::EqualTrees;
use std::alloc::Global;

/// Why a record isn't taken.
#[derive(Clone, Copy)]
pub(crate) enum Rejection {
    /// No event has it.
    Flawed(Flaw),
    /// Its event can't follow the preceding ones.
    Misplaced {
        /// What the error names as expected.
        expected: EventKind,
        /// The kind of the event.
        found: EventKind,
    },
    /// The value is complete.
    Surplus {
        /// The kind of the event.
        found: EventKind,
    },
    /// An allocation failed.
    OutOfMemory,
}

// Returns the number of a flaw.
fn flaw_number(flaw: Flaw) -> u64
    ensures { result ≡ number_of_flaw flaw }
{
    match flaw {
        Flaw::Kind => 32,
        Flaw::Number => 33,
        Flaw::Range => 34,
        Flaw::Text => 35,
        Flaw::Date => 12,
    }
}

impl Rejection {
    // Returns the outcome of a call that rejects the record at an index.
    fn outcome(self, index: usize) -> Outcome
        ensures { result ≡ outcome_of_rejection self index }
    {
        let mut outcome = Outcome::new(index, 0);
        match self {
            Rejection::Flawed(flaw) => outcome.fault = flaw_number(flaw),
            Rejection::Misplaced { expected, found } => {
                outcome.fault = 21;
                outcome.detail = kind_number(found);
                outcome.expected = kind_number(expected);
            }
            Rejection::Surplus { found } => {
                outcome.fault = 22;
                outcome.detail = kind_number(found);
            }
            Rejection::OutOfMemory => outcome.fault = 25,
        }
        outcome
    }
}

// Buffers the event of a record, or returns why it isn't taken.
fn push_record(
    alloc: Global,
    flat: &FlatEvent,
    bytes: &[u8],
    pending: &mut EventBuffer,
) -> Result<(), Rejection>
    ensures pushed { OnOk result (PushesRecord bytes.now flat.now pending.old pending.new) }
    ensures rejected { IfErr result (IsRejection bytes.now flat.now pending.old) }
{
    let event = match event_of(flat, bytes) {
        Ok(event) => event,
        Err(flaw) => return Err(Rejection::Flawed(flaw)),
    };
    if pending.is_whole() {
        let found = EventKind::of_event(&event);
        return Err(Rejection::Surplus { found });
    }
    match pending.try_push(alloc, event) {
        Ok(()) => Ok(()),
        Err(PushError::Misplaced { expected, found }) => {
            Err(Rejection::Misplaced { expected, found })
        }
        Err(PushError::OutOfMemory) => Err(Rejection::OutOfMemory),
    }
}

// Buffers the events of records, or returns the outcome for the first one that isn't taken.
fn push_records(
    alloc: Global,
    records: &[FlatEvent],
    bytes: &[u8],
    pending: &mut EventBuffer,
) -> Result<(), Outcome>
    requires new { buffered_events pending.old ≡ [] }
    requires begun { is_whole pending.old ≡ false }
    ensures pushed { OnOk result (HasPushed bytes.now records.now pending.new) }
    ensures rejected { IfErr result (λ outcome.
        (EndsAtRecord (record { events = records.now; bytes = bytes.now }) outcome)
        ⊎ (outcome ≡ plain_outcome outcome.events 0 25)) }
{
    for (index, flat) in records.iter().enumerate() {
        if let Err(rejection) = push_record(alloc, flat, bytes, pending) {
            return Err(rejection.outcome(index));
        }
    }
    Ok(())
}

// Copies a file into the caller's memory, if it has room.
fn store(made: &[u8], count: usize, file: &mut [u8]) -> Outcome
    ensures { Stores made.now count file.old result file.new }
{
    let size = made.len();
    if size > file.len() {
        let mut outcome = Outcome::with_fault(count, size, 31);
        outcome.detail = 1;
        return outcome;
    }
    file[..size].copy_from_slice(made);
    Outcome::new(count, size)
}

// Writes the file of a value's events into the caller's memory.
fn write_file<S: Sharing>(
    alloc: Global,
    pending: &EventBuffer,
    count: usize,
    file: &mut [u8],
) -> Outcome
    requires { is_whole pending.now ≡ true }
    ensures { WritesBuffered S.kind (buffered_events pending.now) count (file.old, file.new) result }
{
    let mut made = Vec::new(alloc);
    match S::write_file(alloc, pending.events(), &mut made) {
        Ok(()) => store(made.as_slice(), count, file),
        Err(error) => match error.kind() {
            ErrorKind::PlistTooLarge => Outcome::with_fault(count, 0, 27),
            _ => Outcome::with_fault(count, 0, 25),
        },
    }
}

/// Writes the binary file of a value into the caller's memory. The records have to be the events of
/// exactly one value. Equal collections are stored once if `shares` is true.
///
/// # Errors
///
/// The outcome has the number of the fault: the fault of the first record that is wrong, with its
/// index; 23 if the records end too early; 27 if the file would have 2^64 bytes or more; 25 if an
/// allocation fails; and 31, with the length of the file, if it is longer than the caller's memory.
/// The memory is unchanged then.
#[unsafe(no_mangle)]
pub extern "C" fn sizhetom_write(
    alloc: Global,
    events: &[FlatEvent],
    bytes: &[u8],
    shares: bool,
    file: &mut [u8],
) -> Outcome
    ensures { Writes (files_of shares)
        (record { events = events.now; bytes = bytes.now }) result file.old file.new }
{
    let mut pending = EventBuffer::new(alloc);
    if let Err(outcome) = push_records(alloc, events, bytes, &mut pending) {
        return outcome;
    }
    if !pending.is_whole() {
        return Outcome::with_fault(events.len(), 0, 23);
    }
    if shares {
        return write_file::<EqualTrees>(alloc, &pending, events.len(), file);
    }
    write_file::<EqualScalars>(alloc, &pending, events.len(), file)
}
