//! What crosses to C.

/// The record of an event.
#[repr(C)]
#[derive(Clone, Copy)]
pub struct FlatEvent {
    /// The number of the event's kind.
    pub kind: u64,
    /// The length of a collection, the bits of a number, or the index of the first byte of a string
    /// or of data.
    pub number: u64,
    /// The length of a string or of data in bytes; 4 or 8 for a real; 1 for a negative integer, and
    /// for a start with a length; otherwise 0.
    pub size: u64,
}

/// How much is read.
#[repr(C)]
#[derive(Clone, Copy)]
pub struct ReadLimits {
    /// The maximum number of collections that may be open at once.
    pub depth: u64,
    /// The maximum number of events.
    pub events: u64,
    /// The maximum number of bytes in all strings and data.
    pub bytes: u64,
}

/// How a call ended.
#[repr(C)]
#[derive(Clone, Copy)]
pub struct Outcome {
    /// How many records were stored or taken.
    pub events: usize,
    /// How many bytes of strings and data were stored, or the length of the file.
    pub bytes: usize,
    /// The number of the fault, or 0.
    pub fault: u64,
    /// The marker of an unknown object, the limit that was reached, the kind of the event that was
    /// found, or what is full; otherwise 0.
    pub detail: u64,
    /// The kind of the event that was expected, or 0.
    pub expected: u64,
    /// 1 if the fault has an offset, and otherwise 0.
    pub has_offset: u64,
    /// The offset of the fault, or 0.
    pub offset: u64,
}

impl Outcome {
    ghost use Rattle.std.specs.Prelude.{◌≡◌};
    ghost use Rattle.plist_c.specs.Outcomes.{plain_outcome};

    /// Returns the outcome of a call that ended without a fault.
    pub(crate) fn new(events: usize, bytes: usize) -> Outcome
        ensures { result ≡ plain_outcome events bytes 0 }
    {
        Outcome {
            events,
            bytes,
            fault: 0,
            detail: 0,
            expected: 0,
            has_offset: 0,
            offset: 0,
        }
    }

    /// Returns the outcome of a call that ended with the fault of this number, which has no detail.
    pub(crate) fn with_fault(events: usize, bytes: usize, fault: u64) -> Outcome
        ensures { result ≡ plain_outcome events bytes fault }
    {
        Outcome {
            fault,
            ..Outcome::new(events, bytes)
        }
    }
}
