//! Says why a step of a walk failed.

use plist_base::{Error, ErrorKind};
use std::alloc::AllocError;

/// Why a step of a walk failed.
///
/// The variants have no fields, so that the result of a step is passed in registers.
/// [`FaultDetails`] has the rest.
#[derive(Clone, Copy)]
pub enum StepFault {
    /// The object, or the references of the collection, don't end before the trailer.
    Overrun,
    /// The object is a null object.
    Null,
    /// The object is a fill byte.
    Fill,
    /// No object has the marker.
    Unknown,
    /// The integer doesn't fit into a `u64`.
    OutOfRange,
    /// The date's real is infinite or a NaN, or its second is outside the range of dates.
    NoDate,
    /// The bytes of the string aren't UTF-8.
    NotUtf8,
    /// The units of the string aren't UTF-16.
    NotUtf16,
    /// A reference of the collection, or of the trailer, has a number that no object has.
    Reference,
    /// The object contains itself.
    Recursion,
    /// An allocation failed.
    Memory,
    /// A call failed with an error of its own, which is kept.
    Kept,
}

/// What the error of a step that failed contains besides the [`StepFault`].
#[derive(Drop)]
pub struct FaultDetails {
    /// The offset of the object, the collection or the trailer. It is unspecified if the fault is
    /// `Memory` or `Kept`.
    pub place: u64,
    /// The marker of the object. It is unspecified unless the fault is `Unknown`.
    pub marker: u8,
    /// The error of the last step that failed with `Kept`, until it is taken out.
    pub kept: Option<Error>,
}

impl FaultDetails {
    ghost use Rattle.std.specs.Prelude.{◌≡◌};
    ghost use Rattle.plist_decode.specs.StepFaults.{error_of, result_with};

    /// Creates the details of a walk in which no step has failed yet.
    pub fn new() -> Self {
        FaultDetails {
            place: 0,
            marker: 0,
            kept: None,
        }
    }

    /// Stores the offset of the error of a step that fails.
    #[cold]
    #[inline(never)]
    pub fn fail_at(&mut self, place: u64)
        ensures { self.new.place ≡ place }
    {
        self.place = place;
    }

    /// Passes on a result, and keeps the error if the result is `Err`.
    pub fn keep_error<T>(&mut self, answer: Result<T, Error>) -> Result<T, StepFault>
        ensures answer { result_with result self.new ≡ answer }
    {
        match answer {
            Ok(value) => Ok(value),
            Err(error) => {
                self.kept = Some(error);
                Err(StepFault::Kept)
            }
        }
    }

    /// Makes the error of a step that failed, or takes it out if it is kept. If the fault is `Kept`
    /// and no error is kept, the error is `OutOfMemory`.
    #[cold]
    #[inline(never)]
    pub fn take_error(&mut self, fault: StepFault) -> Error
        ensures { result ≡ error_of fault self.old }
    {
        let kind = match fault {
            StepFault::Overrun => ErrorKind::ObjectOffsetTooLarge,
            StepFault::Null => ErrorKind::NullObjectUnimplemented,
            StepFault::Fill => ErrorKind::FillObjectUnimplemented,
            StepFault::Unknown => ErrorKind::UnknownObjectType(self.marker),
            StepFault::OutOfRange => ErrorKind::IntegerOutOfRange,
            StepFault::NoDate => ErrorKind::OverflowOrNanDate,
            StepFault::NotUtf8 => ErrorKind::InvalidUtf8String,
            StepFault::NotUtf16 => ErrorKind::InvalidUtf16String,
            StepFault::Reference => ErrorKind::ObjectReferenceTooLarge,
            StepFault::Recursion => ErrorKind::RecursiveObject,
            StepFault::Memory => return ErrorKind::OutOfMemory.without_position(),
            StepFault::Kept => {
                return match self.kept.take() {
                    Some(error) => error,
                    None => ErrorKind::OutOfMemory.without_position(),
                };
            }
        };
        kind.with_byte_offset(self.place)
    }
}

/// Converts to `Memory`.
impl From<AllocError> for StepFault {
    ghost use Rattle.std.specs.Prelude.{◌≡◌};
    ghost use Rattle.plist_decode.specs.declared.step_fault.StepFault.TheVariants.{Memory};

    ghost from_gives = { λ _ fault. fault ≡ Memory };

    fn from(_error: AllocError) -> StepFault {
        StepFault::Memory
    }
}
