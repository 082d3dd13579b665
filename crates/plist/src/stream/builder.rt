//! Builds a value from its events.

ghost use Rattle.std.specs.Prelude.{◌≡◌, IfErr, IfOk, None, Ok, OnErr, OnOk, Some, false, true};
ghost use Rattle.plist_base.specs.Events.{event_of};
ghost use Rattle.plist_base.specs.Outcomes.{IfFault};
ghost use Rattle.plist.specs.Building.{IsNested, IsNested-prop, IsUnfinished, nothing_built};
ghost use Rattle.plist.specs.UnfinishedValues.{answer_of_adding, fault_of_add_error, unfinished_of};

use crate::Value;
use crate::unfinished::{AddError, UnfinishedValue};
use plist_base::{Error, ErrorKind, Event, Sealed, Writer};
use std::alloc::Global;

/// Builds a value from its events.
///
/// A key that is repeated keeps its first position and takes its last value. The lengths of starts
/// are ignored. An event that can't follow the preceding ones changes nothing. It is rejected with
/// `UnexpectedEventType` before the root is complete, and with `ExpectedEndOfEventStream` after
/// that. If an allocation fails, the builder has failed: its contents are dropped, and every later
/// call returns `WriterFailed`.
///
/// # Examples
///
/// ```rust
/// let mut builder = Builder::new(alloc);
/// builder.write_start_dictionary(None)?;
/// builder.write_string(CowStr::Borrowed("Enabled"))?;
/// builder.write_boolean(true)?;
/// builder.write_end_collection()?;
/// builder.finish()
/// ```
#[derive(Drop)]
pub struct Builder {
    alloc: Global,
    unfinished: UnfinishedValue,
    failed: bool,
    ghost nested: { IsNested (unfinished_of unfinished) } by { IsNested-prop
        (unfinished_of unfinished) },
}

impl Builder {
    ghost use Rattle.plist_base.specs.Bracketing.{AreAlike, bracketing};
    ghost use Rattle.plist.specs.Builder.{IsBuildingStep, built_of};
    ghost use Rattle.plist.specs.Building.{complete_tree, events_so_far};
    ghost use Rattle.plist.specs.Collecting.{RefusesOne};
    ghost use Rattle.plist.specs.ValueTrees.{tree_of};

    /// Creates a builder without events.
    pub fn new(alloc: Global) -> Builder
        ensures { built_of result ≡ nothing_built }
    {
        Builder {
            alloc,
            unfinished: UnfinishedValue::new(alloc),
            failed: false,
        }
    }

    // Adds an event, or returns why it isn't added.
    pub(crate) fn add(&mut self, event: Event<'_>) -> Result<(), AddError>
        ensures step { IsBuildingStep self.old (event_of event.entry) (answer_of_adding result)
            self.new }
        ensures refused { (built_of self.old).failed ≡ false
            → IfErr result (λ rejection. RefusesOne (unfinished_of self.old.unfinished)
            (Ok (event_of event.entry)) (fault_of_add_error rejection)) }
    {
        if self.failed {
            return Err(AddError::Failed);
        }
        match self.unfinished.refusal(&event) {
            Some(rejection) => return Err(rejection),
            None => {}
        }
        match self.unfinished.take(self.alloc, event) {
            Ok(()) => Ok(()),
            Err(_) => {
                self.unfinished.clear();
                self.failed = true;
                Err(AddError::OutOfMemory)
            }
        }
    }

    /// Returns the value of the events, and leaves the builder empty. It allocates no memory.
    ///
    /// # Errors
    ///
    /// An error leaves the builder unchanged.
    ///
    /// - `WriterFailed` if it has failed.
    /// - `UnexpectedEndOfEventStream` if the events don't form a value yet.
    #[tactic(auto, using(crate::proofs::Following::finishing))]
    pub fn finish(&mut self) -> Result<Value, Error>
        // Result.
        ensures value { IfOk result (λ value. AreAlike
            (events_so_far (built_of self.old).unfinished) (bracketing (tree_of value))) }
        ensures complete { IfOk result (λ value. complete_tree (built_of self.old).unfinished
            ≡ Some (tree_of value)) }
        ensures working { OnOk result ((built_of self.old).failed ≡ false) }
        // Errors.
        ensures refused { IfFault result (IsUnfinished (built_of self.old)) }
        // State afterwards.
        ensures emptied { OnOk result (built_of self.new ≡ nothing_built) }
        ensures unchanged { OnErr result (self.new ≡ self.old) }
    {
        let failed = self.failed;
        if failed {
            return Err(ErrorKind::WriterFailed.without_position());
        }
        match self.unfinished.take_root() {
            Some(root) => Ok(root),
            None => Err(ErrorKind::UnexpectedEndOfEventStream.without_position()),
        }
    }
}

/// An [`Event`] of any lifetime.
pub trait AnyEvent: Drop {
    ghost use Rattle.plist_base.specs.Events.{PlainEvent};
    ghost use Rattle.plist.specs.Builder.{RefusesWith, built_of};
    ghost use Rattle.plist.specs.Collecting.{TakesOne};

    ghost plain: { Self → PlainEvent };

    /// Writes the event to a builder that hasn't failed.
    ///
    /// # Errors
    ///
    /// Any error of the builder's `write`.
    fn write_to(self, builder: &mut Builder) -> Result<(), Error>
        requires { (built_of builder.old).failed ≡ false }
        ensures taken { OnOk result (TakesOne (built_of builder.old) (Ok (plain self))
            (built_of builder.new)) }
        ensures refused { RefusesWith builder.old (Ok (plain self)) result };
}

impl<'a> AnyEvent for Event<'a> {
    ghost use Rattle.plist_base.specs.Events.{event_of};

    ghost plain = { event_of };

    #[tactic(auto, using(crate::proofs::StepLaws::write_refused))]
    fn write_to(self, builder: &mut Builder) -> Result<(), Error> {
        builder.write(self)
    }
}

impl Sealed for Builder {}

impl Writer for Builder {
    ghost use Rattle.plist.specs.Builder.{IsBuildingStep, built_of};
    ghost use Rattle.plist.specs.Building.{events_so_far};

    ghost held = { λ b. events_so_far (built_of b).unfinished };

    ghost failed = { λ b. b.failed };

    ghost Step = { IsBuildingStep };

    fn write(&mut self, event: Event<'_>) -> Result<(), Error> {
        match self.add(event) {
            Ok(()) => Ok(()),
            Err(rejection) => Err(rejection.kind().without_position()),
        }
    }

    ghost law = { λ before event answer after step. step.order };

    ghost law_of_failed = { λ before event answer after step. step.failure };
}
