//! Builds a value from the items of an iterator, or from the events that a source hands over.

ghost use Rattle.std.specs.Iterator.{IsFinite};
ghost use Rattle.plist.specs.Collecting.{Collects, CollectsTo, built_tree};
ghost use Rattle.plist.specs.ValueOfItems.{AnswersAsPredicted};

use crate::Value;
use crate::stream::builder::{AnyEvent, Builder};
use crate::unfinished::AddError;
use plist_base::{Error, Event, EventSource, EventVisitor};
use std::alloc::Global;
use std::ops::ControlFlow;

/// Builds a value from an iterator's items. It fails at the first item that is an error, or whose
/// event can't follow the preceding ones, and takes no item after that one.
pub(crate) fn collect<E: AnyEvent, I: Iterator<Item = Result<E, Error>> + Drop>(
    alloc: Global,
    items: I,
) -> Result<Value, Error>
    requires can { I.can_next items }
    requires ends { IsFinite (I.remaining items) }
    ensures value { Collects E.plain I.next_gives items (built_tree result) }
    ensures shown { AnswersAsPredicted E.plain I.next_gives items (built_tree result) }
{
    let mut rest = items;
    let mut builder = Builder::new(alloc);
    while let Some(item) = rest.next() {
        item?.write_to(&mut builder)?;
    }
    builder.finish()
}

// A visitor that builds a value.
#[derive(Drop)]
struct ValueVisitor {
    builder: Builder,
    // The error of the event that the builder rejected, or `Ok`.
    result: Result<(), Error>,
}

impl ValueVisitor {
    ghost use Rattle.std.specs.Prelude.{◌≡◌};
    ghost use Rattle.plist.specs.Builder.{IsRejectedWith};

    // Stores the error of an event that the builder rejected. It is a function of its own, since
    // locals are zeroed at every call, and an error is large.
    fn fail(&mut self, rejection: AddError)
        ensures error { IsRejectedWith self.new.result rejection }
        ensures builder { self.new.builder ≡ self.old.builder }
    {
        self.result = Err(rejection.kind().without_position());
    }
}

impl EventVisitor for ValueVisitor {
    ghost use Rattle.plist.specs.Builder.{BuildsEvent};

    ghost step = { BuildsEvent };

    fn event(&mut self, event: Event<'_>) -> ControlFlow<()> {
        match self.builder.add(event) {
            Ok(()) => ControlFlow::Continue(()),
            Err(rejection) => {
                self.fail(rejection);
                ControlFlow::Break(())
            }
        }
    }
}

/// Builds a value from the events that a source hands over. It fails at the first error that
/// replaces an event, or at the first event that can't follow the preceding ones, and visits no
/// further.
pub(crate) fn collect_visited<S: EventSource>(alloc: Global, source: &mut S) -> Result<Value, Error>
    ensures { CollectsTo (λ event. event) S.yields source.old (built_tree result) source.new }
{
    let mut visitor = ValueVisitor {
        builder: Builder::new(alloc),
        result: Ok(()),
    };
    source.visit(&mut visitor)?;
    let ValueVisitor {
        mut builder,
        result,
    } = visitor;
    result?;
    builder.finish()
}
