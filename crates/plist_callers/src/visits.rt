//! Proved callers of visits: a visit of a slice hands over its events in their order, and `next`
//! continues where a visit stopped.

ghost use Rattle.std.specs.Prelude.{◌≡◌, ◌∷◌, IfSome, List, Ok, map};
ghost use Rattle.plist_base.specs.Events.{Item, PlainEvent, event_of};
ghost use Rattle.plist_base.specs.Unfolding.{items_of_file};
ghost use Rattle.plist_base.specs.VisitedItems.{WantsAll};
ghost use Rattle.plist_reader.specs.Reader.{items_of_input};

use plist_base::{Error, Event, EventSource, EventVisitor, OwnedEvent, Visited};
use plist_binread::BinaryReader;
use plist_reader::Reader;
use std::alloc::Global;
use std::ops::ControlFlow;

/// Hands the events of an input of either format to a visitor. If it is handed all of them, they
/// are all items of the input, in their order.
///
/// # Errors
///
/// Any error of the reader.
pub fn visit_all<V: EventVisitor>(
    alloc: Global,
    bytes: &[u8],
    visitor: &mut V,
) -> Result<Visited, Error>
    ensures { result ≡ Ok Visited.Ended → (events : List PlainEvent)
        × (items_of_input bytes.now ≡ map Ok events) × WantsAll V.step visitor.old events visitor.new }
{
    Reader::new(alloc, bytes).visit(visitor)
}

/// Keeps the first event that it is handed, and stops the visit.
#[derive(Drop)]
pub struct FirstOnly {
    alloc: Global,
    // The event, or `None` if there was none yet, or if an allocation for it failed.
    kept: Option<OwnedEvent>,
}

impl EventVisitor for FirstOnly {
    ghost use Rattle.std.specs.Prelude.{◌≡◌, IfSome};
    ghost use Rattle.std.specs.declared.ops.ControlFlow.TheVariants.{Break};
    ghost use Rattle.plist_base.specs.Events.{event_of};

    ghost step = { λ _ event flow new. (flow ≡ Break tt)
        × IfSome new.kept (λ kept. event_of kept ≡ event) };

    fn event(&mut self, event: Event<'_>) -> ControlFlow<()> {
        self.kept = event.into_owned(self.alloc).ok();
        ControlFlow::Break(())
    }
}

/// Visits the first event of a file, and takes the second one by `next`. They are the first two
/// items of the file, in their order. Returns `None` if they aren't events, or if an allocation
/// fails.
pub fn second_after_a_visit(alloc: Global, file: &[u8]) -> Option<(OwnedEvent, OwnedEvent)>
    ensures { IfSome result (λ events. (others : List Item) × (items_of_file file.now
        ≡ Ok (event_of events.0) ∷ Ok (event_of events.1) ∷ others)) }
{
    let mut reader = BinaryReader::new(alloc, file);
    let mut visitor = FirstOnly { alloc, kept: None };
    match reader.visit(&mut visitor) {
        Ok(Visited::Stopped) => {}
        Ok(Visited::Ended) => return None,
        Err(_error) => return None,
    }
    let first = visitor.kept?;
    match reader.next() {
        Some(Ok(second)) => Some((first, second)),
        Some(Err(_error)) => None,
        None => None,
    }
}
