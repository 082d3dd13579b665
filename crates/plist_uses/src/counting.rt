//! Counting the content of a file, without building its value.

ghost use Rattle.std.specs.Prelude.{◌≡◌, Err, IfErr, IfSome, OnOk};
ghost use Rattle.plist_base.specs.Events.{event_of, item_of};
ghost use Rattle.plist_reader.specs.Reader.{items_of_input};
ghost use Rattle.plist_uses.specs.Counting.{AreCountedOf, CountsItem, CountsOne, IsRefusedBy, nothing};

use plist::Error;
use plist::stream::reading::EventShape;
use plist::stream::{OwnedEvent, Reader, Source};
use std::alloc::Global;

/// The numbers of arrays, dictionaries, strings and other scalars. The keys of a dictionary count
/// as strings. No count exceeds `u64::MAX`.
#[derive(Clone, Copy)]
pub struct Counts {
    pub arrays: u64,
    pub dictionaries: u64,
    pub texts: u64,
    pub others: u64,
}

impl Counts {
    fn none() -> Counts
        ensures { result ≡ nothing }
    {
        Counts {
            arrays: 0,
            dictionaries: 0,
            texts: 0,
            others: 0,
        }
    }

    // Counts an item's event, or returns its error.
    fn take(&mut self, item: Result<OwnedEvent, Error>) -> Result<(), Error>
        ensures counted { OnOk result (CountsItem (item_of item.entry) self.old self.new) }
        ensures refused { IfErr result (λ error. item.entry ≡ Err error) }
    {
        let event = item?;
        self.count(&event);
        Ok(())
    }

    fn count(&mut self, event: &OwnedEvent)
        ensures { CountsOne (event_of event.now) self.old self.new }
    {
        if let OwnedEvent::String(_) = event {
            self.texts = self.texts.saturating_add(1);
            return;
        }
        match event.shape() {
            EventShape::StartArray => self.arrays = self.arrays.saturating_add(1),
            EventShape::StartDictionary => self.dictionaries = self.dictionaries.saturating_add(1),
            EventShape::EndCollection => {}
            EventShape::Scalar => self.others = self.others.saturating_add(1),
        }
    }
}

/// Counts the content of a property list, binary or in ASCII. It keeps no events, so it needs no
/// more memory than the reader does, however large the file is.
///
/// # Errors
///
/// The first error that [`Reader`] yields.
pub fn count<R: Source>(alloc: Global, source: R) -> Result<Counts, Error>
    ensures value { IfSome (R.known source) (λ bytes. AreCountedOf (items_of_input bytes) result) }
    ensures refused { IfSome (R.known source) (λ bytes. IsRefusedBy (items_of_input bytes) result) }
{
    let mut counts = Counts::none();
    let mut reader = Reader::new(alloc, source);
    while let Some(item) = reader.next() {
        counts.take(item)?;
    }
    Ok(counts)
}
