//! A filter of events, which drops and renames keys, and writes the other events.

use crate::failure::Failure;
use crate::options::Options;
use crate::stats::Stats;
use plist::Error;
use plist::stream::{Event, OwnedEvent, Reader, Source, Writer};
use std::alloc::Global;
use std::borrow::CowStr;

// An open collection: an array with the next index, or a dictionary with the key that was read.
#[derive(Drop)]
enum Level {
    Array(u64),
    Dictionary(Option<String>),
}

// A filter, with the writer that takes the remaining events.
#[derive(Drop)]
struct Filter<'o, W: Writer> {
    alloc: Global,
    options: &'o Options,
    writer: W,
    levels: Vec<Level>,
    // The number of open collections in the item that is being dropped.
    dropping: Option<usize>,
    stats: Stats,
    read: u64,
    written: u64,
}

// Returns the number of open collections after an event of an item that is being dropped, or `None`
// after its end.
fn open_after(open: usize, event: &Event<'_>) -> Option<usize> {
    let open = match event {
        Event::StartArray(_) | Event::StartDictionary(_) => open.saturating_add(1),
        Event::EndCollection => open.saturating_sub(1),
        _ => open,
    };
    Some(open).filter(|open| *open > 0)
}

// Returns the key that an event is.
fn key_in(alloc: Global, event: OwnedEvent) -> Result<Option<String>, Error> {
    match event {
        Event::String(text) => Ok(Some(text.into_owned(alloc)?)),
        _ => Ok(None),
    }
}

fn write_text<W: Writer>(writer: &mut W, text: &str) -> Result<(), Failure> {
    writer.write(Event::String(CowStr::Borrowed(text)))?;
    Ok(())
}

impl<'o, W: Writer> Filter<'o, W> {
    fn new(alloc: Global, options: &'o Options, writer: W) -> Self {
        Filter {
            alloc,
            options,
            writer,
            levels: Vec::new(alloc),
            dropping: None,
            stats: Stats::new(alloc),
            read: 0,
            written: 0,
        }
    }

    // Returns whether the next item is at a path that is dropped.
    fn is_dropped(&self) -> Result<bool, Error> {
        let mut names = Vec::new(self.alloc);
        for level in &self.levels {
            names.push(match level {
                Level::Array(index) => CowStr::Owned(index.to_string(self.alloc)?),
                Level::Dictionary(key) => CowStr::Borrowed(key.as_deref().unwrap_or("")),
            })?;
        }
        Ok(
            self.options.drops.iter().any(|path| {
                path.len() == names.len()
                    && path
                        .iter()
                        .zip(&names)
                        .all(|(step, name)| step.takes(name.as_str()))
            }),
        )
    }

    fn write(&mut self, event: Event<'_>) -> Result<(), Failure> {
        self.written = self.written.saturating_add(1);
        self.writer.write(event)?;
        Ok(())
    }

    // Takes the next event.
    fn take(&mut self, event: OwnedEvent) -> Result<(), Failure> {
        self.read = self.read.saturating_add(1);
        if self.read > self.options.items {
            return Err(Failure::TooLong(self.options.items));
        }
        self.stats.count(self.alloc, &event)?;
        if let Some(open) = self.dropping {
            self.dropping = open_after(open, &event);
            return Ok(());
        }
        if let Event::EndCollection = event {
            self.levels.pop();
            self.complete_item();
            return self.write(event);
        }
        match self.levels.last_mut() {
            Some(Level::Dictionary(key @ None)) => {
                *key = key_in(self.alloc, event)?;
                Ok(())
            }
            _ => self.take_item(event),
        }
    }

    // Takes a scalar or the start of a collection, and writes it unless it is dropped.
    fn take_item(&mut self, event: OwnedEvent) -> Result<(), Failure> {
        if self.is_dropped()? {
            self.stats.dropped = self.stats.dropped.saturating_add(1);
            self.dropping = open_after(0, &event);
            self.complete_item();
            return Ok(());
        }
        self.write_key()?;
        match event {
            Event::StartArray(_) => self.open(Level::Array(0), Event::StartArray(None)),
            Event::StartDictionary(_) => {
                self.open(Level::Dictionary(None), Event::StartDictionary(None))
            }
            other => {
                self.complete_item();
                self.write(other)
            }
        }
    }

    // Writes the key of the next item, or its new name, if it has one.
    fn write_key(&mut self) -> Result<(), Failure> {
        let Some(Level::Dictionary(Some(key))) = self.levels.last() else {
            return Ok(());
        };
        self.written = self.written.saturating_add(1);
        match self.options.renames.get(key) {
            Some(new) => {
                self.stats.renamed = self.stats.renamed.saturating_add(1);
                write_text(&mut self.writer, new.as_str())
            }
            None => write_text(&mut self.writer, key.as_str()),
        }
    }

    // Writes the start of a collection.
    fn open(&mut self, level: Level, start: Event<'_>) -> Result<(), Failure> {
        if self.levels.len() == self.options.depth {
            return Err(Failure::TooDeep(self.options.depth));
        }
        self.levels.push(level)?;
        self.stats.deepest = self.stats.deepest.max(self.levels.len());
        self.write(start)
    }

    // An item of the innermost collection is complete.
    fn complete_item(&mut self) {
        match self.levels.last_mut() {
            Some(Level::Array(index)) => *index = index.saturating_add(1),
            Some(Level::Dictionary(key)) => *key = None,
            None => {}
        }
    }
}

/// Writes the events of a source that the options don't drop.
///
/// # Errors
///
/// - The first error of the source or of the writer.
/// - `TooDeep` and `TooLong` if the source exceeds a limit, and `NothingLeft` if nothing is
///   written.
pub fn filter_events<S: Source, W: Writer + Drop>(
    alloc: Global,
    source: S,
    writer: W,
    options: &Options,
) -> Result<Stats, Failure> {
    let mut filter = Filter::new(alloc, options, writer);
    for event in Reader::new(alloc, source) {
        filter.take(event?)?;
    }
    if filter.written == 0 {
        return Err(Failure::NothingLeft);
    }
    Ok(filter.stats)
}
