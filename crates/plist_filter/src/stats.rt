//! What a filter has read and changed.

use plist::Error;
use plist::stream::Event;
use std::alloc::Global;
use std::cmp::Reverse;
use std::collections::HashMap;
use std::io;
use std::io::Write;

/// What a filter has read and changed.
#[derive(Drop)]
pub struct Stats {
    kinds: HashMap<&'static str, u64>,
    pub dropped: u64,
    pub renamed: u64,
    pub deepest: usize,
    text_bytes: usize,
    first_date: Option<String>,
}

impl Stats {
    /// Creates the numbers of a filter that has read nothing.
    pub fn new(alloc: Global) -> Self {
        Stats {
            kinds: HashMap::new(alloc),
            dropped: 0,
            renamed: 0,
            deepest: 0,
            text_bytes: 0,
            first_date: None,
        }
    }

    /// Counts an event.
    ///
    /// # Errors
    ///
    /// `OutOfMemory` if an allocation fails, and `YearOutOfRange` for a date that has no text.
    pub fn count(&mut self, alloc: Global, event: &Event<'_>) -> Result<(), Error> {
        let count = self.kinds.entry(kind(event))?.or_insert(0);
        *count = count.saturating_add(1);
        match event {
            Event::String(text) => {
                self.text_bytes = self.text_bytes.saturating_add(text.len());
            }
            Event::Data(bytes) => {
                self.text_bytes = self.text_bytes.saturating_add(bytes.len());
            }
            Event::Date(date) => {
                let text = date.start_of_second().to_xml_format(alloc)?;
                match &self.first_date {
                    Some(first) if *first <= text => {}
                    _ => self.first_date = Some(text),
                }
            }
            _ => {}
        }
        Ok(())
    }

    /// Prints the numbers, the most frequent kinds of events first.
    ///
    /// # Errors
    ///
    /// The error of the write, or of an allocation that fails.
    pub fn print<W: Write>(&self, alloc: Global, out: &mut W) -> io::Result<()> {
        let mut kinds: Vec<_> = self.kinds.iter().collect(alloc)?;
        kinds.sort_by_key(|&(name, count)| (Reverse(*count), *name))?;
        for (name, count) in kinds {
            writeln!(out, "{name:>10}: {count}")?;
        }
        writeln!(
            out,
            "dropped {}, renamed {}, depth {}",
            self.dropped, self.renamed, self.deepest
        )?;
        writeln!(out, "{} bytes of text and data", self.text_bytes)?;
        if let Some(date) = self.first_date.as_deref() {
            writeln!(out, "first date {date}")?;
        }
        Ok(())
    }
}

// Returns the kind of an event, as a word.
fn kind(event: &Event<'_>) -> &'static str {
    match event {
        Event::StartArray(_) => "array",
        Event::StartDictionary(_) => "dictionary",
        Event::EndCollection => "end",
        Event::Boolean(_) => "boolean",
        Event::Data(_) => "data",
        Event::Date(_) => "date",
        Event::Integer(_) => "integer",
        Event::Real(_) => "real",
        Event::String(_) => "string",
        Event::Uid(_) => "uid",
    }
}
