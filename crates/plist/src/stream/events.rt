//! The events of a value.

ghost use Rattle.std.specs.Prelude.{◌≡◌, ◌∷◌, ◌++◌, None, OnErr, OnOk, Some, []};
ghost use Rattle.plist_base.specs.Bracketing.{bracketing};
ghost use Rattle.plist_base.specs.Events.{EndCollection};
ghost use Rattle.plist_base.specs.Outcomes.{OnlyMemory};
ghost use Rattle.plist.specs.Events.{left_of_level, remaining_events};
ghost use Rattle.plist.specs.ValueTrees.{tree_of};

use crate::Value;
use crate::dictionary::Iter;
use plist_base::{Error, ErrorKind, Event, EventSource, EventVisitor, Visited};
use std::alloc::Global;
use std::borrow::{CowSlice, CowStr};
use std::ops::ControlFlow;

// An open collection, with its remaining contents.
#[derive(Drop)]
enum Level<'a> {
    Array(&'a [Value]),
    Dictionary(Iter<'a>),
}

/// An iterator over the events of a value, depth first: every start has its length, and strings and
/// data are borrowed from the value.
///
/// # Errors
///
/// `OutOfMemory`, without an offset, in place of a start if an allocation fails. The iterator has
/// ended then. No other event allocates memory.
#[derive(Drop)]
pub struct Events<'a> {
    value: Option<&'a Value>,
    levels: Vec<Level<'a>>,
}

impl<'a> Events<'a> {
    ghost use Rattle.plist.specs.Events.{GivesEventOf};

    pub(crate) fn new(alloc: Global, value: &'a Value) -> Events<'a>
        ensures { remaining_events result ≡ bracketing (tree_of value.now) }
    {
        Events {
            value: Some(value),
            levels: Vec::new(alloc),
        }
    }

    // Opens a collection. If an allocation fails, no events remain.
    fn open(&mut self, level: Level<'a>) -> Result<(), Error>
        requires { self.old.value ≡ None }
        ensures opened { OnOk result (remaining_events self.new
            ≡ left_of_level level.entry ++ EndCollection ∷ remaining_events self.old) }
        ensures memory { OnlyMemory result }
        ensures nothing { OnErr result (remaining_events self.new ≡ []) }
    {
        match self.levels.push(level) {
            Ok(()) => Ok(()),
            Err(_) => {
                self.levels.clear();
                Err(ErrorKind::OutOfMemory.without_position())
            }
        }
    }

    // Returns the first event of a value. Its other events remain to be yielded.
    #[inline(always)]
    fn begin(&mut self, value: &'a Value) -> Result<Event<'a>, Error>
        requires { self.old.value ≡ None }
        ensures { GivesEventOf (bracketing (tree_of value.now) ++ remaining_events self.old)
            (Some result) self.new }
    {
        match value {
            Value::Array(items) => {
                self.open(Level::Array(items.as_slice()))?;
                Ok(Event::StartArray(Some(items.len() as u64)))
            }
            Value::Dictionary(pairs) => {
                self.open(Level::Dictionary(pairs.iter()))?;
                Ok(Event::StartDictionary(Some(pairs.len() as u64)))
            }
            Value::Boolean(value) => Ok(Event::Boolean(*value)),
            Value::Data(bytes) => Ok(Event::Data(CowSlice::Borrowed(bytes.as_slice()))),
            Value::Date(date) => Ok(Event::Date(*date)),
            Value::Real(bits) => Ok(Event::Real(*bits)),
            Value::Integer(value) => Ok(Event::Integer(*value)),
            Value::String(text) => Ok(Event::String(CowStr::Borrowed(text.as_str()))),
            Value::Uid(uid) => Ok(Event::Uid(*uid)),
        }
    }
}

impl<'a> Iterator for Events<'a> {
    type Item = Result<Event<'a>, Error>;

    ghost use Rattle.std.specs.Iterator.{at_most};
    ghost use Rattle.std.specs.Prelude.{length};
    ghost use Rattle.plist.specs.Events.{GivesEvent, remaining_events};

    ghost next_gives = { GivesEvent };

    ghost remaining = { λ events. at_most (length (remaining_events events)) };

    fn next(&mut self) -> Option<Result<Event<'a>, Error>> {
        if let Some(value) = self.value.take() {
            return Some(self.begin(value));
        }
        match self.levels.pop()? {
            Level::Array(items) => match items.split_first() {
                None => Some(Ok(Event::EndCollection)),
                Some((value, others)) => {
                    self.levels.push_reserved(Level::Array(others));
                    Some(self.begin(value))
                }
            },
            Level::Dictionary(mut pairs) => match pairs.next() {
                None => Some(Ok(Event::EndCollection)),
                Some((key, value)) => {
                    self.levels.push_reserved(Level::Dictionary(pairs));
                    self.value = Some(value);
                    Some(Ok(Event::String(CowStr::Borrowed(key.as_str()))))
                }
            },
        }
    }
}

impl<'a> EventSource for Events<'a> {
    ghost use Rattle.plist_base.specs.Visits.{YieldsPlain};
    ghost use Rattle.plist.specs.Events.{GivesEvent};

    ghost yields = { YieldsPlain GivesEvent };

    fn visit<V: EventVisitor>(&mut self, visitor: &mut V) -> Result<Visited, Error> {
        while let Some(item) = self.next() {
            match item {
                Ok(event) => match visitor.event(event) {
                    ControlFlow::Continue(()) => {}
                    ControlFlow::Break(()) => return Ok(Visited::Stopped),
                },
                Err(error) => return Err(error),
            }
        }
        Ok(Visited::Ended)
    }
}
