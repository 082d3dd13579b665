//! A value that isn't complete yet: the open collections, and finally the root.

ghost use Rattle.std.specs.Prelude.{◌≡◌, None, MatchOption, OnOk, option_map};
ghost use Rattle.plist_base.specs.Events.{event_of};
ghost use Rattle.plist_base.specs.Faults.{kind_of};
ghost use Rattle.plist.specs.LastWins.{with_pair};
ghost use Rattle.plist.specs.inner.BuilderSteps.{and_tree};
ghost use Rattle.plist.specs.Building.{NotBegun, complete_tree, refusal_at};
ghost use Rattle.plist.specs.UnfinishedValues.{AddsEvent, collections_of, kind_of_add_error, unfinished_of};
ghost use Rattle.plist.specs.ValueTrees.{tree_of};

use crate::Value;
use crate::open_collections::OpenCollections;
use plist_base::{ErrorKind, Event, EventKind};
use plist_buffer::{Expect, Transition};
use std::alloc::{AllocError, Global};

/// The open collections, and the root once it is complete. The values may be deep, and are dropped
/// without recursion.
pub(crate) struct UnfinishedValue {
    collections: OpenCollections,
    root: Option<Value>,
}

impl Drop for UnfinishedValue {
    fn drop(mut self) {
        self.clear();
        let UnfinishedValue {
            collections: _collections,
            root: _root,
        } = self;
    }
}

/// Why an event isn't added. It is small, since locals are zeroed at every call, and an
/// `ErrorKind` is large.
#[derive(Clone, Copy, Drop)]
pub(crate) enum AddError {
    /// The builder has failed.
    Failed,
    /// The event can't follow the preceding ones.
    Unexpected {
        expected: EventKind,
        found: EventKind,
    },
    /// The value is complete.
    AfterEnd {
        found: EventKind,
    },
    /// An allocation failed.
    OutOfMemory,
}

impl AddError {
    /// Returns the kind of error that says this.
    pub(crate) fn kind(self) -> ErrorKind
        ensures { kind_of result ≡ kind_of_add_error self }
    {
        match self {
            AddError::Failed => ErrorKind::WriterFailed,
            AddError::Unexpected { expected, found } => {
                ErrorKind::UnexpectedEventType { expected, found }
            }
            AddError::AfterEnd { found } => ErrorKind::ExpectedEndOfEventStream { found },
            AddError::OutOfMemory => ErrorKind::OutOfMemory,
        }
    }
}

impl UnfinishedValue {
    /// Creates an unfinished value without events.
    pub(crate) fn new(alloc: Global) -> UnfinishedValue
        ensures { unfinished_of result ≡ NotBegun }
    {
        UnfinishedValue {
            collections: OpenCollections::new(alloc),
            root: None,
        }
    }

    /// Drops the collections and the root.
    pub(crate) fn clear(&mut self)
        ensures { unfinished_of self.new ≡ NotBegun }
    {
        self.collections.clear();
        if let Some(root) = self.root.take() {
            root.destroy();
        }
    }

    /// Returns why an event can't follow the preceding ones, or `None` if it can.
    #[tactic(auto, using(crate::proofs::OpenLevels::open_levels))]
    pub(crate) fn refusal(&self, event: &Event<'_>) -> Option<AddError>
        ensures { option_map kind_of_add_error result
            ≡ refusal_at (unfinished_of self.now) (event_of event.now) }
    {
        if self.root.is_some() {
            return Some(AddError::AfterEnd {
                found: EventKind::of_event(event),
            });
        }
        let expect = self.collections.expect();
        match expect.change_by(event) {
            Transition::Refused => Some(AddError::Unexpected {
                expected: match expect {
                    Expect::Pairs => EventKind::DictionaryKeyOrEndCollection,
                    Expect::OneValue | Expect::Items => EventKind::ValueOrStartCollection,
                },
                found: EventKind::of_event(event),
            }),
            Transition::Closed
            | Transition::Kept
            | Transition::Pushed(_)
            | Transition::Replaced(_) => None,
        }
    }

    // Adds a complete value to the innermost collection, or makes it the root.
    fn add(&mut self, value: Value) -> Result<(), AllocError>
        requires { self.old.root ≡ None }
        ensures { OnOk result (unfinished_of self.new
            ≡ and_tree with_pair (tree_of value) (collections_of self.old)) }
    {
        if self.collections.is_empty() {
            self.root = Some(value);
            return Ok(());
        }
        self.collections.add(value)
    }

    /// Adds an event that can follow the preceding ones.
    ///
    /// After a failure the contents are unspecified.
    pub(crate) fn take(&mut self, alloc: Global, event: Event<'_>) -> Result<(), AllocError>
        requires { refusal_at (unfinished_of self.old) (event_of event) ≡ None }
        ensures { OnOk result (AddsEvent self.old (event_of event.entry) self.new) }
    {
        match event {
            Event::StartArray(_) => self.collections.open_array(),
            Event::StartDictionary(_) => self.collections.open_dictionary(alloc),
            Event::EndCollection => match self.collections.close(alloc)? {
                None => Ok(()),
                Some(value) => self.add(value),
            },
            Event::Boolean(value) => self.add(Value::Boolean(value)),
            Event::Data(bytes) => self.add(Value::Data(bytes.into_owned(alloc)?)),
            Event::Date(date) => self.add(Value::Date(date)),
            Event::Integer(value) => self.add(Value::Integer(value)),
            Event::Real(bits) => self.add(Value::Real(bits)),
            Event::String(text) => {
                let text = text.into_owned(alloc)?;
                match self.collections.expect() {
                    Expect::Pairs => {
                        self.collections.add_key(text);
                        Ok(())
                    }
                    Expect::OneValue | Expect::Items => self.add(Value::String(text)),
                }
            }
            Event::Uid(uid) => self.add(Value::Uid(uid)),
        }
    }

    /// Removes and returns the root if it is complete, after which nothing is left.
    pub(crate) fn take_root(&mut self) -> Option<Value>
        ensures root { option_map tree_of result ≡ complete_tree (unfinished_of self.old) }
        ensures left { MatchOption result (self.new ≡ self.old)
            (λ _. unfinished_of self.new ≡ NotBegun) }
    {
        let root = self.root.take()?;
        self.collections.clear();
        Some(root)
    }
}
