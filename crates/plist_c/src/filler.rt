//! The visitor that fills the caller's memory.

ghost use Rattle.std.specs.Prelude.{◌≡◌, length};
ghost use Rattle.plist_base.specs.Events.{event_of, text_or_data};
ghost use Rattle.plist_c.specs.Flat.{IsUtf8Event, flat_integer, flat_of, flat_real, flat_start};

use crate::flat::{FlatEvent, ReadLimits};
use crate::order::Order;
use crate::stop::{Full, Halt};
use plist_base::{Event, EventShape, EventVisitor, Integer, Limit, RealBits};
use std::ops::ControlFlow;

/// A visitor that stores the record of every event, and the bytes of its string or data, in the
/// caller's memory, until an event exceeds a limit, can't come next, or has no room.
#[derive(Drop)]
pub(crate) struct Filler<'a> {
    pub(crate) limits: ReadLimits,
    // Which events can come next.
    pub(crate) order: &'a mut Order,
    // How many collections are open.
    pub(crate) level: u64,
    pub(crate) events: &'a mut [FlatEvent],
    pub(crate) bytes: &'a mut [u8],
    // How many records are stored.
    pub(crate) count: usize,
    // How many bytes are stored.
    pub(crate) used: usize,
    // Why the last event wasn't taken, once the filler has returned `Break`.
    pub(crate) stop: Halt,
}

// Returns the record of a start.
#[inline(always)]
fn flat_start(kind: u64, length: Option<u64>) -> FlatEvent
    ensures { result ≡ flat_start kind length }
{
    match length {
        None => FlatEvent {
            kind,
            number: 0,
            size: 0,
        },
        Some(length) => FlatEvent {
            kind,
            number: length,
            size: 1,
        },
    }
}

// Returns the record of an integer.
#[inline(always)]
fn flat_integer(value: Integer) -> FlatEvent
    ensures { result ≡ flat_integer value }
{
    match value.as_unsigned() {
        Some(number) => FlatEvent {
            kind: 7,
            number,
            size: 0,
        },
        None => FlatEvent {
            kind: 7,
            number: value.as_signed().unwrap().cast_unsigned(),
            size: 1,
        },
    }
}

// Returns the record of a real.
#[inline(always)]
fn flat_real(bits: RealBits) -> FlatEvent
    ensures { result ≡ flat_real bits }
{
    match bits {
        RealBits::Four(bytes) => FlatEvent {
            kind: 8,
            number: u64::from(u32::from_be_bytes(bytes)),
            size: 4,
        },
        RealBits::Eight(bytes) => FlatEvent {
            kind: 8,
            number: u64::from_be_bytes(bytes),
            size: 8,
        },
    }
}

// Returns the record of an event, given where its string or data begins and how long it is.
#[inline(always)]
fn flat_of(event: &Event<'_>, place: u64, size: u64) -> FlatEvent
    requires { size ≡ length (text_or_data (event_of event.now)) }
    ensures { result ≡ flat_of place (event_of event.now) }
{
    let none = 0;
    match event {
        Event::StartArray(length) => flat_start(1, *length),
        Event::StartDictionary(length) => flat_start(2, *length),
        Event::EndCollection => FlatEvent {
            kind: 3,
            number: none,
            size: none,
        },
        Event::Boolean(value) => FlatEvent {
            kind: 4,
            number: u64::from(*value),
            size: none,
        },
        Event::Data(_) => FlatEvent {
            kind: 5,
            number: place,
            size,
        },
        Event::Date(date) => FlatEvent {
            kind: 6,
            number: u64::from_be_bytes(date.to_plist_real()),
            size: none,
        },
        Event::Integer(value) => flat_integer(*value),
        Event::Real(bits) => flat_real(*bits),
        Event::String(_) => FlatEvent {
            kind: 9,
            number: place,
            size,
        },
        Event::Uid(uid) => FlatEvent {
            kind: 10,
            number: uid.get(),
            size: none,
        },
    }
}

// Returns the bytes of a string or of data, and no bytes for any other event.
#[inline(always)]
fn content_of<'e>(event: &'e Event<'_>) -> &'e [u8]
    ensures content { result.now ≡ text_or_data (event_of event.now) }
    ensures utf8 { IsUtf8Event (event_of event.now) }
{
    match event {
        Event::String(text) => text.as_str().as_bytes(),
        Event::Data(bytes) => bytes.as_slice(),
        Event::StartArray(_)
        | Event::StartDictionary(_)
        | Event::EndCollection
        | Event::Boolean(_)
        | Event::Date(_)
        | Event::Integer(_)
        | Event::Real(_)
        | Event::Uid(_) => &[],
    }
}

impl<'a> Filler<'a> {
    ghost use Rattle.std.specs.Prelude.{◌≡◌, ◌+◌, ◌<◌, ◌≤◌, [], None, Some, IfErr, IfOk, OnErr, OnOk, length, take};
    ghost use Rattle.plist_base.specs.Events.{event_of, shape_of, text_or_data};
    ghost use Rattle.plist_base.specs.Limits.{level_after};
    ghost use Rattle.plist_c.specs.inner.Filling.{IsSameFiller, IsStopOf, StoresBytes, StoresNone, Takes, full_of, limit_of};

    // Returns how many collections are open after an event, or the limit that it exceeds.
    #[inline(always)]
    fn level_after(&self, event: &Event<'_>) -> Result<u64, Limit>
        ensures level { IfOk result (λ level.
            level ≡ level_after (shape_of (event_of event.now)) self.now.level) }
        ensures within { IfOk result (λ _. limit_of self.now (event_of event.now) ≡ None) }
        ensures exceeded { IfErr result (λ limit.
            limit_of self.now (event_of event.now) ≡ Some limit) }
    {
        if self.count as u64 >= self.limits.events {
            return Err(Limit::Items);
        }
        match event.shape() {
            EventShape::StartArray | EventShape::StartDictionary => {
                if self.level >= self.limits.depth {
                    return Err(Limit::Depth);
                }
                Ok(self.level + 1)
            }
            EventShape::EndCollection => Ok(self.level.saturating_sub(1)),
            EventShape::Scalar => Ok(self.level),
        }
    }

    // Returns how many bytes are stored after an event with this many, or what has no room for it.
    #[inline(always)]
    fn room_for(&self, size: usize) -> Result<usize, Full>
        ensures room { IfOk result (λ end. full_of self.now size ≡ None) }
        ensures end { IfOk result (λ end. end ≡ self.now.used + size) }
        ensures full { IfErr result (λ full. full_of self.now size ≡ Some full) }
    {
        let limit = self.limits.bytes;
        if self.count >= self.events.len() {
            return Err(Full::Events);
        }
        let Some(end) = self.used.checked_add(size) else {
            return Err(Full::Limit);
        };
        if end as u64 > limit {
            return Err(Full::Limit);
        }
        if end > self.bytes.len() {
            return Err(Full::Bytes);
        }
        Ok(end)
    }

    // Stores a record and its bytes, for which there is room.
    #[inline(always)]
    fn store(&mut self, flat: FlatEvent, content: &[u8])
        requires record { self.old.count < length self.old.events.now }
        requires bytes { self.old.used + length content.now ≤ length self.old.bytes.now }
        ensures same { IsSameFiller self.old self.new }
        ensures stored { StoresBytes self.old flat content.now self.new }
        ensures level { self.new.level ≡ self.old.level }
        ensures order { self.new.order.now ≡ self.old.order.now }
    {
        let end = self.used + content.len();
        self.bytes[self.used..end].copy_from_slice(content);
        self.events[self.count] = flat;
        self.count += 1;
        self.used = end;
    }

    // Stores the record and the bytes of an event, or returns why it isn't taken.
    #[inline(always)]
    fn take(&mut self, event: &Event<'_>) -> Result<(), Halt>
        ensures same { IsSameFiller self.old self.new }
        ensures taken { OnOk result (Takes self.old (event_of event.now) self.new) }
        ensures refused { IfErr result (IsStopOf self.old (event_of event.now)) }
        ensures kept { OnErr result (StoresNone self.old self.new) }
    {
        let level = match self.level_after(event) {
            Ok(level) => level,
            Err(limit) => return Err(Halt::Limit(limit)),
        };
        self.order.take(event)?;
        let content = content_of(event);
        match self.room_for(content.len()) {
            Ok(_) => {
                let flat = flat_of(event, self.used as u64, content.len() as u64);
                self.store(flat, content);
                self.level = level;
                Ok(())
            }
            Err(full) => Err(Halt::Full(full)),
        }
    }
}

impl<'a> EventVisitor for Filler<'a> {
    ghost use Rattle.plist_c.specs.inner.Filling.{FillsEvent};

    ghost step = { FillsEvent };

    #[inline(always)]
    fn event(&mut self, event: Event<'_>) -> ControlFlow<()> {
        match self.take(&event) {
            Ok(()) => ControlFlow::Continue(()),
            Err(stop) => {
                self.stop = stop;
                ControlFlow::Break(())
            }
        }
    }
}
