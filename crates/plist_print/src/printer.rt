//! Defines a visitor that prints every event on a line of its own.

ghost use Rattle.std.specs.Prelude.{◌≡◌, ◌++◌, ◌+◌, ◌*◌, ◌≤◌, [], codes, false, length, true};
ghost use Rattle.plist_base.specs.Events.{EndCollection, ScalarEvent};
ghost use Rattle.plist_base.specs.FixedBuffers.{room, buffer_capacity};
ghost use Rattle.plist_base.specs.PackedScalars.{scalar_of_packed};
ghost use Rattle.plist_base.specs.Sinks.{Puts};
ghost use Rattle.plist_base.specs.Trees.{Data, String};
ghost use Rattle.plist_base.specs.Utf16Strings.{chars_left, string_of_utf16};
ghost use Rattle.plist_print.specs.EscapedLines.{escaped_chars, in_notation, text_of_start};
ghost use Rattle.plist_print.specs.PrintRuns.{PrintsRun};

use crate::lines::{
    MAX_FIXED_LINE, MAX_PACKED_LINE, Notation, push_bytes, push_data, push_packed, push_start,
};
use crate::plain_bytes::{push_plain_line, push_text_line};
use crate::utf16::push_chars;
use plist_base::{
    Error, Event, EventSource, EventVisitor, PackedScalar, Sink, Utf16Chars, Utf16Str,
};
use std::borrow::{CowSlice, CowStr};
use std::io::Write;
use std::ops::ControlFlow;

// The line of a string or data of at most this many bytes fits into an empty buffer, even if each
// byte is escaped.
const MOST_AT_ONCE: usize = 16_368;

// The line of a string in UTF-16 of at most this many bytes fits into an empty buffer, even if each
// character has three bytes in UTF-8 and each of these is escaped.
const MOST_AT_ONCE_UTF16: usize = 10_912;

// A longer string or data is printed in blocks of this many bytes.
const BLOCK: usize = 4096;

// The line of a long string or data, in parts.
#[derive(Clone, Copy)]
struct Parts<'b> {
    word: &'b [u8],
    bytes: &'b [u8],
    notation: Notation,
    end: &'b [u8],
}

// Puts the printed form of a block of a string or data into the sink.
fn put_block<W: Write>(sink: &mut Sink<'_, W>, block: &[u8], notation: Notation)
    requires { length block.now ≤ 4096 }
    ensures { Puts W.contents sink.old (in_notation notation block.now) sink.new }
{
    sink.make_room(4 * BLOCK);
    push_bytes(sink.buffer, block, notation);
}

// Puts the printed form of a string or data into the sink, block by block, unless a write fails.
fn put_blocks<W: Write>(sink: &mut Sink<'_, W>, bytes: &[u8], notation: Notation)
    ensures { Puts W.contents sink.old (in_notation notation bytes.now) sink.new }
{
    let mut rest = bytes;
    while let Some((block, others)) = rest.split_first_chunk::<BLOCK>() {
        if !sink.is_open() {
            return;
        }
        put_block(sink, block, notation);
        rest = others;
    }
    put_block(sink, rest, notation);
}

/// A visitor that prints every event on a line of its own.
///
/// Lines are pending in the buffer until the next one might not fit. They are written before that
/// one is pushed, so the buffer never grows.
#[derive(Drop)]
pub struct Printer<'p, W> {
    pub sink: Sink<'p, W>,
}

impl<'p, W: Write> Printer<'p, W> {
    ghost use Rattle.std.specs.declared.ops.ControlFlow.TheVariants.{Break, Continue};
    ghost use Rattle.plist_base.specs.Sinks.{IsSameSink, is_open, pending};
    ghost use Rattle.plist_print.specs.Printers.{PrintsBytes, PrintsLine};

    // Returns `Break` if a write has failed.
    fn flow(&self) -> ControlFlow<()>
        ensures working { result ≡ Continue tt → is_open self.now.sink ≡ true }
        ensures stopped { result ≡ Break tt → is_open self.now.sink ≡ false }
    {
        if self.sink.is_open() {
            ControlFlow::Continue(())
        } else {
            ControlFlow::Break(())
        }
    }

    // Writes the lines that are pending.
    #[cold]
    #[inline(never)]
    fn write_pending(&mut self) -> ControlFlow<()>
        ensures put { PrintsBytes W.contents self.old [] result self.new }
        ensures room { room self.new.sink.buffer.now ≡ buffer_capacity }
    {
        self.sink.write_pending();
        self.flow()
    }

    // Makes room for `size` more bytes, by writing the pending lines if there isn't enough.
    #[inline(always)]
    fn make_room(&mut self, size: usize) -> ControlFlow<()>
        requires { size ≤ buffer_capacity }
        ensures put { PrintsBytes W.contents self.old [] result self.new }
        ensures room { size ≤ room self.new.sink.buffer.now }
    {
        if size <= self.sink.room() {
            return ControlFlow::Continue(());
        }
        self.write_pending()
    }

    // Prints a start: its word, and the number of items or pairs if it is known.
    #[inline(always)]
    fn print_start<const N: usize>(&mut self, word: [u8; N], count: Option<u64>) -> ControlFlow<()>
        requires { N + 22 ≤ 64 }
        ensures { PrintsBytes W.contents self.old
            (text_of_start word.entry count ++ codes "\n") result self.new }
    {
        let flow = self.make_room(MAX_FIXED_LINE);
        push_start(self.sink.buffer, word, count);
        flow
    }

    // Prints an end.
    #[inline(always)]
    fn print_end(&mut self) -> ControlFlow<()>
        ensures { PrintsLine W.contents self.old EndCollection result self.new }
    {
        let flow = self.make_room(MAX_FIXED_LINE);
        self.sink.buffer.push_array(*b"EndCollection\n");
        flow
    }

    // Prints a scalar that isn't a string or data of more than eight bytes.
    #[inline(always)]
    fn print_packed(&mut self, scalar: PackedScalar) -> ControlFlow<()>
        ensures { PrintsLine W.contents self.old (ScalarEvent (scalar_of_packed scalar)) result
            self.new }
    {
        let flow = self.make_room(MAX_PACKED_LINE);
        push_packed(self.sink.buffer, scalar);
        flow
    }

    // Prints a line in parts: its word, its bytes in blocks, and its end.
    #[cold]
    #[inline(never)]
    fn print_parts(&mut self, line: &Parts<'_>) -> ControlFlow<()>
        ensures { PrintsBytes W.contents self.old (line.now.word.now
            ++ in_notation line.now.notation line.now.bytes.now ++ line.now.end.now)
            result self.new }
    {
        self.sink.put(line.word);
        put_blocks(&mut self.sink, line.bytes, line.notation);
        self.sink.put(line.end);
        self.flow()
    }

    // Prints a long string in parts. This is a separate function because the memory of `Parts` is
    // zeroed on every call.
    #[cold]
    #[inline(never)]
    fn print_long_text(&mut self, text: &str) -> ControlFlow<()>
        ensures { PrintsLine W.contents self.old (ScalarEvent (String text.now)) result self.new }
    {
        self.print_parts(&Parts {
            word: b"String \"",
            bytes: text.as_bytes(),
            notation: Notation::Text,
            end: b"\"\n",
        })
    }

    // Prints a string.
    #[inline(always)]
    fn print_text(&mut self, text: &str) -> ControlFlow<()>
        ensures { PrintsLine W.contents self.old (ScalarEvent (String text.now)) result self.new }
    {
        if text.len() > MOST_AT_ONCE {
            return self.print_long_text(text);
        }
        let flow = self.make_room(4 * text.len() + MAX_FIXED_LINE);
        push_text_line(self.sink.buffer, text.as_bytes());
        flow
    }

    // Prints the characters that an iterator still has to yield, and the end of the line. The
    // pending bytes are written whenever the buffer is full.
    fn print_chars(&mut self, chars: &mut Utf16Chars<'_>) -> ControlFlow<()>
        requires { 32 ≤ room self.old.sink.buffer.now }
        ensures { PrintsBytes W.contents self.old
            (escaped_chars (chars_left chars.old) ++ codes "\"\n") result self.new }
    {
        while !push_chars(self.sink.buffer, chars) {
            self.write_pending()?;
        }
        self.sink.buffer.push(b"\"\n");
        ControlFlow::Continue(())
    }

    // Prints a string in UTF-16. The line of a short one is never written in two parts.
    fn print_utf16(&mut self, text: Utf16Str<'_>) -> ControlFlow<()>
        ensures { PrintsLine W.contents self.old
            (ScalarEvent (String (string_of_utf16 text.entry))) result self.new }
    {
        let at_once = text.as_bytes().len().min(MOST_AT_ONCE_UTF16);
        self.make_room(6 * at_once + MAX_FIXED_LINE)?;
        self.sink.buffer.push(b"String \"");
        self.print_chars(&mut text.chars())
    }

    // Prints data.
    #[inline(never)]
    fn print_data(&mut self, bytes: &[u8]) -> ControlFlow<()>
        ensures { PrintsLine W.contents self.old (ScalarEvent (Data bytes.now)) result self.new }
    {
        if bytes.len() > MOST_AT_ONCE {
            return self.print_parts(&Parts {
                word: b"Data ",
                bytes,
                notation: Notation::Hexadecimal,
                end: b"\n",
            });
        }
        let flow = self.make_room(2 * bytes.len() + MAX_FIXED_LINE);
        push_data(self.sink.buffer, bytes);
        flow
    }

    /// Prints the remaining events of a source, and writes all lines, also those before an error of
    /// the source. If a write fails, its error is returned, and nothing more is written.
    pub fn print_all<I: EventSource>(&mut self, source: &mut I) -> Result<(), Error>
        requires { pending self.old.sink ≡ [] }
        ensures ran { PrintsRun I.yields source.old result source.new
            (W.contents self.old.sink.writer.now) (W.contents self.new.sink.writer.now) }
        ensures same { IsSameSink self.old.sink self.new.sink }
    {
        let visited = source.visit(self);
        self.sink.write_pending();
        self.sink.result()?;
        visited?;
        Ok(())
    }
}

impl<'p, W: Write> EventVisitor for Printer<'p, W> {
    ghost use Rattle.plist_print.specs.Printers.{PrintsLine};

    ghost step = { PrintsLine W.contents };

    fn event(&mut self, event: Event<'_>) -> ControlFlow<()> {
        if let Some(scalar) = PackedScalar::of_event(&event) {
            return self.print_packed(scalar);
        }
        match event {
            Event::StartArray(length) => self.start_array(length),
            Event::StartDictionary(length) => self.start_dictionary(length),
            Event::EndCollection => self.print_end(),
            Event::Data(bytes) => self.print_data(bytes.as_slice()),
            Event::String(text) => self.print_text(text.as_str()),
            Event::Boolean(_)
            | Event::Date(_)
            | Event::Integer(_)
            | Event::Real(_)
            | Event::Uid(_) => unreachable!(),
        }
    }

    #[inline(always)]
    fn start_array(&mut self, length: Option<u64>) -> ControlFlow<()> {
        self.print_start(*b"StartArray", length)
    }

    #[inline(always)]
    fn start_dictionary(&mut self, length: Option<u64>) -> ControlFlow<()> {
        self.print_start(*b"StartDictionary", length)
    }

    #[inline(always)]
    fn end_collection(&mut self) -> ControlFlow<()> {
        self.print_end()
    }

    #[inline(always)]
    fn packed(&mut self, scalar: PackedScalar) -> ControlFlow<()> {
        self.print_packed(scalar)
    }

    #[inline(always)]
    fn data(&mut self, bytes: CowSlice<'_, u8>) -> ControlFlow<()> {
        self.print_data(bytes.as_slice())
    }

    // A string that doesn't fit into the room is left to `string`, which makes room first.
    #[inline(always)]
    fn ascii_string(&mut self, bytes: &[u8]) -> Option<ControlFlow<()>> {
        let room = self.sink.room();
        if room < MAX_FIXED_LINE || bytes.len() > room - MAX_FIXED_LINE {
            return None;
        }
        if push_plain_line(self.sink.buffer, bytes) {
            return Some(ControlFlow::Continue(()));
        }
        None
    }

    #[inline(always)]
    fn string(&mut self, text: CowStr<'_>) -> ControlFlow<()> {
        self.print_text(text.as_str())
    }

    #[inline(always)]
    fn utf16_string(&mut self, text: Utf16Str<'_>) -> Option<ControlFlow<()>> {
        Some(self.print_utf16(text))
    }
}
