//! The events that a visitor takes, and which objects are decoded only once, however often they are
//! referred to.

use crate::rows::Row;
use plist_base::{Event, EventSource, EventVisitor, Utf16Str};
use plist_binread::{BinaryReader, DecodeCounter};
use plist_support::{Wrong, expect_same, file, word_of};
use std::alloc::{AllocError, Global};
use std::ops::ControlFlow;

// Counts the small scalars that were decoded.
#[derive(Drop)]
struct Tally {
    raised: u64,
}

// A reader borrows the tally, so that it can be looked at afterwards.
impl<'a> DecodeCounter for &'a mut Tally {
    ghost counts = { ⊥ };

    ghost count = { λ _. 0 };

    fn raise(&mut self) {
        self.raised = self.raised.saturating_add(1);
    }
}

// Adds a word after a blank.
fn add_word(words: &mut String, word: &str) -> Result<(), AllocError> {
    words.push(' ')?;
    words.push_str(word)
}

// Adds the word of each event that it takes, as long as there is memory. The word of a string that
// it takes in UTF-16 begins with the length of the string in UTF-8.
#[derive(Drop)]
struct Words {
    alloc: Global,
    words: String,
}

impl Words {
    fn add(&mut self, event: &Event<'_>) -> Result<(), AllocError> {
        let word = word_of(self.alloc, event)?;
        add_word(&mut self.words, word.as_str())
    }

    fn add_utf16(&mut self, text: Utf16Str<'_>) -> Result<(), AllocError> {
        let mut decoded = String::new(self.alloc);
        for c in text.chars() {
            decoded.push(c)?;
        }
        let length = text.len_utf8();
        let word = format!(in self.alloc; "utf16:{length}:'{}'", decoded.as_str())?;
        add_word(&mut self.words, word.as_str())
    }
}

impl EventVisitor for Words {
    ghost step = { λ _ _ _ _. Unit {0} };

    fn event(&mut self, event: Event<'_>) -> ControlFlow<()> {
        match self.add(&event) {
            Ok(()) => ControlFlow::Continue(()),
            Err(_) => ControlFlow::Break(()),
        }
    }

    fn utf16_string(&mut self, text: Utf16Str<'_>) -> Option<ControlFlow<()>> {
        match self.add_utf16(text) {
            Ok(()) => Some(ControlFlow::Continue(())),
            Err(_) => Some(ControlFlow::Break(())),
        }
    }
}

// Returns the events of these bytes, and the error after them, each word after a blank.
fn words_visited(alloc: Global, bytes: &[u8], tally: &mut Tally) -> Result<String, AllocError> {
    let mut reader = BinaryReader::with_counter(alloc, bytes, tally);
    let mut visitor = Words {
        alloc,
        words: String::new(alloc),
    };
    let visited = reader.visit(&mut visitor);
    drop(reader);
    if let Err(error) = visited {
        let word = error.to_string(alloc)?;
        add_word(&mut visitor.words, word.as_str())?;
    }
    Ok(visitor.words)
}

// Makes the file of an array that refers twice to an object.
fn twice(alloc: Global, object: &str) -> Result<Vec<u8>, Wrong> {
    let body = format!(in alloc; "a20101 {object} 080b")?;
    let table = 11 + object.len() as u64 / 2;
    file(alloc, body.as_str(), [1, 1], [2, 0, table])
}

// Returns the number of small scalars that are expected to be decoded, followed by what the file is
// expected to yield.
fn wanted_of(alloc: Global, check: &str, words: &str) -> Result<String, AllocError> {
    match check {
        "kept" => format!(in alloc; "1 [2 {words} {words} end"),
        "anew" => format!(in alloc; "0 [2 {words} {words} end"),
        _ => format!(in alloc; "0 [2 {words}"),
    }
}

/// Runs an example of an object. A small scalar is `kept`: it is decoded once, and then yielded
/// from the cache. Any other object is decoded `anew` each time. Nothing follows a `fault`.
pub(crate) fn run(alloc: Global, row: Row<'_>) -> Result<(), Wrong> {
    let bytes = twice(alloc, row.given)?;
    let mut tally = Tally { raised: 0 };
    let words = words_visited(alloc, bytes.as_slice(), &mut tally)?;
    let found = format!(in alloc; "{}{}", tally.raised, words.as_str())?;
    let wanted = wanted_of(alloc, row.check, row.wanted)?;
    expect_same(alloc, found.as_str(), wanted.as_str())
}
