//! Sources that end earlier than they reported: at each byte of the objects, and of the table.

ghost use Rattle.std.specs.Prelude.{◌<◌, ◌≤◌, None, length};

use crate::support::{must, that, value_of};
use plist::Value;
use plist_base::{Error, Source};
use plist_binread::BinaryReader;
use plist_reader::Reader;
use plist_support::{add_words, words_of};
use std::io;
use std::process::Abort;

// The number of bytes in a trailer.
const TRAILER: usize = 32;

// A file without its bytes from `end` up to `resumes`, where its table or trailer begins.
#[derive(Drop)]
struct Cut {
    bytes: Vec<u8>,
    end: usize,
    resumes: usize,
    // The offset of the last read.
    place: u64,
}

// Copies as many of the bytes from an offset up to an end as fit into the buffer.
fn copy_between(bytes: &[u8], place: u64, end: usize, buf: &mut [u8]) -> usize
    ensures { result ≤ length buf.new }
{
    if end > bytes.len() || place >= end as u64 {
        return 0;
    }
    let rest = &bytes[place as usize..end];
    let count = rest.len().min(buf.len());
    buf[..count].copy_from_slice(&rest[..count]);
    count
}

impl Source for Cut {
    ghost known = { λ _. None };

    ghost failures = { λ _. 0 };

    fn size(&mut self) -> Result<u64, io::Error> {
        Ok(self.bytes.len() as u64)
    }

    fn read_at(&mut self, place: u64, buf: &mut [u8]) -> Result<usize, io::Error> {
        self.place = place;
        let end = if place >= self.resumes as u64 {
            self.bytes.len()
        } else {
            self.end
        };
        Ok(copy_between(self.bytes.as_slice(), place, end, buf))
    }
}

// A reader borrows the file, so that it can be inspected afterwards.
impl<'a> Source for &'a mut Cut {
    ghost known = { λ _. None };

    ghost failures = { λ _. 0 };

    fn size(&mut self) -> Result<u64, io::Error> {
        (**self).size()
    }

    fn read_at(&mut self, place: u64, buf: &mut [u8]) -> Result<usize, io::Error> {
        (**self).read_at(place, buf)
    }
}

// Checks that the items found are a prefix of the expected ones, followed by `UnexpectedEof` with
// the offset of the last read, which is the offset of a missing byte.
fn expect_end(rt: &(impl Abort + AllocGlobal), cut: &Cut, found: &str, items: &str) {
    let fault = must(
        rt,
        format!(in rt.alloc(); "UnexpectedEof (offset {})", cut.place),
    );
    let is_prefix = match found.strip_suffix(fault.as_str()) {
        Some(before) => items.starts_with(before.trim_end()),
        None => false,
    };
    let is_missing = cut.place >= cut.end as u64 && cut.place < cut.resumes as u64;
    let holds = is_prefix && is_missing;
    that(
        rt,
        "items up to a missing byte, cut at",
        cut.end as u64,
        holds,
    );
}

// Returns whether a result is the error for bytes that are missing.
fn ends_early(answer: Result<Value, Error>) -> bool {
    match answer {
        Ok(value) => {
            drop(value);
            false
        }
        Err(error) => error.is_eof(),
    }
}

// Checks the items that each of the readers yields for a file that is cut, and that it has no
// value.
fn expect_items(rt: &(impl Abort + AllocGlobal), cut: &mut Cut, items: &str) {
    let alloc = rt.alloc();
    let found = must(rt, words_of(alloc, BinaryReader::new(alloc, &mut *cut)));
    expect_end(rt, cut, found.as_str(), items);
    let found = must(rt, words_of(alloc, Reader::new(alloc, &mut *cut)));
    expect_end(rt, cut, found.as_str(), items);
    let is_eof = ends_early(Value::from_reader(alloc, &mut *cut));
    that(
        rt,
        "an end in place of a value, cut at",
        cut.end as u64,
        is_eof,
    );
}

// Returns the offset of the table, which is in the last eight bytes.
fn table_of(file: &[u8]) -> usize {
    match file.last_chunk::<8>() {
        Some(bytes) => u64::from_be_bytes(*bytes).min(file.len() as u64) as usize,
        None => 0,
    }
}

// Checks the file of these events, cut at each byte.
fn expect_cuts(rt: &(impl Abort + AllocGlobal), items: &str) {
    let mut file = Vec::new(rt.alloc());
    let value = value_of(rt, items);
    let written = value.to_writer_binary(rt.alloc(), &mut file);
    drop(value);
    must(rt, written);
    let table = table_of(file.as_slice());
    let trailer = file.len().saturating_sub(TRAILER);
    let mut cut = Cut {
        bytes: file,
        end: 0,
        resumes: 0,
        place: 0,
    };
    for end in 8..trailer {
        cut.end = end;
        cut.resumes = if end < table { table } else { trailer };
        expect_items(rt, &mut cut, items);
    }
}

// Returns words with a part in the middle, repeated this often.
fn repeated(rt: &(impl Abort + AllocGlobal), around: [&str; 2], part: &str, times: u32) -> String {
    let mut all = must(rt, String::from_str(rt.alloc(), around[0]));
    for _ in 0..times {
        must(rt, all.push_str(part));
    }
    must(rt, all.push_str(around[1]));
    all
}

// A string of 200 bytes, data of 200 bytes, and a string of 200 units, in collections.
#[test]
fn cut_at_each_byte(rt: HostRuntime) {
    let mut items = repeated(&rt, ["[4 'k' {1 'k' '", "' end"], "a", 200);
    let data = repeated(&rt, ["<", ">"], "7f", 200);
    must(&rt, add_words(&mut items, " ", data.as_str()));
    let wide = repeated(&rt, ["'", "' end"], "é", 200);
    must(&rt, add_words(&mut items, " ", wide.as_str()));
    expect_cuts(&rt, items.as_str());
}

// Contents of 100 KB.
#[test]
fn long_contents_cut(rt: HostRuntime) {
    let text = repeated(&rt, ["'", "'"], "a", 100_000);
    expect_cuts(&rt, text.as_str());
    let data = repeated(&rt, ["<", ">"], "7f", 100_000);
    expect_cuts(&rt, data.as_str());
}
