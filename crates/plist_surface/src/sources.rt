//! Sources, from which binary files are read.

ghost use Rattle.std.specs.Prelude.{Some};

use plist::stream::BufferedSource;
use plist_base::{Seeking, Sequential, Source};
use std::io;
use std::io::{Read, Seek};

/// A source that is defined outside the library.
#[derive(Drop)]
pub struct Owned {
    bytes: Vec<u8>,
}

impl Source for Owned {
    ghost known = { λ owned. Some owned.bytes.items };

    ghost failures = { λ _. 0 };

    fn size(&mut self) -> Result<u64, io::Error> {
        self.bytes.size()
    }

    fn read_at(&mut self, place: u64, buf: &mut [u8]) -> Result<usize, io::Error> {
        self.bytes.read_at(place, buf)
    }
}

pub fn source_calls<S: Source>(source: &mut S, buf: &mut [u8]) -> Result<usize, io::Error> {
    let _size: Result<u64, io::Error> = source.size();
    source.read_at(0, buf)
}

pub fn slice_calls(mut bytes: &[u8], buf: &mut [u8]) -> Result<usize, io::Error> {
    source_calls(&mut bytes, buf)
}

pub fn seeking_calls<R: Read + Seek + Drop>(inner: R, buf: &mut [u8]) -> R {
    let mut source: Seeking<R> = Seeking::new(inner);
    let _read: Result<usize, io::Error> = source_calls(&mut source, buf);
    source.into_inner()
}

pub fn sequential_calls(bytes: Vec<u8>, buf: &mut [u8]) -> Owned {
    let mut stream: Sequential<Owned> = Sequential::new(Owned { bytes });
    let _read: io::Result<usize> = stream.read(buf);
    stream.into_inner()
}

pub fn buffered_calls(bytes: Vec<u8>) -> Owned {
    let stream: BufferedSource<Owned> = BufferedSource::new(Owned { bytes });
    stream.into_inner()
}
