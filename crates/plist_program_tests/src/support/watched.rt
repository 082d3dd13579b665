//! A runtime whose files are watched, so that a test sees which stage the written file has reached.

use plist_support::device_error;
use std::alloc::Allocator;
use std::cell::Cell;
use std::fs::{Metadata, OpenFile, OpenOptions};
use std::io;
use std::io::{ErrorKind, Read, Seek, SeekFrom, Write};
use std::rt::Files;

// The stage that the written file has reached.
#[derive(Clone, Copy, Debug, PartialEq, Eq)]
pub(crate) enum Stage {
    // Other files may be opened and read.
    Untouched,
    // A name for a read of another file. This stage is never reached.
    Read,
    Made,
    Written,
    Flushed,
    Stored,
    // A call was out of order. The order is: reads of other files, the creation of the written
    // file, its writes, one flush of it, and one sync of it.
    OutOfTurn,
}

// The call that leads to this stage fails with a device's error of this kind. For the first stage
// this is the call that opens a file to be read.
#[derive(Clone, Copy)]
pub(crate) struct FailingCall {
    pub stage: Stage,
    pub kind: ErrorKind,
}

// The files of another runtime, and how many were opened. If `failure` is `Some`, each call that
// leads to its stage fails.
#[derive(Drop)]
pub(crate) struct Watched<'a, R> {
    pub rt: &'a R,
    pub stage: &'a Cell<Stage>,
    pub opened: &'a Cell<u64>,
    pub failure: Option<FailingCall>,
    // Whether the written file is a regular one, and not a pipe or another device.
    pub is_regular: bool,
}

#[derive(Drop)]
pub(crate) struct WatchedFile<'a, F> {
    file: F,
    stage: &'a Cell<Stage>,
    failure: Option<FailingCall>,
    is_regular: bool,
}

// Fails if this is the stage whose call fails.
fn fail_at(failure: Option<FailingCall>, stage: Stage) -> io::Result<()> {
    match failure {
        Some(failure) if failure.stage == stage => Err(device_error(failure.kind)),
        _ => Ok(()),
    }
}

// Goes on to a stage if the file is at one of these two, and otherwise to `OutOfTurn`.
fn go_on(stage: &Cell<Stage>, from: [Stage; 2], to: Stage) {
    let now = stage.get();
    stage.set(if now == from[0] || now == from[1] {
        to
    } else {
        Stage::OutOfTurn
    });
}

impl<'a, F: Read> Read for WatchedFile<'a, F> {
    fn read(&mut self, buf: &mut [u8]) -> io::Result<usize> {
        go_on(self.stage, [Stage::Untouched; 2], Stage::Untouched);
        fail_at(self.failure, Stage::Read)?;
        self.file.read(buf)
    }
}

impl<'a, F: Write> Write for WatchedFile<'a, F> {
    fn write(&mut self, buf: &[u8]) -> io::Result<usize> {
        go_on(self.stage, [Stage::Made, Stage::Written], Stage::Written);
        fail_at(self.failure, Stage::Written)?;
        self.file.write(buf)
    }

    fn flush(&mut self) -> io::Result<()> {
        go_on(self.stage, [Stage::Written; 2], Stage::Flushed);
        fail_at(self.failure, Stage::Flushed)?;
        self.file.flush()
    }
}

impl<'a, F: Seek> Seek for WatchedFile<'a, F> {
    fn seek(&mut self, to: SeekFrom) -> io::Result<u64> {
        self.file.seek(to)
    }
}

impl<'a, F: OpenFile> OpenFile for WatchedFile<'a, F> {
    fn metadata(&self) -> io::Result<Metadata> {
        if self.is_regular {
            return Ok(Metadata::of_file(0));
        }
        Ok(Metadata::of_dir())
    }

    fn set_len(&self, size: u64) -> io::Result<()> {
        self.stage.set(Stage::OutOfTurn);
        self.file.set_len(size)
    }

    fn sync_all(&self) -> io::Result<()> {
        go_on(self.stage, [Stage::Flushed; 2], Stage::Stored);
        fail_at(self.failure, Stage::Stored)?;
        self.file.sync_all()
    }

    fn sync_data(&self) -> io::Result<()> {
        self.stage.set(Stage::OutOfTurn);
        self.file.sync_data()
    }
}

impl<'a, R: Files> Files for Watched<'a, R> {
    type File = WatchedFile<'a, R::File>;

    type Dir = R::Dir;

    fn open_file(&self, how: &OpenOptions, path: &str) -> io::Result<Self::File> {
        self.opened.set(self.opened.get().saturating_add(1));
        let mut reached = Stage::Untouched;
        if how.asks_write() {
            reached = Stage::Made;
            go_on(self.stage, [Stage::Untouched; 2], reached);
        }
        fail_at(self.failure, reached)?;
        Ok(WatchedFile {
            file: self.rt.open_file(how, path)?,
            stage: self.stage,
            failure: self.failure,
            is_regular: self.is_regular,
        })
    }

    fn open_dir(&self, path: &str) -> io::Result<Self::Dir> {
        self.rt.open_dir(path)
    }

    fn metadata(&self, path: &str) -> io::Result<Metadata> {
        self.rt.metadata(path)
    }

    fn symlink_metadata(&self, path: &str) -> io::Result<Metadata> {
        self.rt.symlink_metadata(path)
    }

    // No command copies, renames or removes a file, or uses a folder.
    fn copy(&self, _from: &str, _to: &str) -> io::Result<u64> {
        self.stage.set(Stage::OutOfTurn);
        Ok(0)
    }

    fn rename(&self, _from: &str, _to: &str) -> io::Result<()> {
        self.stage.set(Stage::OutOfTurn);
        Ok(())
    }

    fn remove_file(&self, _path: &str) -> io::Result<()> {
        self.stage.set(Stage::OutOfTurn);
        Ok(())
    }

    fn create_dir(&self, _path: &str) -> io::Result<()> {
        self.stage.set(Stage::OutOfTurn);
        Ok(())
    }

    fn remove_dir(&self, _path: &str) -> io::Result<()> {
        self.stage.set(Stage::OutOfTurn);
        Ok(())
    }

    fn remove_dir_all<B: Allocator>(&self, _alloc: B, _path: &str) -> io::Result<()> {
        self.stage.set(Stage::OutOfTurn);
        Ok(())
    }
}
