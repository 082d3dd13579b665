//! Values in files.

ghost use Rattle.std.specs.Prelude.{◌≡◌, IfOk, IsNone, IsSome, OnOk, false, true};
ghost use Rattle.std.specs.Io.{WritesAtMost};
ghost use Rattle.std.specs.Io.KnownBytes.{Keeps, WriteAppends};
ghost use Rattle.plist_base.specs.Outcomes.{IfFault, OnlyDevice};
ghost use Rattle.plist_base.specs.Sources.{failures_of};
ghost use Rattle.plist.specs.Collecting.{built_tree};
ghost use Rattle.plist.specs.LimitedValues.{IsWithinBudget, IsWithinLimits};
ghost use Rattle.plist.specs.SendingValues.{contents_of, IsUnstored, SendsValue, WritesFirst};
ghost use Rattle.plist.specs.FromReader.{IsReadFromFile, IsReadFromFileWithin, IsReadFromFileWithinBudget, IsFileFault};
ghost use Rattle.plist.specs.ValueTrees.{tree_of};

use crate::Value;
use plist_ascii::Dialect;
use plist_base::{Error, ErrorKind, Limits, Seeking};
use std::alloc::Global;
use std::fs::OpenFile;
use std::io::Write;
use std::rt::Files;
use std::{fs, io};

/// A file that is created, or truncated, at its first write. If nothing is written, it is left as
/// it was.
#[derive(Drop)]
pub struct LazyFile<'a, R: Files> {
    rt: &'a R,
    path: &'a str,
    file: Option<R::File>,
}

impl<'a, R: Files> Write for LazyFile<'a, R> {
    // The bytes of the file, if it is open and they are known.
    ghost contents = { λ output. contents_of R.File.contents output.file };

    fn write(&mut self, buf: &[u8]) -> io::Result<usize>
        ensures bound { WritesAtMost result buf.now }
        ensures bytes { WriteAppends (contents_of R.File.contents self.old.file)
            (contents_of R.File.contents self.new.file) result buf.now }
        ensures first { IsNone self.old.file
            → WritesFirst R.File.contents result buf.now self.new.file }
        ensures opened { OnOk result (IsSome self.new.file) }
        ensures kept { IsSome self.old.file → IsSome self.new.file }
    {
        match &mut self.file {
            Some(file) => file.write(buf),
            None => {
                let mut file = fs::create(self.rt, self.path)?;
                let answer = file.write(buf);
                self.file = Some(file);
                answer
            }
        }
    }

    fn flush(&mut self) -> io::Result<()>
        ensures bytes { Keeps (contents_of R.File.contents self.old.file)
            (contents_of R.File.contents self.new.file) }
        ensures kept { IsSome self.old.file → IsSome self.new.file }
        ensures none { IsNone self.old.file → IsNone self.new.file }
    {
        match &mut self.file {
            Some(file) => file.flush(),
            None => Ok(()),
        }
    }
}

// Returns whether a sync failed with this kind of error because the file is a pipe or a terminal,
// which can't be synced.
fn cannot_be_synced<F: OpenFile>(file: &F, kind: io::ErrorKind) -> bool {
    kind == io::ErrorKind::InvalidInput && file.metadata().is_ok_and(|metadata| !metadata.is_file())
}

impl<'a, R: Files> LazyFile<'a, R> {
    /// Creates a `LazyFile` for the file at the given path, without opening it.
    pub fn new(rt: &'a R, path: &'a str) -> Self
        ensures fresh { IsNone result.file }
    {
        LazyFile {
            rt,
            path,
            file: None,
        }
    }

    /// Syncs the file, so that the system stores what was written. If nothing was written, no file
    /// is open, and the call returns `Ok`. Pipes and terminals store nothing, and their sync
    /// succeeds.
    ///
    /// # Errors
    ///
    /// `Io`, without an offset, if the system reports a failure.
    pub fn sync(&self) -> Result<(), Error>
        ensures { OnlyDevice result }
    {
        let Some(file) = &self.file else {
            return Ok(());
        };
        match file.sync_all() {
            Ok(()) => Ok(()),
            Err(failure) if cannot_be_synced(file, failure.kind()) => Ok(()),
            Err(failure) => Err(ErrorKind::Io(failure).without_position()),
        }
    }

    /// Writes the value as a binary property list, and syncs the file.
    ///
    /// # Errors
    ///
    /// Any error of [`Value::to_writer_binary`], and `Io`, without an offset, if the sync fails.
    /// `OutOfMemory` and `PlistTooLarge` are returned before a file is created or truncated.
    ///
    /// # Examples
    ///
    /// ```rust
    /// let mut file = LazyFile::new(rt, path);
    /// file.store(alloc, value)
    /// ```
    #[tactic(auto, using(crate::proofs::EventTables::stored))]
    pub fn store(&mut self, alloc: Global, value: &Value) -> Result<(), Error>
        ensures sent { SendsValue (λ output. contents_of R.File.contents output.file) value.now
            result self.old self.new }
    {
        value.to_writer_binary(alloc, self)?;
        self.sync()
    }
}

// Opens the file of this name, and reads it in windows of 8 KiB.
fn open_source<R: Files>(rt: &R, alloc: Global, path: &str) -> Result<Seeking<R::File>, Error>
    ensures failures { IfOk result (λ source. failures_of source ≡ 0) }
    ensures refused { OnlyDevice result }
{
    match fs::open(rt, path) {
        Ok(file) => Ok(Seeking::with_windows(alloc, file)),
        Err(failure) => Err(ErrorKind::Io(failure).without_position()),
    }
}

impl Value {
    /// Reads the value of the file at the given path. The first bytes decide whether it is read as
    /// binary or as ASCII, as in [`Value::from_reader`]. The file is read in windows of 8 KiB.
    ///
    /// # Errors
    ///
    /// - `Io`, without an offset, if the file can't be opened. [`Error::as_io`] returns the reason,
    ///   which the error's own text leaves out.
    /// - Any error of [`Value::from_reader`].
    ///
    /// # Examples
    ///
    /// ```rust
    /// match Value::from_file(rt, alloc, path)? {
    ///     Value::Dictionary(settings) => Ok(settings),
    ///     _ => Err(Failure::NoDictionary),
    /// }
    /// ```
    pub fn from_file<R: Files>(rt: &R, alloc: Global, path: &str) -> Result<Value, Error>
        ensures read { IsReadFromFile R.File Dialect.Lax (built_tree result) }
        ensures fault { IfFault result (IsFileFault false) }
    {
        Value::from_file_with_dialect(rt, alloc, path, Dialect::Lax)
    }

    /// Like [`Value::from_file`], but reads ASCII in the given dialect. [`Dialect::Tight`] reads
    /// the files that other programs write with one value per line, neither quoted nor followed by
    /// `;`.
    ///
    /// # Errors
    ///
    /// Any error of [`Value::from_file`].
    ///
    /// # Examples
    ///
    /// ```rust
    /// Value::from_file_with_dialect(rt, alloc, "lines.plist", Dialect::Tight)
    /// ```
    pub fn from_file_with_dialect<R: Files>(
        rt: &R,
        alloc: Global,
        path: &str,
        dialect: Dialect,
    ) -> Result<Value, Error>
        ensures read { IsReadFromFile R.File dialect (built_tree result) }
        ensures fault { IfFault result (IsFileFault false) }
    {
        let source = open_source(rt, alloc, path)?;
        Value::from_reader_with_dialect(alloc, source, dialect)
    }

    /// Like [`Value::from_file`], but fails once a limit is exceeded. The value nests at most
    /// `limits.depth` collections, and was built from at most `limits.items` events.
    ///
    /// # Errors
    ///
    /// - `LimitReached`, as in [`Value::from_reader_with_limits`].
    /// - Any error of [`Value::from_file`].
    ///
    /// # Examples
    ///
    /// ```rust
    /// let limits = Limits { depth, items: 100 };
    /// Value::from_file_with_limits(rt, alloc, FILE, limits)
    /// ```
    pub fn from_file_with_limits<R: Files>(
        rt: &R,
        alloc: Global,
        path: &str,
        limits: Limits,
    ) -> Result<Value, Error>
        ensures read { IsReadFromFileWithin R.File limits (built_tree result) }
        ensures fault { IfFault result (IsFileFault true) }
        ensures within { IfOk (built_tree result) (IsWithinLimits limits) }
    {
        let source = open_source(rt, alloc, path)?;
        Value::from_reader_with_limits(alloc, source, limits)
    }

    /// Like [`Value::from_file_with_limits`], but also fails once the strings, including keys, and
    /// the data have more than the given number of bytes together.
    ///
    /// Use it for a file that anyone may have sent: the value has no more events, levels and bytes
    /// than the caller allows, whatever the file contains. Besides the memory that
    /// [`Value::from_reader_within`] takes, the windows of the file take at most 68 MB.
    ///
    /// # Errors
    ///
    /// - `OutOfMemory` if an allocation fails, and for the first string or data that exceeds the
    ///   budget, as in [`Value::from_reader_within`].
    /// - Any error of [`Value::from_file_with_limits`].
    pub fn from_file_within<R: Files>(
        rt: &R,
        alloc: Global,
        path: &str,
        limits: Limits,
        bytes: u64,
    ) -> Result<Value, Error>
        ensures read { IsReadFromFileWithinBudget R.File limits bytes (built_tree result) }
        ensures fault { IfFault result (IsFileFault true) }
        ensures within { IfOk (built_tree result) (IsWithinBudget limits bytes) }
    {
        let source = open_source(rt, alloc, path)?;
        Value::from_reader_within(alloc, source, limits, bytes)
    }

    /// Writes the value as a binary property list to the file of the given name, and syncs the
    /// file. If the file exists, it is truncated before the first byte is written.
    ///
    /// # Errors
    ///
    /// - `PlistTooLarge` if the file would have 2^64 bytes or more, and `OutOfMemory` if an
    ///   allocation fails: no file is created or truncated.
    /// - `Io` if the file can't be created, or if a write, the flush or the sync fails. The file
    ///   may then contain a prefix of the property list.
    ///
    /// # Examples
    ///
    /// ```rust
    /// Value::from_file(rt, alloc, FILE)?.to_file_binary(rt, alloc, "copy.plist")?;
    /// Value::from_file(rt, alloc, "copy.plist")
    /// ```
    pub fn to_file_binary<R: Files>(&self, rt: &R, alloc: Global, path: &str) -> Result<(), Error>
        ensures refused { IfFault result (IsUnstored (tree_of self.now)) }
    {
        LazyFile::new(rt, path).store(alloc, self)
    }
}
