//! Proved callers of a file that is created at its first write. Each is named after a bug that its
//! clause rules out.

ghost use Rattle.std.specs.Prelude.{◌≡◌, ◌++◌, IfOk, IfSome, IsSome, OnOk, Some, take, true};
ghost use Rattle.plist.specs.SendingValues.{contents_of};

use plist::{ErrorKind, LazyFile, Value};
use std::alloc::Global;
use std::io;
use std::io::Write;
use std::rt::Files;

/// Writes bytes to a file, and returns how many of them were written. If the bytes of the file are
/// known, exactly these were appended.
///
/// # Errors
///
/// The error of creating the file or of writing to it.
pub fn short_write_is_passed_over<R: Files>(
    output: &mut LazyFile<'_, R>,
    bytes: &[u8],
) -> io::Result<usize>
    ensures { IfOk result (λ count. IfSome (contents_of R.File.contents output.old.file)
        (λ before. contents_of R.File.contents output.new.file
        ≡ Some (before ++ take count bytes.now))) }
{
    output.write(bytes)
}

/// Writes twice, and returns how many bytes the second write took. If both writes succeed, the file
/// is open after the first, so the second doesn't create it again.
///
/// # Errors
///
/// The error of creating the file or of the first write that fails. Nothing is written after it.
pub fn file_is_created_at_each_write<R: Files>(
    output: &mut LazyFile<'_, R>,
    first: &[u8],
    second: &[u8],
) -> io::Result<usize>
    ensures { OnOk result (IsSome output.new.file) }
{
    let _count = output.write(first)?;
    output.write(second)
}

/// Returns `true` if a value couldn't be stored because of `OutOfMemory` or `PlistTooLarge`. If so,
/// the file wasn't created.
pub fn file_is_made_first<R: Files>(
    alloc: Global,
    output: &mut LazyFile<'_, R>,
    value: &Value,
) -> bool
    ensures { result ≡ true → output.new ≡ output.old }
{
    match output.store(alloc, value) {
        Ok(()) => false,
        Err(error) => match error.kind() {
            ErrorKind::OutOfMemory | ErrorKind::PlistTooLarge => true,
            _ => false,
        },
    }
}
