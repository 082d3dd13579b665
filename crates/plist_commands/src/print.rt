//! Prints a value, or a tree of a keyed archive.

ghost use Rattle.std.specs.Prelude.{IfErr, IfOk, Ok, OnOk};
ghost use Rattle.std.specs.Io.KnownBytes.{Appends};
ghost use Rattle.plist_base.specs.Bracketing.{bracketing};
ghost use Rattle.plist_base.specs.Prefixes.{AppendsPrefix};
ghost use Rattle.plist.specs.ValueTrees.{tree_of};
ghost use Rattle.plist_print.specs.EscapedLines.{lines_of_events};
ghost use Rattle.plist_print.specs.Printing.{IsWriterError};
ghost use Rattle.plist_commands.specs.Archives.{IsRefusedAt, IsResolvedAt, IsUnprintedAt, PrintsTreeAt};
ghost use Rattle.plist_commands.specs.Commands.{plain_failure_of};

use crate::messages::Failure;
use plist::Value;
use plist_base::Error;
use plist_keyed::Archive;
use plist_print::print_source;
use std::alloc::Global;
use std::io::Write;
use std::rt::Files;

/// Prints the events of a value, each on a line of its own, and flushes the writer at the end.
///
/// # Errors
///
/// `Io` if a write fails, and `OutOfMemory` if an allocation fails, both without an offset. A
/// prefix of the lines is written then. A failed flush is an error only if nothing failed before
/// it.
pub fn print_value<W: Write>(alloc: Global, value: &Value, writer: &mut W) -> Result<(), Error>
    ensures printed { OnOk result (Appends (W.contents writer.old) (W.contents writer.new)
        (lines_of_events (bracketing (tree_of value.now)))) }
    ensures fault { IfErr result IsWriterError }
    ensures prefix { AppendsPrefix (W.contents writer.old) (W.contents writer.new)
        (lines_of_events (bracketing (tree_of value.now))) }
{
    let mut events = value.events(alloc);
    print_source(alloc, &mut events, writer)
}

// Returns the tree of the object that the `$top` of an archive names by this key.
fn tree_at(alloc: Global, root: &Value, key: &str) -> Result<Value, Failure>
    ensures tree { IfOk result (λ value. IsResolvedAt root.now key.now (Ok (tree_of value))) }
    ensures refused { IfErr result
        (λ error. IsRefusedAt root.now key.now (plain_failure_of error)) }
{
    let archive = match Archive::open(root) {
        Ok(archive) => archive,
        Err(error) => return Err(Failure::Keyed(error)),
    };
    let Some(uid) = archive.top(key) else {
        return Err(Failure::NoSuchTop);
    };
    match archive.tree(alloc, uid) {
        Ok(tree) => Ok(tree),
        Err(error) => Err(Failure::Keyed(error)),
    }
}

/// Prints the tree of the object that the `$top` of an archive names by the given key. `root` is
/// the archive's property list.
///
/// # Errors
///
/// If the value isn't an archive, or has no such key or no such tree, an error is returned before
/// anything is written. If the tree can't be printed, it is an error of [`print_value`].
pub fn print_at<O: Write>(
    alloc: Global,
    root: &Value,
    key: &str,
    out: &mut O,
) -> Result<(), Failure>
    ensures printed { OnOk result (PrintsTreeAt O.contents root.now key.now out.old out.new) }
    ensures refused { IfErr result (λ error.
        IsUnprintedAt O.contents root.now key.now (plain_failure_of error) out.old out.new) }
{
    let tree = tree_at(alloc, root, key)?;
    let printed = print_value(alloc, &tree, out);
    tree.destroy();
    Ok(printed?)
}

/// Prints a tree of the archive in a file: the tree of the object that its `$top` names by the
/// given key.
///
/// # Errors
///
/// An error is returned if the file can't be read as a property list, if that isn't an archive or
/// has no such key or no such tree, if the tree can't be printed, or if an allocation fails.
pub fn keyed_file<R: Files, O: Write>(
    rt: &R,
    alloc: Global,
    path: &str,
    key: &str,
    out: &mut O,
) -> Result<(), Failure> {
    let root = Value::from_file(rt, alloc, path)?;
    let printed = print_at(alloc, &root, key, out);
    root.destroy();
    printed
}
