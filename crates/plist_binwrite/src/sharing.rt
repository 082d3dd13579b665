//! Decides which equal trees of a property list share an object of its file.

ghost use Rattle.plist_base.specs.Bracketing.{AreTreeEvents};
ghost use Rattle.plist_base.specs.Writing.{answer_of};
ghost use Rattle.plist_buffer.specs.EventTable.{plain_events};
ghost use Rattle.plist_binwrite.specs.Files.{least_files};
ghost use Rattle.plist_binwrite.specs.SendingAs.{FileKind, SendsAs};

use crate::send;
use plist_base::{Error, Sealed};
use plist_buffer::event_table::EventTable;
use std::alloc::Global;
use std::io::Write;

/// Decides which equal trees of a property list share an object of its file. `plist_binwrite` and
/// `plist_share` implement it. Like [`Writer`](plist_base::Writer), it isn't meant to be
/// implemented elsewhere, although `Sealed` is public, so that both crates can name it.
pub trait Sharing: Sealed + Drop {
    /// Says which bytes are a file of a tree, and how many bytes such a file has.
    ghost kind: { FileKind };

    /// Plans the file of a whole property list's events, writes it and flushes the writer. All
    /// memory is allocated before the first byte is written.
    ///
    /// # Errors
    ///
    /// Any error of [`write_file_by_class`](crate::write_file_by_class), with the same state after
    /// each.
    fn write_file<W: Write>(
        alloc: Global,
        events: &EventTable<'_>,
        writer: &mut W,
    ) -> Result<(), Error>
        requires whole { AreTreeEvents (plain_events events.now) }
        ensures { SendsAs kind W.contents (plain_events events.now) (answer_of result) writer.old
            writer.new };
}

/// Equal scalars share an object, and every collection has an object of its own.
#[derive(Drop)]
pub struct EqualScalars;

impl Sealed for EqualScalars {}

impl Sharing for EqualScalars {
    ghost kind = { least_files };

    fn write_file<W: Write>(
        alloc: Global,
        events: &EventTable<'_>,
        writer: &mut W,
    ) -> Result<(), Error> {
        send::write_file(alloc, events, writer)
    }
}
