//! The writer that shares collections. It plans and writes the shared file of a whole property
//! list.

ghost use Rattle.plist_share.specs.SharedFiles.{shared_files};

use crate::classes::tree_classes;
use plist_base::{Error, Sealed};
use plist_binwrite::classes::{Classed, Classes};
use plist_binwrite::{EventTable, FileWriter, Sharing, write_file_by_class};
use std::alloc::Global;
use std::io::Write;

/// Writes binary property lists, one after another, to a writer. A file contains every different
/// array, dictionary and scalar once, and no file with the same events has fewer objects.
///
/// Two arrays or dictionaries are equal if they contain the same items or pairs, in the same order.
/// [`BinaryWriter`](plist_binwrite::BinaryWriter) documents what a call does, and when it fails.
///
/// # Examples
///
/// ```rust
/// let mut writer = SharingWriter::new(alloc, Vec::new(alloc));
/// let written = write_value(alloc, value, &mut writer);
/// let file = writer.into_inner();
/// written.map(|()| file)
/// ```
pub type SharingWriter<W> = FileWriter<W, EqualTrees>;

/// Equal trees share an object, whether they are scalars, arrays or dictionaries.
#[derive(Drop)]
pub struct EqualTrees;

impl Sealed for EqualTrees {}

impl Sharing for EqualTrees {
    ghost kind = { shared_files };

    fn write_file<W: Write>(
        alloc: Global,
        events: &EventTable<'_>,
        writer: &mut W,
    ) -> Result<(), Error> {
        let found = tree_classes(alloc, events)?;
        let classes = Classes::Listed(found);
        let given = Classed {
            events,
            classes: &classes,
        };
        write_file_by_class(alloc, given, writer)
    }
}
