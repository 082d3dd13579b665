//! Exports for programs that write binary files in their own way: the forms of objects, a table of
//! events, and the calls that write a whole file.

pub use plist_base::{ByteTest, Compact, CompactList, CompactNumbers, FixedBuffer, Sink};
pub use plist_binwrite::{
    EqualScalars, EventTable, FileWriter, Sharing, classes, forms, widths, write_file,
    write_file_by_class,
};
pub use plist_buffer::ScalarRef;
