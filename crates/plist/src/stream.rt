//! Events, their readers and writers, and the iterator over the events of a value.

pub mod builder;
pub mod events;
pub mod reading;
pub mod writing;

pub use events::Events;
pub use plist_ascii::AsciiReader;
pub use plist_base::{
    Event, EventSource, EventVisitor, OwnedEvent, Seeking, Sequential, Source, Utf16Chars,
    Utf16Str, Visited, Writer, copy_events,
};
pub use plist_binread::BinaryReader;
pub use plist_binwrite::BinaryWriter;
pub use plist_reader::{BufferedSource, Reader};
