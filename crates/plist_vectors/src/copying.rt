//! `copy_events` ends at the first error, whether it is the source's or the writer's.

use crate::support::{expect_value, file_of_true, must, same, text_of};
use plist::Builder;
use plist_base::{Source, Writer, copy_events};
use plist_binread::BinaryReader;
use plist_support::{file, words_of};
use std::process::Abort;

// Checks what copying the remaining events of a reader to a builder returns.
fn expect_copied<R: Source>(
    rt: &(impl Abort + AllocGlobal),
    reader: &mut BinaryReader<R>,
    builder: &mut Builder,
    wanted: &str,
) {
    let found = text_of(rt, copy_events(reader, builder));
    same(rt, "what copy_events returns", &found.as_str(), &wanted);
}

// The events that precede a faulty object are written.
#[test]
fn error_of_a_source(rt: HostRuntime) {
    let objects = "a20102 09 00 080b0c";
    let bytes = must(&rt, file(rt.alloc(), objects, [1, 1], [3, 0, 13]));
    let mut reader = BinaryReader::new(rt.alloc(), bytes.as_slice());
    let mut builder = Builder::new(rt.alloc());
    let wanted = "NullObjectUnimplemented (offset 12)";
    expect_copied(&rt, &mut reader, &mut builder, wanted);
    must(&rt, builder.write_end_collection());
    let built = builder.finish();
    drop(builder);
    expect_value(&rt, built, "[1 true end");
}

// The event that a writer rejects was yielded, and those that follow it remain.
#[test]
fn error_of_a_writer(rt: HostRuntime) {
    let objects = "a20101 5161 080b";
    let bytes = must(&rt, file(rt.alloc(), objects, [1, 1], [2, 0, 13]));
    let mut reader = BinaryReader::new(rt.alloc(), bytes.as_slice());
    let mut builder = Builder::new(rt.alloc());
    must(&rt, builder.write_boolean(true));
    let wanted = "ExpectedEndOfEventStream { found: StartArray }";
    expect_copied(&rt, &mut reader, &mut builder, wanted);
    drop(builder);
    let remaining = must(&rt, words_of(rt.alloc(), reader));
    same(&rt, "the other events", &remaining.as_str(), &"'a' 'a' end");
}

// A copy that ends without an error leaves nothing to copy.
#[test]
fn copied_to_the_end(rt: HostRuntime) {
    let bytes = file_of_true(&rt);
    let mut reader = BinaryReader::new(rt.alloc(), bytes.as_slice());
    let mut builder = Builder::new(rt.alloc());
    expect_copied(&rt, &mut reader, &mut builder, "ok");
    expect_copied(&rt, &mut reader, &mut builder, "ok");
    let built = builder.finish();
    drop(builder);
    expect_value(&rt, built, "true");
}
