//! Values of a hundred thousand levels. No call uses more of the call stack for them than for
//! others.

use crate::support::{add_numbered, add_times, must, value_of};
use plist::{Value, write_value};
use plist_base::Uid;
use plist_keyed::Archive;
use plist_share::SharingWriter;
use std::process::Abort;

const LEVELS: u32 = 100_000;

// Returns a value of this word inside arrays and dictionaries. Of every hundred levels, one is a
// dictionary, and one is an array in which a string follows the nested value. In the other arrays a
// number precedes it.
fn nested(rt: &(impl Abort + AllocGlobal), word: &str) -> Value {
    let (mut starts, mut ends) = (String::new(rt.alloc()), String::new(rt.alloc()));
    add_times(rt, &mut starts, "[ 5 ", 98);
    must(rt, starts.push_str("[ { 'k' "));
    must(rt, ends.push_str(" end 'x' end"));
    add_times(rt, &mut ends, " end", 98);
    let mut words = String::new(rt.alloc());
    add_times(rt, &mut words, starts.as_str(), LEVELS / 100);
    must(rt, words.push_str(word));
    add_times(rt, &mut words, ends.as_str(), LEVELS / 100);
    value_of(rt, words.as_str())
}

// Checks whether a value equals another one, in both orders.
fn expect_equal(rt: &impl Abort, value: Value, other: &Value, wanted: bool) {
    let (found, again) = (value == *other, *other == value);
    value.destroy();
    assert!(rt; found == wanted && again == wanted);
}

#[test]
fn deep_values(rt: HostRuntime) {
    let value = nested(&rt, "1");
    expect_equal(&rt, must(&rt, value.clone(rt.alloc())), &value, true);
    expect_equal(&rt, nested(&rt, "1"), &value, true);
    expect_equal(&rt, nested(&rt, "2"), &value, false);
    value.destroy();
}

// Checks that the value of a file equals this one.
fn expect_read(rt: &(impl Abort + AllocGlobal), file: &[u8], wanted: &Value) {
    let read = must(rt, Value::from_reader(rt.alloc(), file));
    expect_equal(rt, read, wanted, true);
}

#[test]
fn deep_files(rt: HostRuntime) {
    let value = nested(&rt, "1");
    let mut file = Vec::new(rt.alloc());
    must(&rt, value.to_writer_binary(rt.alloc(), &mut file));
    let mut writer = SharingWriter::new(rt.alloc(), Vec::new(rt.alloc()));
    must(&rt, write_value(rt.alloc(), &value, &mut writer));
    let shared = writer.into_inner();
    expect_read(&rt, file.as_slice(), &value);
    expect_read(&rt, shared.as_slice(), &value);
    value.destroy();
}

// Returns the value of parentheses around a text.
fn in_parentheses(rt: &(impl Abort + AllocGlobal), within: &str) -> Value {
    let mut text = String::new(rt.alloc());
    add_times(rt, &mut text, "(", LEVELS);
    must(rt, text.push_str(within));
    add_times(rt, &mut text, ")", LEVELS);
    must(rt, Value::from_reader_ascii(rt.alloc(), text.as_bytes()))
}

#[test]
fn deep_texts(rt: HostRuntime) {
    let value = in_parentheses(&rt, "a");
    expect_equal(&rt, in_parentheses(&rt, "a"), &value, true);
    expect_equal(&rt, in_parentheses(&rt, "b"), &value, false);
    value.destroy();
}

// Returns an archive in which each object but the last is an array that refers to the next one.
fn chain(rt: &(impl Abort + AllocGlobal)) -> Value {
    let mut words = must(
        rt,
        String::from_str(rt.alloc(), "{ '$top' { end '$objects' ["),
    );
    add_numbered(rt, &mut words, " [ true uid:# end", 1..LEVELS);
    must(rt, words.push_str(" true end end"));
    value_of(rt, words.as_str())
}

// Returns the tree of a Uid of an archive.
fn tree_of(rt: &(impl Abort + AllocGlobal), root: &Value, uid: u64) -> Value {
    must(
        rt,
        must(rt, Archive::open(root)).tree(rt.alloc(), Uid::new(uid)),
    )
}

#[test]
fn deep_archives(rt: HostRuntime) {
    let root = chain(&rt);
    let value = tree_of(&rt, &root, 0);
    expect_equal(&rt, tree_of(&rt, &root, 0), &value, true);
    expect_equal(&rt, tree_of(&rt, &root, 1), &value, false);
    value.destroy();
    drop(root);
}
