//! Archives whose trees take too much time if a Uid is followed too often.

use crate::support::{add_numbered, add_times, must, same, value_of};
use plist::{Uid, Value};
use plist_keyed::{Archive, KeyedError};
use std::process::Abort;

// Returns the tree of a Uid of the archive with the events of these words.
fn tree_of(rt: &(impl Abort + AllocGlobal), words: &str, uid: u64) -> Result<Value, KeyedError> {
    let root = value_of(rt, words);
    let tree = must(rt, Archive::open(&root)).tree(rt.alloc(), Uid::new(uid));
    drop(root);
    tree
}

// Returns the length of an array, or `None` for any other value.
fn length_of(tree: Value) -> Option<usize> {
    tree.as_array().map(|items| items.len())
}

// Returns the text of the error in place of a tree.
fn error_of(rt: &(impl Abort + AllocGlobal), answer: Result<Value, KeyedError>) -> String {
    let text = match answer {
        Ok(tree) => {
            drop(tree);
            String::from_str(rt.alloc(), "a tree")
        }
        Err(error) => error.to_string(rt.alloc()),
    };
    must(rt, text)
}

// The first object is an array that refers 60,000 times to the first Uid of a chain. Each of the
// 60,000 Uids of the chain names the next one, and the last one names a string. If each visit took
// a step for each Uid of the chain, this would take 3.6 billion steps, and the test wouldn't end
// within the minute that it has.
#[test]
fn a_long_chain_visited_often(rt: HostRuntime) {
    let mut words = must(&rt, String::from_str(rt.alloc(), "{ '$objects' [ ["));
    add_times(&rt, &mut words, " uid:1", 60_000);
    must(&rt, words.push_str(" end"));
    add_numbered(&rt, &mut words, " uid:#", 2..60_002);
    must(&rt, words.push_str(" 'x' end '$top' { end end"));
    let tree = must(&rt, tree_of(&rt, words.as_str(), 0));
    same(
        &rt,
        "the number of strings",
        &length_of(tree),
        &Some(60_000),
    );
}

// Each of 60 arrays refers twice to the next one, and the last one to a string. The array after
// the string refers to the first array, whose tree has 2^60 leaves, and to an object that isn't
// there.
#[test]
fn a_fault_after_a_large_tree(rt: HostRuntime) {
    let mut words = must(&rt, String::from_str(rt.alloc(), "{ '$objects' ["));
    add_numbered(&rt, &mut words, " [ uid:# uid:# end", 1..61);
    let rest = " 'x' [ uid:0 uid:1000000 end end '$top' { end end";
    must(&rt, words.push_str(rest));
    let found = error_of(&rt, tree_of(&rt, words.as_str(), 61));
    same(&rt, "the error", &found.as_str(), &"UidOutOfRange(1000000)");
}
