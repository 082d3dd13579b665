//! Trees of keyed archives.

use crate::rows::{Row, bytes_given, unreadable};
use crate::words::{value_of, words_of_value};
use plist::{Uid, Value};
use plist_keyed::{Archive, KeyedError};
use plist_support::{Wrong, expect_ok, expect_same, fail};
use std::alloc::{AllocError, Global};

// Returns the words of a result's tree, or the text of its error.
fn words_of_tree(alloc: Global, answer: Result<Value, KeyedError>) -> Result<String, AllocError> {
    match answer {
        Ok(tree) => {
            let words = words_of_value(alloc, &tree);
            drop(tree);
            words
        }
        Err(error) => error.to_string(alloc),
    }
}

// Returns the words of the tree of the Uid 1 of an archive, or the text of the tree's error.
fn words_in(alloc: Global, root: &Value) -> Result<String, Wrong> {
    match Archive::open(root) {
        Ok(archive) => Ok(words_of_tree(alloc, archive.tree(alloc, Uid::new(1)))?),
        Err(error) => fail(error.to_string(alloc)),
    }
}

// Checks the tree of the Uid 1 of an archive.
fn expect_tree(alloc: Global, root: Value, wanted: &str) -> Result<(), Wrong> {
    let words = words_in(alloc, &root);
    drop(root);
    expect_same(alloc, words?.as_str(), wanted)
}

// Checks the tree of an archive of these objects, whose `$top` refers to the Uid 1.
fn expect_tree_of(alloc: Global, objects: &str, wanted: &str) -> Result<(), Wrong> {
    let words = format!(in alloc;
        "{{ '$objects' [ {objects} end '$top' {{ 'root' uid:1 'text' 'x' end end"
    )?;
    expect_tree(alloc, value_of(alloc, words.as_str())?, wanted)
}

// Checks the tree of an archive's file.
fn expect_tree_of_file(alloc: Global, given: &str, wanted: &str) -> Result<(), Wrong> {
    let bytes = bytes_given(alloc, given)?;
    let root = expect_ok(alloc, Value::from_reader(alloc, bytes.as_slice()))?;
    expect_tree(alloc, root, wanted)
}

// Returns the text of the error that opening this value as an archive returns.
fn error_of(alloc: Global, root: &Value) -> Result<String, Wrong> {
    match Archive::open(root) {
        Ok(_) => fail(String::from_str(alloc, "it is an archive")),
        Err(error) => Ok(error.to_string(alloc)?),
    }
}

// Checks that the value of these events isn't an archive.
fn expect_no_archive(alloc: Global, words: &str, wanted: &str) -> Result<(), Wrong> {
    let root = value_of(alloc, words)?;
    let found = error_of(alloc, &root);
    drop(root);
    expect_same(alloc, found?.as_str(), wanted)
}

/// Runs an example of an archive.
pub(crate) fn run(alloc: Global, row: Row<'_>) -> Result<(), Wrong> {
    match row.check {
        "tree" => expect_tree_of(alloc, row.given, row.wanted),
        "tree of file" => expect_tree_of_file(alloc, row.given, row.wanted),
        "no archive" => expect_no_archive(alloc, row.given, row.wanted),
        _ => unreadable(alloc, row.check),
    }
}
