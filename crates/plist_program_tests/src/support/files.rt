//! Files in the folder for temporary files, whose names there begin with `plist_tool_`.

use crate::support::{must, same};
use std::env::Env;
use std::process::Abort;
use std::rt::Files;
use std::{env, fs};

// A file of an array that contains itself.
pub(crate) const RECURSIVE: &[u8] = b"bplist00\
    \xa1\x00\x08\
    \0\0\0\0\0\0\x01\x01\0\0\0\0\0\0\0\x01\0\0\0\0\0\0\0\0\0\0\0\0\0\0\0\x0a";

// Returns the path of the file of this name.
pub(crate) fn path_of(rt: &(impl Abort + AllocGlobal + Env), name: &str) -> String {
    let folder = must(rt, env::temp_dir(rt));
    let file = must(rt, format!(in rt.alloc(); "plist_tool_{name}"));
    must(rt, folder.join(rt.alloc(), file.as_str())).into_string()
}

// Writes a file of these bytes.
pub(crate) fn put(rt: &(impl Abort + AllocGlobal + Env + Files), name: &str, bytes: &[u8]) {
    must(rt, fs::write(rt, path_of(rt, name).as_str(), bytes));
}

// Removes the file, if it is there.
pub(crate) fn remove(rt: &(impl Abort + AllocGlobal + Env + Files), name: &str) {
    let _ = fs::remove_file(rt, path_of(rt, name).as_str());
}

// Checks that the file contains these bytes.
pub(crate) fn expect_holds(
    rt: &(impl Abort + AllocGlobal + Env + Files),
    name: &str,
    wanted: &[u8],
) {
    let bytes = must(rt, fs::read(rt, path_of(rt, name).as_str()));
    same(rt, name, &bytes.as_slice(), &wanted);
}

// Checks that the file isn't there.
pub(crate) fn expect_missing(rt: &(impl Abort + AllocGlobal + Env + Files), name: &str) {
    let is_there = must(rt, fs::exists(rt, path_of(rt, name).as_str()));
    assert!(rt; !is_there, "{name} is there");
}
