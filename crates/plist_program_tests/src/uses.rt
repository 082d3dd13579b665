//! The examples to copy, run once each. `tests/refused_calls.py` compares their results.

use crate::support::{is_done, must, same, some, value_of};
use plist::Builder;
use plist_uses::archive::root_of;
use plist_uses::convert::convert;
use plist_uses::counting::count;
use plist_uses::generated::{Reading, write_readings};
use plist_uses::settings::Settings;
use plist_uses::untrusted_file::read_upload;
use std::process::Abort;

// Checks that these examples succeed for a property list.
fn expect_read(rt: &(impl Abort + AllocGlobal), text: &[u8]) {
    let mut file = Vec::new(rt.alloc());
    let answers = [
        is_done(convert(rt.alloc(), text, &mut file)),
        is_done(count(rt.alloc(), text)),
        is_done(read_upload(rt.alloc(), text)),
        is_done(read_upload(rt.alloc(), file.as_slice())),
    ];
    same(rt, "convert, count, read_upload", &answers, &[true; 4]);
}

#[test]
fn a_file_is_read(rt: HostRuntime) {
    expect_read(&rt, b"{ a = (1, b, ()); c = 2; }");
}

#[test]
fn readings_are_written(rt: HostRuntime) {
    let mut builder = Builder::new(rt.alloc());
    let reading = Reading {
        second: 60,
        level: 5,
    };
    must(&rt, write_readings(&[reading], &mut builder));
    let value = must(&rt, builder.finish());
    drop(builder);
    drop(value);
}

#[test]
fn an_archive_has_a_root(rt: HostRuntime) {
    let words = "{ '$objects' [ '$null' 'x' end '$top' { 'root' uid:1 end end";
    let value = value_of(&rt, words);
    let root = root_of(rt.alloc(), &value);
    drop(value);
    drop(some(&rt, "the root", must(&rt, root)));
}

#[test]
fn a_changed_setting_is_found_again(rt: HostRuntime) {
    let text = b"{ volume = 3; }".as_slice();
    let mut settings = must(&rt, Settings::open(rt.alloc(), text));
    let name = must(&rt, String::from_str(rt.alloc(), "volume"));
    must(&rt, settings.set(name, value_of(&rt, "7")));
    let mut file = Vec::new(rt.alloc());
    must(&rt, settings.save(rt.alloc(), &mut file));
    let settings = must(&rt, Settings::open(rt.alloc(), file.as_slice()));
    let volume = some(&rt, "the volume", settings.get("volume")).as_unsigned_integer();
    drop(settings);
    same(&rt, "the volume", &volume, &Some(7));
}
