//! Values: how they are formatted, and one run of each conversion.

use crate::support::{expect_value, must, same, some, value_of};
use plist::{Value, kind_of_value};
use plist_base::{Data, Date, EventKind};

#[test]
fn debug_output(rt: HostRuntime) {
    let value = value_of(&rt, "{ 'k' [ { 'on' true end 5 uid:4 end end");
    let data = Data::new(must(&rt, Vec::from_slice(rt.alloc(), &[0, 255])));
    let found = must(&rt, format!(in rt.alloc(); "{data:?} {value:?}"));
    drop(value);
    drop(data);
    let wanted = "[0, 255] Dictionary({\"k\": Array([Dictionary({\"on\": Boolean(true)}), \
                  Integer(5), Uid(4)])})";
    same(&rt, "the debug output", &found.as_str(), &wanted);
}

#[test]
fn from_each_type(rt: HostRuntime) {
    let date = must(&rt, Date::from_plist_real([0; 8]));
    let values = [
        Value::from(true),
        Value::from(&false),
        Value::from(date),
        Value::from(&date),
        Value::from(-1i64),
        Value::from(-2i32),
        Value::from(-3i16),
        Value::from(-4i8),
        Value::from(1u64 << 63),
        Value::from(5u32),
        Value::from(6u16),
        Value::from(7u8),
        Value::from(&-1i64),
        Value::from(&-2i32),
        Value::from(&-3i16),
        Value::from(&-4i8),
        Value::from(&8u64),
        Value::from(&9u32),
        Value::from(&10u16),
        Value::from(&11u8),
    ];
    let items = must(&rt, Vec::from_array(rt.alloc(), values));
    let wanted = "[20 true false date:0 date:0 -1 -2 -3 -4 9223372036854775808 5 6 7 \
                  -1 -2 -3 -4 8 9 10 11 end";
    expect_value(&rt, Ok(Value::from(items)), wanted);
}

#[test]
fn contents_are_taken_out(rt: HostRuntime) {
    let mut items = some(&rt, "an array", value_of(&rt, "[ <00ff> end").into_array());
    let data = some(&rt, "an item", items.pop());
    drop(items);
    let bytes = some(&rt, "data", data.into_data());
    same(&rt, "the bytes", &bytes.as_slice(), &[0, 255].as_slice());
}

#[test]
fn kinds_of_values(rt: HostRuntime) {
    for (words, kind) in [
        ("[ end", EventKind::StartArray),
        ("{ end", EventKind::StartDictionary),
        ("true", EventKind::Boolean),
        ("<01>", EventKind::Data),
        ("date:0", EventKind::Date),
        ("real:00000000", EventKind::Real),
        ("1", EventKind::Integer),
        ("'x'", EventKind::String),
        ("uid:1", EventKind::Uid),
    ] {
        let value = value_of(&rt, words);
        let found = kind_of_value(&value);
        drop(value);
        same(&rt, words, &found, &kind);
    }
}
