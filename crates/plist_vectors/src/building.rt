//! Each method of a writer, and what `write_value` returns.

use crate::support::{expect_answers, expect_value, must, same, text_of, value_of};
use plist::{Builder, Value, write_value};
use plist_base::{Date, Integer, RealBits, Uid, Writer};
use std::borrow::{CowSlice, CowStr};
use std::process::Abort;

// Writes an array of a scalar of each kind and an empty dictionary, by the writer's own methods.
// What is built shows whether they succeed.
fn write_scalars<W: Writer>(writer: &mut W, date: Date) {
    let _ = writer.write_start_array(None);
    let _ = writer.write_boolean(true);
    let _ = writer.write_data(CowSlice::Borrowed(&[0, 255]));
    let _ = writer.write_date(date);
    let _ = writer.write_integer(Integer::from(7u8));
    let _ = writer.write_real(RealBits::Four([63, 192, 0, 0]));
    let _ = writer.write_string(CowStr::Borrowed("x"));
    let _ = writer.write_uid(Uid::new(4));
    let _ = writer.write_start_dictionary(None);
    let _ = writer.write_end_collection();
    let _ = writer.write_end_collection();
}

#[test]
fn each_call_of_a_writer(rt: HostRuntime) {
    let mut builder = Builder::new(rt.alloc());
    write_scalars(&mut builder, must(&rt, Date::from_plist_real([0; 8])));
    let wanted = "[8 true <00ff> date:0 7 real:3fc00000 'x' uid:4 {0 end end";
    let built = builder.finish();
    drop(builder);
    expect_value(&rt, built, wanted);
}

// Checks what `write_value` returns, and then the value that was built.
fn expect_handed(
    rt: &(impl Abort + AllocGlobal),
    value: &Value,
    builder: &mut Builder,
    answer: &str,
    built: &str,
) {
    let found = text_of(rt, write_value(rt.alloc(), value, builder));
    same(rt, "what write_value returns", &found.as_str(), &answer);
    expect_value(rt, builder.finish(), built);
}

#[test]
fn a_value_is_written_to_a_builder(rt: HostRuntime) {
    let words = "{2 'a' [1 'x' end 'b' 'a' end";
    let value = value_of(&rt, words);
    let mut builder = Builder::new(rt.alloc());
    expect_handed(&rt, &value, &mut builder, "ok", words);
    expect_answers(&rt, &mut builder, "'a'", "ok");
    let refusal = "ExpectedEndOfEventStream { found: StartDictionary }";
    expect_handed(&rt, &value, &mut builder, refusal, "'a'");
    drop(builder);
    drop(value);
}
