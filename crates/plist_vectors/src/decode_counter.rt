//! A `Ledger` of the kit can be the counter of a reader. Its count doesn't exist at run time, so
//! this test can't check it; the examples in the table `decoded` of `plist_examples` check counts.

ghost use Rattle.std.specs.Prelude.{◌≡◌, ◌<◌};

use crate::support::{must, same};
use plist_binread::{BinaryReader, CountedDecodings};
use plist_support::file;
use std::alloc::Global;
use std::marker::Brand;
use std::sync::ledger::{Blank, Ledger};

// Returns how many items a reader yields for a file while a ledger counts what it decodes.
fn items_counted<L: Ledger>(alloc: Global, bytes: &[u8], blank: Blank) -> u64
    requires name { blank.name ≡ L.name }
    requires parts { blank.parts ≡ L.parts }
    requires some { 0 < L.parts }
{
    let mut items: u64 = 0;
    for _ in BinaryReader::with_counter(alloc, bytes, CountedDecodings::<L>::new(blank)) {
        items = items.saturating_add(1);
    }
    items
}

#[test]
fn all_items_are_yielded_while_a_ledger_counts(rt: HostRuntime) {
    let bytes = must(
        &rt,
        file(rt.alloc(), "a30101 02 5161 09 080c0e", [1, 1], [3, 0, 15]),
    );
    let blank = Blank::new(1);
    same(
        &rt,
        "the number of items",
        &items_counted::<Brand>(rt.alloc(), bytes.as_slice(), blank),
        &5,
    );
}
