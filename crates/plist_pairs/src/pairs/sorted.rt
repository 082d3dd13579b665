//! Pairs in the order of their keys.

ghost use Rattle.std.specs.Prelude.{◌≡◌, ◌≤◌, OnErr, OnOk, [], IsPermutation, IsSorted, length, map, string_cmp};
ghost use Rattle.std.specs.Cmp.Lexicographic.{slice_cmp};
ghost use Rattle.std.specs.Ordering.{nat_cmp};
ghost use Rattle.std.specs.List.{IsDistinct};
ghost use Rattle.std.specs.Map.{keys_of};
ghost use Rattle.std.specs.Str.{bytes_eq};
ghost use Rattle.std.specs.Vec.{vec_capacity};
ghost use Rattle.indexmap.specs.IndexSet.{spare};
ghost use Rattle.plist_pairs.specs.Keys.{shown_owned_pair};

use super::Pairs;
use indexmap::IndexSet;
use std::alloc::{AllocError, Global};
use std::cmp::Ordering;
use std::mem;

impl<V: Drop> Pairs<V> {
    /// Sorts the pairs by the bytes of their keys.
    ///
    /// # Errors
    ///
    /// `AllocError` if an allocation fails. The pairs are unchanged then, since all memory is
    /// allocated before the first pair moves.
    pub fn sort_keys(&mut self, alloc: Global) -> Result<(), AllocError>
        ensures sorted { OnOk result (IsSorted (slice_cmp nat_cmp) (keys_of self.new)) }
        ensures pairs { OnOk result (IsPermutation self.old self.new) }
        ensures unchanged { OnErr result (self.new ≡ self.old) }
    {
        let count = self.len();
        let mut rows = Vec::with_capacity(alloc, count)?;
        let keys = IndexSet::with_capacity(alloc, count)?;
        let items = Vec::with_capacity(alloc, count)?;
        for row in mem::replace(self, Pairs::new(alloc)).into_pairs() {
            rows.push_reserved(row);
        }
        rows.sort_unstable_by(
            |a: &(String, V), b: &(String, V)| -> Ordering
                ensures { result ≡ string_cmp a.now.0 b.now.0 }
            { a.0.cmp(&b.0) },
        );
        *self = pairs_of_rows(rows, keys, items);
        Ok(())
    }
}

// Moves the pairs of these rows into columns, for which memory is reserved.
#[tactic(auto, using(crate::proofs::ColumnAppends::sorting))]
fn pairs_of_rows<V: Drop>(
    rows: Vec<(String, V)>,
    mut keys: IndexSet<String>,
    mut items: Vec<V>,
) -> Pairs<V>
    requires no_keys { keys.keys ≡ [] }
    requires no_items { items.items ≡ [] }
    requires keys_fit { length rows.items ≤ spare keys }
    requires items_fit { length rows.items ≤ vec_capacity items }
    requires distinct { IsDistinct bytes_eq (keys_of (map shown_owned_pair rows.items)) }
    ensures { result ≡ map shown_owned_pair rows.items }
{
    for (key, value) in rows {
        match keys.insert(key) {
            Ok(_) => items.push_reserved(value),
            Err(_) => {}
        }
    }
    Pairs { keys, items }
}
