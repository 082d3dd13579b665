//! The iterator over a dictionary by value. Contracts see the list of its remaining pairs.

ghost use Rattle.std.specs.Prelude.{length};
ghost use Rattle.std.specs.Iterator.{at_most};
ghost use Rattle.std.specs.Map.Iter.{TakesFirst};
ghost use Rattle.plist_pairs.specs.Keys.{HintsExactly, shown_owned_pair};

use crate::Value;
use std::marker::Model;

/// An iterator over the pairs by value, in their order. The remaining values are dropped without
/// recursion.
pub struct IntoIter {
    pub(super) pairs: plist_pairs::IntoIter<Value>,
}

impl Model for IntoIter {
    ghost use Rattle.std.specs.Prelude.{List, ℕ};
    ghost use Rattle.std.specs.Coded.{coded_list, coded_ℕ, coded×};
    ghost use Rattle.plist.specs.declared.value.Value.{Value as V};
    ghost use Rattle.plist.specs.contracts.value.Value as value;

    ghost Value = { List (List ℕ × V) };

    ghost coded = { coded_list (coded× (coded_list coded_ℕ) value.the_row.coded) };

    ghost view = { λ a. a.pairs };
}

impl Drop for IntoIter {
    fn drop(self) {
        let IntoIter { mut pairs } = self;
        while let Some((_key, value)) = pairs.next() {
            value.destroy();
        }
    }
}

impl Iterator for IntoIter {
    type Item = (String, Value);

    ghost next_gives = { TakesFirst shown_owned_pair };

    ghost remaining = { λ s. at_most (length s) };

    fn next(&mut self) -> Option<(String, Value)> {
        self.pairs.next()
    }

    fn size_hint(&self) -> (usize, Option<usize>)
        ensures { HintsExactly (length self.now) result }
    {
        self.pairs.size_hint()
    }
}

impl ExactSizeIterator for IntoIter {
    fn len(&self) -> usize {
        self.pairs.len()
    }
}
