//! The iterators over a dictionary. Contracts see an iterator as the list of its remaining items,
//! in which a key is its bytes.

ghost use Rattle.std.specs.Prelude.{length};
ghost use Rattle.std.specs.Iterator.{at_most};
ghost use Rattle.std.specs.Map.Iter.{TakesFirst, deref};
ghost use Rattle.plist_pairs.specs.Keys.{HintsExactly, shown_key, shown_pair, shown_owned_pair};

use indexmap::set;
use std::marker::Model;
use std::{slice, vec};

/// An iterator over the pairs, in their order.
#[derive(Drop)]
pub struct Iter<'a, V> {
    pub(crate) keys: slice::Iter<'a, String>,
    pub(crate) items: slice::Iter<'a, V>,
}

impl<'a, V> Model for Iter<'a, V> {
    ghost use Rattle.std.specs.Prelude.{◌≡◌, List, ℕ, length, map, string_bytes};
    ghost use Rattle.std.specs.Coded.{coded_list, coded_ℕ, coded×};
    ghost use Rattle.std.specs.List.{zip};
    ghost use Rattle.std.specs.Slice.Iter.{iter_rest};

    ghost Value = { List (List ℕ × V) };

    ghost coded = { coded_list (coded× (coded_list coded_ℕ) V.code) };

    ghost view = { λ a. zip (map string_bytes (iter_rest a.keys)) (iter_rest a.items) };

    ghost invariant = { λ a. length (iter_rest a.items) ≡ length (iter_rest a.keys) };
}

impl<'a, V> Iterator for Iter<'a, V> {
    type Item = (&'a String, &'a V);

    ghost next_gives = { TakesFirst shown_pair };

    ghost remaining = { λ s. at_most (length s) };

    fn next(&mut self) -> Option<(&'a String, &'a V)> {
        let key = self.keys.next()?;
        Some((key, self.items.next().unwrap()))
    }

    fn size_hint(&self) -> (usize, Option<usize>)
        ensures { HintsExactly (length self.now) result }
    {
        let pairs = self.len();
        (pairs, Some(pairs))
    }
}

#[tactic(auto, using(crate::proofs::PairColumns::columns))]
impl<'a, V> ExactSizeIterator for Iter<'a, V> {
    fn len(&self) -> usize {
        self.keys.len()
    }
}

/// An iterator over the keys, in the order of the pairs.
#[derive(Drop)]
pub struct Keys<'a> {
    pub(crate) texts: slice::Iter<'a, String>,
}

impl<'a> Model for Keys<'a> {
    ghost use Rattle.std.specs.Prelude.{List, ℕ, map, string_bytes};
    ghost use Rattle.std.specs.Coded.{coded_list, coded_ℕ};
    ghost use Rattle.std.specs.Slice.Iter.{iter_rest};

    ghost Value = { List (List ℕ) };

    ghost coded = { coded_list (coded_list coded_ℕ) };

    ghost view = { λ a. map string_bytes (iter_rest a.texts) };
}

impl<'a> Iterator for Keys<'a> {
    type Item = &'a String;

    ghost next_gives = { TakesFirst shown_key };

    ghost remaining = { λ s. at_most (length s) };

    fn next(&mut self) -> Option<&'a String> {
        self.texts.next()
    }

    fn size_hint(&self) -> (usize, Option<usize>)
        ensures { HintsExactly (length self.now) result }
    {
        let keys = self.len();
        (keys, Some(keys))
    }
}

impl<'a> ExactSizeIterator for Keys<'a> {
    fn len(&self) -> usize {
        self.texts.len()
    }
}

/// An iterator over the values, in the order of the pairs.
#[derive(Drop)]
pub struct Values<'a, V> {
    pub(crate) values: slice::Iter<'a, V>,
}

impl<'a, V> Model for Values<'a, V> {
    ghost use Rattle.std.specs.Prelude.{List};
    ghost use Rattle.std.specs.Slice.Iter.{iter_rest};

    ghost Value = { List V };

    ghost view = { λ a. iter_rest a.values };
}

impl<'a, V> Iterator for Values<'a, V> {
    type Item = &'a V;

    ghost next_gives = { TakesFirst deref };

    ghost remaining = { λ s. at_most (length s) };

    fn next(&mut self) -> Option<&'a V> {
        self.values.next()
    }

    fn size_hint(&self) -> (usize, Option<usize>)
        ensures { HintsExactly (length self.now) result }
    {
        let values = self.len();
        (values, Some(values))
    }
}

impl<'a, V> ExactSizeIterator for Values<'a, V> {
    fn len(&self) -> usize {
        self.values.len()
    }
}

/// An iterator over the pairs by value, in their order.
#[derive(Drop)]
pub struct IntoIter<V> {
    pub(crate) keys: set::IntoIter<String>,
    pub(crate) items: vec::IntoIter<V>,
}

impl<V> Model for IntoIter<V> {
    ghost use Rattle.std.specs.Prelude.{◌≡◌, List, ℕ, length, map, string_bytes};
    ghost use Rattle.std.specs.Coded.{coded_list, coded_ℕ, coded×};
    ghost use Rattle.std.specs.List.{zip};
    ghost use Rattle.std.specs.Vec.Iter.{into_iter_items};

    ghost Value = { List (List ℕ × V) };

    ghost coded = { coded_list (coded× (coded_list coded_ℕ) V.code) };

    ghost view = { λ a. zip (map string_bytes a.keys) (into_iter_items a.items) };

    ghost invariant = { λ a. length (into_iter_items a.items) ≡ length a.keys };
}

impl<V: Drop> Iterator for IntoIter<V> {
    type Item = (String, V);

    ghost next_gives = { TakesFirst shown_owned_pair };

    ghost remaining = { λ s. at_most (length s) };

    fn next(&mut self) -> Option<(String, V)> {
        let key = self.keys.next()?;
        Some((key, self.items.next().unwrap()))
    }

    fn size_hint(&self) -> (usize, Option<usize>)
        ensures { HintsExactly (length self.now) result }
    {
        let left = self.len();
        (left, Some(left))
    }
}

#[tactic(auto, using(crate::proofs::PairColumns::columns))]
impl<V: Drop> ExactSizeIterator for IntoIter<V> {
    fn len(&self) -> usize {
        self.items.len()
    }
}
