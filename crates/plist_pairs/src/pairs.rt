//! Pairs of a key and a value, each key once: the keys in a set, and the values in a vector.

ghost use Rattle.std.specs.Prelude.{◌≡◌, ◌<◌, [], Some, IfErr, IfOk, IfSome, MatchOption, OnErr, OnOk, length, map, slice_get, string_bytes, take};
ghost use Rattle.std.specs.Option.{option_copied, option_copied_mut};
ghost use Rattle.std.specs.List.{zip, IsAmong, IsDistinct};
ghost use Rattle.std.specs.Map.{keys_of, lookup, values_of};
ghost use Rattle.std.specs.Str.{bytes_eq};
ghost use Rattle.plist_pairs.specs.Keys.{IsAbsent, IsSetAt, IsTakenAt};

mod sorted;

use crate::IntoIter;
use indexmap::IndexSet;
use std::alloc::Global;
use std::marker::Model;
use std::mem;

/// A type whose values are dropped by an explicit call, since a recursive drop of a deeply nested
/// value could overflow the stack.
pub trait Discard: Drop {
    /// Drops the value.
    fn discard(self);
}

/// Pairs of a key and a value, each key once.
///
/// The pairs are ordered: a new key is last, and a key that is set again keeps its index. Contracts
/// see the list of the pairs, with each key as its bytes.
#[derive(Drop)]
pub struct Pairs<V> {
    keys: IndexSet<String>,
    items: Vec<V>,
}

impl<V> Model for Pairs<V> {
    ghost use Rattle.std.specs.Prelude.{◌≡◌, List, ℕ, length, map, string_bytes};
    ghost use Rattle.std.specs.Coded.{coded_list, coded_ℕ, coded×};
    ghost use Rattle.std.specs.List.{zip, IsDistinct};
    ghost use Rattle.std.specs.Str.{bytes_eq};

    ghost Value = { List (List ℕ × V) };

    ghost coded = { coded_list (coded× (coded_list coded_ℕ) V.code) };

    ghost view = { λ a. zip (map string_bytes a.keys.keys) a.items.items };

    ghost invariant = { λ a. (length a.items.items ≡ length a.keys.keys)
        × IsDistinct bytes_eq (map string_bytes a.keys.keys) };
}

#[tactic(auto, using(crate::proofs::PairColumns::columns))]
impl<V> Pairs<V> {
    ghost use Rattle.std.specs.Borrow.{sem};
    ghost use Rattle.plist_pairs.specs.Bulk.{Retains};
    ghost use Rattle.plist_pairs.specs.Keys.{HasNone, IsIndexOf, IsRemovedAt};
    ghost use Rattle.plist_pairs.specs.Lends.{LendsAtKey, LendsIndex};

    // Creates a `Pairs` without pairs. It allocates no memory.
    pub(crate) fn new(alloc: Global) -> Pairs<V>
        ensures { result ≡ [] }
    {
        Pairs {
            keys: IndexSet::new(alloc),
            items: Vec::new(alloc),
        }
    }

    // Drops a `Pairs` without pairs, whatever the type of values.
    pub(crate) fn destroy_empty(self)
        requires { self ≡ [] }
    {
        let Pairs { keys: _keys, items } = self;
        items.destroy_empty();
    }

    /// Removes all pairs. The capacity stays allocated for later inserts.
    pub fn clear(&mut self)
    where
        V: Discard,
        ensures { self.new ≡ [] }
    {
        self.truncate(0);
    }

    /// Returns a reference to the key's value, or `None` if the key isn't present.
    pub fn get(&self, key: &str) -> Option<&V>
        ensures value { option_copied result ≡ lookup (bytes_eq key.now) self.now }
        ensures member { IfSome result (λ value. IsAmong (values_of self.now) value.now) }
    {
        let index = self.keys.get_index_of(key)?;
        Some(&self.items[index])
    }

    /// Returns a mutable reference to the key's value, or `None` if the key isn't present.
    pub fn get_mut(&mut self, key: &str) -> Option<&mut V>
        ensures value { option_copied_mut result ≡ lookup (bytes_eq key.now) self.old }
        ensures member { IfSome result (λ borrowed. IsAmong (values_of self.old) borrowed.now) }
        ensures* writes_back { sem 𝓛 (LendsAtKey V.row self.entry key.now result) }
    {
        match self.keys.get_index_of(key) {
            None => None,
            Some(index) => self.items.get_mut(index),
        }
    }

    /// Sets the key's value, and returns the value that it had.
    ///
    /// A key that is present keeps its index, and the pair of a new key is last.
    ///
    /// # Errors
    ///
    /// If an allocation fails, which is only possible for a new key, the pairs are unchanged, and
    /// the error is the key and the value.
    #[tactic(auto, using(crate::proofs::ColumnAppends::inserting))]
    pub fn insert(&mut self, key: String, value: V) -> Result<Option<V>, (String, V)>
        // Result.
        ensures old { IfOk result (λ old. old ≡ lookup (bytes_eq (string_bytes key)) self.old) }
        ensures pairs { OnOk result (IsSetAt self.old (string_bytes key) value self.new) }
        // Errors.
        ensures absent { OnErr result (IsAbsent (string_bytes key) self.old) }
        ensures handed_back { IfErr result (λ back. back ≡ (key, value)) }
        // State afterwards.
        ensures unchanged { OnErr result (self.new ≡ self.old) }
    {
        match self.keys.insert_full(key) {
            Err(refused) => Err((refused.value, value)),
            Ok((index, false)) => Ok(Some(mem::replace(&mut self.items[index], value))),
            Ok((_, true)) => match self.items.push(value) {
                Ok(()) => Ok(None),
                Err(refused) => Err((self.keys.pop().unwrap(), refused.value)),
            },
        }
    }

    /// Removes the key and returns its value, or returns `None` if the key isn't present.
    ///
    /// The last pair moves to the index of the removed one.
    pub fn remove(&mut self, key: &str) -> Option<V>
        ensures value { result ≡ lookup (bytes_eq key.now) self.old }
        ensures pairs { IsTakenAt self.old key.now self.new }
    {
        let (index, _key) = self.keys.swap_remove_full(key)?;
        Some(self.items.swap_remove(index))
    }

    // Returns the keys and the values, in the order of the pairs.
    pub(crate) fn columns(&self) -> (&[String], &[V])
        ensures keys { map string_bytes result.0.now ≡ keys_of self.now }
        ensures values { result.1.now ≡ values_of self.now }
        ensures pairs { zip (map string_bytes result.0.now) result.1.now ≡ self.now }
        ensures count { length result.0.now ≡ length self.now }
        ensures same_count { length result.1.now ≡ length result.0.now }
        ensures distinct { IsDistinct bytes_eq (keys_of self.now) }
    {
        (self.keys.as_slice(), self.items.as_slice())
    }

    /// Returns an iterator over the pairs by value, in their order.
    pub fn into_pairs(self) -> IntoIter<V>
        ensures pairs { result ≡ self }
        ensures distinct { IsDistinct bytes_eq (keys_of self) }
    {
        let Pairs { keys, items } = self;
        IntoIter {
            keys: keys.into_iter(),
            items: items.into_iter(),
        }
    }

    /// Returns the values, without their keys, in the order of the pairs.
    pub fn into_items(self) -> Vec<V>
        ensures { result.items ≡ values_of self }
    {
        let Pairs { keys: _keys, items } = self;
        items
    }

    /// Returns the index of a key, or `None` if the key isn't present.
    pub fn index_of(&self, key: &str) -> Option<usize>
        ensures { MatchOption result (HasNone key.now self.now) (IsIndexOf key.now self.now) }
    {
        self.keys.get_index_of(key)
    }

    /// Returns the pair at an index, which must be less than the number of pairs.
    pub fn pair_at(&self, index: usize) -> (&String, &V)
        requires { index < length self.now }
        ensures { slice_get self.now index ≡ Some (string_bytes result.0.now, result.1.now) }
    {
        (&self.keys.as_slice()[index], &self.items[index])
    }

    /// Returns a mutable reference to the value at an index, which must be less than the number of
    /// pairs.
    pub fn value_at(&mut self, index: usize) -> &mut V
        requires { index < length self.old }
        ensures value { slice_get (values_of self.old) index ≡ Some result.now }
        ensures* writes_back { sem 𝓛 (LendsIndex V.row self.entry index result) }
    {
        &mut self.items[index]
    }

    /// Removes the pair at an index, which must be less than the number of pairs, and returns its
    /// value. The last pair moves to this index.
    pub fn swap_remove_at(&mut self, index: usize) -> V
        requires { index < length self.old }
        ensures value { slice_get (values_of self.old) index ≡ Some result }
        ensures pairs { IsRemovedAt self.old index self.new }
    {
        let _ = self.keys.swap_remove_index(index);
        self.items.swap_remove(index)
    }

    fn len(&self) -> usize
        ensures { result ≡ length self.now }
    {
        self.keys.len()
    }

    // Drops the pairs after the first `count`, the last one first.
    fn truncate(&mut self, count: usize)
    where
        V: Discard,
        ensures { self.new ≡ take count self.old }
    {
        self.keys.truncate(count);
        while self.items.len() > count {
            if let Some(value) = self.items.pop() {
                value.discard();
            }
        }
    }

    /// Keeps the pairs for which the closure returns `true`, in their order, and drops the others.
    /// The closure is called once for each pair, in their order.
    pub fn retain<F: Fn(&String, &V) -> bool>(&mut self, keep: F)
    where
        V: Discard,
        requires { F.IsAlwaysCallable keep }
        ensures kept { Retains F.Fn keep self.old self.new }
    {
        let mut kept = 0;
        for i in 0..self.len() {
            let (key, value) = self.pair_at(i);
            if keep(key, value) {
                self.keys.swap_indices(kept, i);
                self.items.swap(kept, i);
                kept += 1;
            }
        }
        self.truncate(kept);
    }
}
