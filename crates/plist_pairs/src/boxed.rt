//! Pairs in a box, which the first insert allocates.

ghost use Rattle.std.specs.Prelude.{◌≡◌, None, Some, [], length, map, string_bytes, IfErr, IfOk, MatchOption, OnErr, OnOk};
ghost use Rattle.std.specs.List.{zip, IsDistinct};
ghost use Rattle.std.specs.Str.{bytes_eq};
ghost use Rattle.std.specs.Map.{keys_of, lookup, values_of};
ghost use Rattle.plist_pairs.specs.Keys.{IsAbsent, IsSetAt};

use crate::{Iter, Keys, Pairs, Values};
use std::alloc::Global;
use std::fmt;
use std::marker::Model;

/// Pairs in a box that the first insert allocates, so that a type that contains them is small.
///
/// Contracts see the list of the pairs, with each key as its bytes.
#[derive(Drop)]
pub struct BoxedPairs<V> {
    pairs: Option<Box<Pairs<V>>>,
    alloc: Global,
}

impl<V> Model for BoxedPairs<V> {
    ghost use Rattle.std.specs.Prelude.{List, ℕ, []};
    ghost use Rattle.std.specs.Coded.{coded_list, coded_ℕ, coded×};
    ghost use Rattle.std.specs.Option.{option_map_or};

    ghost Value = { List (List ℕ × V) };

    ghost coded = { coded_list (coded× (coded_list coded_ℕ) V.code) };

    ghost view = { λ a. option_map_or (λ b. b.value) a.pairs [] };
}

impl<V> BoxedPairs<V> {
    ghost use Rattle.std.specs.Borrow.{sem};
    ghost use Rattle.plist_pairs.specs.Lends.{LendsPairs};

    /// Creates a `BoxedPairs` without pairs. It allocates nothing before the first insert.
    pub fn new(alloc: Global) -> BoxedPairs<V>
        ensures empty { result ≡ [] }
    {
        BoxedPairs { pairs: None, alloc }
    }

    /// Returns a reference to the pairs, or `None` if nothing was inserted yet.
    pub fn as_ref(&self) -> Option<&Pairs<V>>
        ensures { MatchOption result (self.now ≡ []) (λ pairs. pairs.now ≡ self.now) }
    {
        match &self.pairs {
            None => None,
            Some(pairs) => Some(pairs),
        }
    }

    /// Returns a mutable reference to the pairs, or `None` if nothing was inserted yet.
    pub fn as_mut(&mut self) -> Option<&mut Pairs<V>>
        ensures pairs { MatchOption result (self.old ≡ []) (λ pairs. pairs.now ≡ self.old) }
        ensures* writes_back { sem 𝓛 (LendsPairs V.row self.entry result) }
    {
        match &mut self.pairs {
            None => None,
            Some(pairs) => Some(pairs),
        }
    }

    /// Sets the key's value, as [`Pairs::insert`] does.
    ///
    /// # Errors
    ///
    /// If an allocation fails, which is only possible for a new key, the pairs are unchanged, and
    /// the error is the key and the value.
    pub fn insert(&mut self, key: String, value: V) -> Result<Option<V>, (String, V)>
        // Result.
        ensures old { IfOk result (λ old. old ≡ lookup (bytes_eq (string_bytes key)) self.old) }
        ensures pairs { OnOk result (IsSetAt self.old (string_bytes key) value self.new) }
        // Errors.
        ensures absent { OnErr result (IsAbsent (string_bytes key) self.old) }
        ensures handed_back { IfErr result (λ back. back ≡ (key, value)) }
        // State afterwards.
        ensures unchanged { OnErr result (self.new ≡ self.old) }
    {
        if let Some(pairs) = &mut self.pairs {
            return pairs.insert(key, value);
        }
        let mut pairs = match Box::new(self.alloc, Pairs::new(self.alloc)) {
            Ok(pairs) => pairs,
            Err(refused) => {
                refused.value.destroy_empty();
                return Err((key, value));
            }
        };
        let answer = pairs.insert(key, value);
        // An assignment would have to drop the old box, which isn't possible for every type of
        // values.
        if let Some(before) = self.pairs.replace(pairs) {
            Box::into_inner(before).destroy_empty();
        }
        answer
    }

    // Returns the keys and the values, in the order of the pairs.
    #[tactic(auto, using(crate::proofs::PairColumns::no_keys))]
    fn columns(&self) -> (&[String], &[V])
        ensures keys { map string_bytes result.0.now ≡ keys_of self.now }
        ensures values { result.1.now ≡ values_of self.now }
        ensures pairs { zip (map string_bytes result.0.now) result.1.now ≡ self.now }
        ensures count { length result.0.now ≡ length self.now }
        ensures same_count { length result.1.now ≡ length result.0.now }
        ensures distinct { IsDistinct bytes_eq (keys_of self.now) }
    {
        match &self.pairs {
            None => (&[], &[]),
            Some(pairs) => pairs.columns(),
        }
    }

    /// Returns the number of pairs. The contract also states that their keys are distinct.
    pub fn len(&self) -> usize
        ensures count { result ≡ length self.now }
        ensures distinct { IsDistinct bytes_eq (keys_of self.now) }
    {
        self.columns().0.len()
    }

    /// Returns an iterator over the pairs, in their order.
    pub fn iter(&self) -> Iter<'_, V>
        ensures rest { result ≡ self.now }
        ensures distinct { IsDistinct bytes_eq (keys_of self.now) }
    {
        let (keys, values) = self.columns();
        Iter {
            keys: keys.iter(),
            items: values.iter(),
        }
    }

    /// Returns an iterator over the keys, in the order of the pairs.
    pub fn keys(&self) -> Keys<'_>
        ensures rest { result ≡ keys_of self.now }
        ensures distinct { IsDistinct bytes_eq (keys_of self.now) }
    {
        Keys {
            texts: self.columns().0.iter(),
        }
    }

    /// Returns an iterator over the values, in the order of the pairs.
    pub fn values(&self) -> Values<'_, V>
        ensures { result ≡ values_of self.now }
    {
        Values {
            values: self.columns().1.iter(),
        }
    }

    /// Returns the pairs. It allocates no memory, even if nothing was inserted yet.
    pub fn into_inner(self) -> Pairs<V>
        ensures { result ≡ self }
    {
        let BoxedPairs { pairs, alloc } = self;
        match pairs {
            None => Pairs::new(alloc),
            Some(pairs) => Box::into_inner(pairs),
        }
    }

    /// Returns the allocator that the pairs use.
    pub fn allocator(&self) -> Global {
        self.alloc
    }
}

/// Formats the pairs as a map, in their order.
impl<V: fmt::Debug> fmt::Debug for BoxedPairs<V> {
    fn fmt<W: fmt::Write>(&self, f: &mut fmt::Formatter<W>) -> fmt::Result {
        f.debug_map().entries(self.iter()).finish()
    }
}
