//! Dictionaries: pairs of a key and a value, in an order in which a new key is last.

ghost use Rattle.std.specs.Prelude.{◌≡◌, ◌<◌, ◌↔◌, MatchOption, IsSome, IsTrue, Some, [], length, is_some, string_bytes, IfOk, IfSome, OnOk, IfErr, OnErr, slice_get};
ghost use Rattle.std.specs.Str.{bytes_eq};
ghost use Rattle.std.specs.Option.{option_copied, option_copied_mut};
ghost use Rattle.std.specs.Map.{lookup, keys_of, values_of};
ghost use Rattle.std.specs.Map.Iter.{ShowsInOrder, ShowsValuesInOrder, deref};
ghost use Rattle.std.specs.List.{IsAmong, IsDistinct};
ghost use Rattle.std.specs.Borrow.{sem};
ghost use Rattle.plist_pairs.specs.Keys.{HasNone, IsAbsent, IsIndexOf, IsRemovedAt, IsSetAt, IsTakenAt, shown_key, shown_owned_pair, shown_pair};
ghost use Rattle.plist.specs.ValueTrees.{pairs_of};
ghost use Rattle.plist.specs.declared.value.Value.{Value as V};
ghost use Rattle.plist.specs.Lends.{DictionaryLendsAtKey, DictionaryLendsIndex, DictionaryLendsValue};

mod bulk;
mod entry;
mod into_iter;

use crate::Value;
use crate::value::destroy_all;
pub use entry::{Entry, OccupiedEntry, VacantEntry};
pub use into_iter::IntoIter;
use plist_pairs::BoxedPairs;
pub use plist_pairs::Keys;
use std::alloc::Global;
use std::fmt;
use std::ops::{Index, IndexMut};

/// An iterator over the pairs, in their order.
pub type Iter<'a> = plist_pairs::Iter<'a, Value>;

/// An iterator over the values, in the order of the pairs.
pub type Values<'a> = plist_pairs::Values<'a, Value>;

/// A dictionary of a property list: pairs of a key and a value, each key once.
///
/// The pairs are ordered: a new key is last, and a key that is set again keeps its index. Contracts
/// see the list of the pairs, with every key as its bytes.
///
/// A dictionary is dropped without recursion and without allocating memory, however deep its values
/// are.
#[cycle(value)]
pub struct Dictionary {
    pairs: BoxedPairs<Value>,
}

impl Drop for Dictionary {
    fn drop(self) {
        let Dictionary { pairs } = self;
        destroy_all(pairs.into_inner().into_items());
    }
}

impl Dictionary {
    /// Creates a dictionary without pairs. It allocates nothing before the first insert.
    pub fn new(alloc: Global) -> Dictionary
        ensures empty { pairs_of result ≡ [] }
    {
        Dictionary {
            pairs: BoxedPairs::new(alloc),
        }
    }

    /// Removes all pairs, and keeps the memory for later ones. The values are dropped without
    /// recursion.
    ///
    /// # Examples
    ///
    /// ```rust
    /// let mut copy = settings.clone(alloc)?;
    /// if let Some(pairs) = copy.as_dictionary_mut() {
    ///     pairs.clear();
    /// }
    /// Ok(copy)
    /// ```
    pub fn clear(&mut self)
        ensures empty { pairs_of self.new ≡ [] }
    {
        if let Some(pairs) = self.pairs.as_mut() {
            pairs.clear();
        }
    }

    /// Returns the value of the key, or `None` if the key is missing.
    ///
    /// # Examples
    ///
    /// ```rust
    /// match settings.get("Enabled") {
    ///     Some(value) => value.as_boolean() == Some(true),
    ///     None => false,
    /// }
    /// ```
    pub fn get(&self, key: &str) -> Option<&Value>
        ensures value { option_copied result ≡ lookup (bytes_eq key.now) (pairs_of self.now) }
        ensures member { IfSome result (λ value. IsAmong (values_of
            (pairs_of self.now)) value.now) }
    {
        self.pairs.as_ref()?.get(key)
    }

    /// Returns `true` if the dictionary contains the key.
    ///
    /// # Examples
    ///
    /// ```rust
    /// if pairs.contains_key(key) {
    ///     return Some(&pairs[key]);
    /// }
    /// None
    /// ```
    pub fn contains_key(&self, key: &str) -> bool
        ensures { result ≡ is_some (lookup (bytes_eq key.now) (pairs_of self.now)) }
    {
        self.get(key).is_some()
    }

    /// Returns a mutable reference to the key's value, or `None` if the key is missing.
    ///
    /// # Examples
    ///
    /// ```rust
    /// let pairs = settings.as_dictionary_mut()?;
    /// *pairs.get_mut("Name")? = Value::String(name);
    /// Some(())
    /// ```
    pub fn get_mut(&mut self, key: &str) -> Option<&mut Value>
        ensures value { option_copied_mut result ≡ lookup (bytes_eq key.now) (pairs_of self.old) }
        ensures member { IfSome result (λ borrowed. IsAmong (values_of (pairs_of self.old))
            borrowed.now) }
        ensures* writes_back { sem 𝓛 (DictionaryLendsAtKey self.entry key.now result) }
    {
        match self.pairs.as_mut() {
            None => None,
            Some(pairs) => pairs.get_mut(key),
        }
    }

    /// Sets the key's value, and returns the value that it had.
    ///
    /// A key that is there keeps its index, and a new one is last.
    ///
    /// # Errors
    ///
    /// If an allocation fails, which is only possible for a new key, the pairs are unchanged, and
    /// the error is the key and the value.
    ///
    /// # Examples
    ///
    /// ```rust
    /// let mut settings = Dictionary::new(alloc);
    /// let _none = settings.insert("b".to_string(alloc)?, Value::from(7_i64))?;
    /// let _none = settings.insert("a".to_string(alloc)?, Value::Boolean(true))?;
    /// Ok(settings)
    /// ```
    pub fn insert(&mut self, key: String, value: Value) -> Result<Option<Value>, (String, Value)>
        // Result.
        ensures old { IfOk result (λ old.
            old ≡ lookup (bytes_eq (string_bytes key)) (pairs_of self.old)) }
        ensures pairs { OnOk result (IsSetAt (pairs_of self.old) (string_bytes key) value
            (pairs_of self.new)) }
        // Errors.
        ensures absent { OnErr result (IsAbsent (string_bytes key) (pairs_of self.old)) }
        ensures handed_back { IfErr result (λ back. back ≡ (key, value)) }
        // State afterwards.
        ensures unchanged { OnErr result (self.new ≡ self.old) }
    {
        self.pairs.insert(key, value)
    }

    /// Removes the key and returns its value, or returns `None` if the key is missing.
    ///
    /// The last pair moves to the index of the removed one.
    ///
    /// # Examples
    ///
    /// ```rust
    /// settings.remove("Name")?.into_string()
    /// ```
    pub fn remove(&mut self, key: &str) -> Option<Value>
        ensures value { result ≡ lookup (bytes_eq key.now) (pairs_of self.old) }
        ensures pairs { IsTakenAt (pairs_of self.old) key.now (pairs_of self.new) }
    {
        self.pairs.as_mut()?.remove(key)
    }

    /// Returns the number of pairs. The contract also states that their keys are distinct.
    pub fn len(&self) -> usize
        ensures count { result ≡ length (pairs_of self.now) }
        ensures distinct { IsDistinct bytes_eq (keys_of (pairs_of self.now)) }
    {
        self.pairs.len()
    }

    /// Returns `true` if the dictionary has no pairs.
    pub fn is_empty(&self) -> bool
        ensures { IsTrue result ↔ (pairs_of self.now ≡ []) }
    {
        self.len() == 0
    }

    /// Returns an iterator over the pairs, in their order.
    pub fn iter(&self) -> Iter<'_>
        ensures rest { result ≡ pairs_of self.now }
        ensures runs { ShowsInOrder (shown_pair {V = V}) }
        ensures values_run { ShowsValuesInOrder (shown_pair {V = V}) }
        ensures distinct { IsDistinct bytes_eq (keys_of (pairs_of self.now)) }
    {
        self.pairs.iter()
    }

    /// Returns an iterator over the keys, in the order of the pairs.
    ///
    /// # Examples
    ///
    /// ```rust
    /// for key in pairs.keys() {
    ///     write!(out, " {key}")?;
    /// }
    /// ```
    pub fn keys(&self) -> Keys<'_>
        ensures rest { result ≡ keys_of (pairs_of self.now) }
        ensures runs { ShowsInOrder shown_key }
        ensures distinct { IsDistinct bytes_eq (keys_of (pairs_of self.now)) }
    {
        self.pairs.keys()
    }

    /// Returns an iterator over the values, in the order of the pairs.
    ///
    /// # Examples
    ///
    /// ```rust
    /// let mut count: usize = 0;
    /// for value in settings.values() {
    ///     if value.as_string().is_some() {
    ///         count = count.saturating_add(1);
    ///     }
    /// }
    /// count
    /// ```
    pub fn values(&self) -> Values<'_>
        ensures rest { result ≡ values_of (pairs_of self.now) }
        ensures runs { ShowsInOrder (deref {X = V}) }
    {
        self.pairs.values()
    }

    /// Returns the values, without their keys, in the order of the pairs.
    pub fn into_items(self) -> Vec<Value>
        ensures { result.items ≡ values_of (pairs_of self) }
    {
        let Dictionary { pairs } = self;
        pairs.into_inner().into_items()
    }

    /// Returns the allocator of the pairs.
    pub fn allocator(&self) -> Global {
        self.pairs.allocator()
    }

    /// Returns the pair at an index, which must be less than the number of pairs.
    pub fn pair_at(&self, index: usize) -> (&str, &Value)
        requires { index < length (pairs_of self.now) }
        ensures { slice_get (pairs_of self.now) index ≡ Some (result.0.now, result.1.now) }
    {
        let (key, value) = self.pairs.as_ref().unwrap().pair_at(index);
        (key.as_str(), value)
    }

    // Returns the index of a key, with which an entry looks up the key only once.
    fn index_of(&self, key: &str) -> Option<usize>
        ensures { MatchOption result (HasNone key.now (pairs_of self.now))
            (IsIndexOf key.now (pairs_of self.now)) }
    {
        self.pairs.as_ref()?.index_of(key)
    }

    // Returns a mutable reference to the value at an index.
    fn value_at(&mut self, index: usize) -> &mut Value
        requires { index < length (pairs_of self.old) }
        ensures value { slice_get (values_of (pairs_of self.old)) index ≡ Some result.now }
        ensures* writes_back { sem 𝓛 (DictionaryLendsIndex self.entry index result) }
    {
        self.pairs.as_mut().unwrap().value_at(index)
    }

    // Removes the pair at an index, to which the last pair moves, and returns its value.
    fn swap_remove_at(&mut self, index: usize) -> Value
        requires { index < length (pairs_of self.old) }
        ensures value { slice_get (values_of (pairs_of self.old)) index ≡ Some result }
        ensures pairs { IsRemovedAt (pairs_of self.old) index (pairs_of self.new) }
    {
        self.pairs.as_mut().unwrap().swap_remove_at(index)
    }
}

/// Iterates over the pairs, in their order.
impl<'a> IntoIterator for &'a Dictionary {
    type Item = (&'a String, &'a Value);

    type IntoIter = Iter<'a>;

    ghost into_iter_gives = { λ dictionary iter. (iter ≡ pairs_of dictionary.now)
        × ShowsInOrder (shown_pair {V = V}) × ShowsValuesInOrder (shown_pair {V = V})
        × IsDistinct bytes_eq (keys_of (pairs_of dictionary.now)) };

    fn into_iter(self) -> Iter<'a> {
        self.iter()
    }
}

/// Iterates over the pairs by value, in their order.
impl IntoIterator for Dictionary {
    type Item = (String, Value);

    type IntoIter = IntoIter;

    ghost into_iter_gives = { λ dictionary iter. (iter ≡ pairs_of dictionary)
        × ShowsInOrder (shown_owned_pair {V = V}) × ShowsValuesInOrder (shown_owned_pair {V = V})
        × IsDistinct bytes_eq (keys_of (pairs_of dictionary)) };

    fn into_iter(self) -> IntoIter {
        let Dictionary { pairs } = self;
        IntoIter {
            pairs: pairs.into_inner().into_pairs(),
        }
    }
}

/// Formats the pairs as a map, in their order.
impl fmt::Debug for Dictionary {
    #[cycle(value)]
    fn fmt<W: fmt::Write>(&self, f: &mut fmt::Formatter<W>) -> fmt::Result {
        self.pairs.fmt(f)
    }
}

/// Returns the value of a key, which must be there; [`Dictionary::contains_key`] tests that.
impl<'q> Index<&'q str> for Dictionary {
    type Output = Value;

    ghost can_index = { λ dictionary key. IsSome (lookup (bytes_eq key.now)
        (pairs_of dictionary)) };

    ghost index_gives = { λ dictionary key value.
        lookup (bytes_eq key.now) (pairs_of dictionary) ≡ Some value };

    fn index(&self, key: &'q str) -> &Value {
        self.get(key).unwrap()
    }
}

/// Returns a mutable reference to the value of a key, which must be there.
impl<'q> IndexMut<&'q str> for Dictionary {
    fn index_mut(&mut self, key: &'q str) -> &mut Value
        requires { IsSome (lookup (bytes_eq key.now) (pairs_of self.old)) }
        ensures value { lookup (bytes_eq key.now) (pairs_of self.old) ≡ Some result.now }
        ensures* writes_back { sem 𝓛 (DictionaryLendsValue self.entry key.now result) }
    {
        self.get_mut(key).unwrap()
    }
}
