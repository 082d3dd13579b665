//! The entry of a key in a dictionary.
//!
//! A clause `writes_back` says what the pairs are once the returned borrow has ended.

ghost use Rattle.std.specs.Prelude.{◌≡◌, ◌<◌, false, length, None, Some, IfErr, IfOk, OnErr, is_some, string_bytes, unwrap_or};
ghost use Rattle.std.specs.Str.{bytes_eq};
ghost use Rattle.std.specs.Map.{lookup};
ghost use Rattle.plist.specs.ValueTrees.{pairs_of};

use crate::{Dictionary, Value};
use std::mem;

/// The entry of a key in a dictionary: the key's pair, or a vacant entry if the key is missing.
#[derive(Drop)]
pub enum Entry<'a> {
    /// The key is missing.
    Vacant(VacantEntry<'a>),
    /// The key is present.
    Occupied(OccupiedEntry<'a>),
}

/// The entry of a missing key. It owns the key.
#[derive(Drop)]
pub struct VacantEntry<'a> {
    pairs: &'a mut Dictionary,
    key: String,
    ghost absent: { is_some (lookup (bytes_eq (string_bytes key)) (pairs_of pairs.now)) ≡ false },
}

/// The entry of a key that is there.
#[derive(Drop)]
pub struct OccupiedEntry<'a> {
    pairs: &'a mut Dictionary,
    at: usize,
    ghost within: { at < length (pairs_of pairs.now) },
}

impl Dictionary {
    ghost use Rattle.plist.specs.Entries.{Inserts, Removes, entry_key, entry_pairs, entry_ref, entry_value, kept_key, unless_there};

    /// Returns the entry of the key. It allocates no memory; only the insert of a vacant entry
    /// does.
    ///
    /// # Examples
    ///
    /// ```rust
    /// for key in ["b", "c"] {
    ///     let _value = settings
    ///         .entry(key.to_string(alloc)?)
    ///         .or_insert(Value::Boolean(false))?;
    /// }
    /// Ok(())
    /// ```
    #[tactic(auto, using(crate::proofs::Tops::entry_steps))]
    pub fn entry(&mut self, key: String) -> Entry<'_>
        // Result.
        ensures now { entry_pairs result ≡ pairs_of self.old }
        ensures key { entry_key result ≡ Some (string_bytes key) }
        ensures value { entry_value result ≡ lookup (bytes_eq (string_bytes key))
            (pairs_of self.old) }
        ensures kept { kept_key result ≡ unless_there key (pairs_of self.old) }
        // State afterwards.
        ensures same_pairs { (entry_ref result).ghost_name ≡ self.entry.ghost_name }
        ensures writes { Inserts result (pairs_of self.old) (string_bytes key) }
        ensures removes { Removes result (pairs_of self.old) (string_bytes key) }
    {
        match self.index_of(key.as_str()) {
            Some(at) => Entry::Occupied(OccupiedEntry { pairs: self, at }),
            None => Entry::Vacant(VacantEntry { pairs: self, key }),
        }
    }
}

impl<'a> OccupiedEntry<'a> {
    ghost use Rattle.std.specs.Borrow.{sem};
    ghost use Rattle.std.specs.List.{IsAmong};
    ghost use Rattle.std.specs.Map.{values_of};
    ghost use Rattle.plist.specs.Entries.{IsSameEntry, IsTaken, Occupied, entry_key, entry_lends, entry_pairs, entry_value, occupied_lends, with_value};

    /// Returns the key.
    pub fn key(&self) -> &String
        ensures { entry_key (Occupied self.now) ≡ Some (string_bytes result.now) }
    {
        self.pairs.pairs.as_ref().unwrap().pair_at(self.at).0
    }

    /// Returns the key's value.
    #[tactic(auto, using(plist_pairs::proofs::EntrySteps::entries))]
    pub fn get(&self) -> &Value
        ensures value { entry_value (Occupied self.now) ≡ Some result.now }
        ensures member { IsAmong (values_of (entry_pairs (Occupied self.now))) result.now }
    {
        self.pairs.pair_at(self.at).1
    }

    /// Returns a mutable reference to the key's value.
    pub fn get_mut(&mut self) -> &mut Value
        ensures value { entry_value (Occupied self.old) ≡ Some result.now }
        ensures* writes_back { sem 𝓛 (occupied_lends self.entry result) }
    {
        let index = self.at;
        self.pairs.value_at(index)
    }

    /// Returns a mutable reference to the key's value, for as long as the dictionary is borrowed.
    pub fn into_mut(self) -> &'a mut Value
        ensures value { entry_value (Occupied self.entry) ≡ Some result.now }
        ensures member { IsAmong (values_of (entry_pairs (Occupied self.entry))) result.now }
        ensures* writes_back { sem 𝓛 (entry_lends (Occupied self.entry) result) }
    {
        let OccupiedEntry { pairs, at } = self;
        pairs.value_at(at)
    }

    /// Sets the key's value, and returns the value that it had.
    #[tactic(auto, using(plist_pairs::proofs::EntrySteps::entries))]
    pub fn insert(&mut self, value: Value) -> Value
        ensures old { entry_value (Occupied self.old) ≡ Some result }
        ensures unchanged { IsSameEntry self.old self.new }
        ensures pairs { entry_pairs (Occupied self.new) ≡ with_value (Occupied self.old) value }
    {
        let at = self.at;
        mem::replace(self.pairs.value_at(at), value)
    }

    /// Removes the key, and returns its value. The last pair moves to its index.
    pub fn remove(self) -> Value
        ensures value { entry_value (Occupied self.entry) ≡ Some result }
        ensures pairs { IsTaken (Occupied self.entry) (pairs_of self.exit.0.now) }
    {
        let at = self.at;
        self.pairs.swap_remove_at(at)
    }
}

impl<'a> VacantEntry<'a> {
    ghost use Rattle.std.specs.Borrow.{sem};
    ghost use Rattle.plist.specs.Entries.{HandsBack, Vacant, entry_lends_ok, kept_key};

    /// Returns the key that an insert would add.
    pub fn key(&self) -> &String
        ensures { kept_key (Vacant self.now) ≡ Some result.now }
    {
        &self.key
    }

    /// Adds the key with the given value, as the last pair, and returns a mutable reference to the
    /// value.
    ///
    /// # Errors
    ///
    /// If an allocation fails, the dictionary is unchanged, and the error is the key and the value.
    #[tactic(auto, using(crate::proofs::Tops::entry_steps))]
    pub fn insert(self, value: Value) -> Result<&'a mut Value, (String, Value)>
        ensures value { IfOk result (λ borrowed. borrowed.now ≡ value) }
        ensures handed_back { IfErr result (HandsBack (Vacant self.entry) (λ v. v ≡ value)) }
        ensures* writes_back { sem 𝓛 (entry_lends_ok (Vacant self.entry) result) }
    {
        let VacantEntry { pairs, key } = self;
        let at = pairs.len();
        pairs.insert(key, value)?;
        Ok(pairs.value_at(at))
    }
}

impl<'a> Entry<'a> {
    ghost use Rattle.std.specs.Borrow.{sem};
    ghost use Rattle.plist.specs.Entries.{HandsBack, HasOrMakes, entry_key, entry_lends_ok, entry_value};

    /// Returns the key.
    pub fn key(&self) -> &String
        ensures { entry_key self.now ≡ Some (string_bytes result.now) }
    {
        match self {
            Entry::Vacant(entry) => entry.key(),
            Entry::Occupied(entry) => entry.key(),
        }
    }

    /// Returns a mutable reference to the key's value. If the key is missing, it is first added
    /// with the given value.
    ///
    /// # Errors
    ///
    /// Any error of [`VacantEntry::insert`].
    ///
    /// # Examples
    ///
    /// ```rust
    /// for key in ["b", "c"] {
    ///     let _value = settings
    ///         .entry(key.to_string(alloc)?)
    ///         .or_insert(Value::Boolean(false))?;
    /// }
    /// Ok(())
    /// ```
    pub fn or_insert(self, value: Value) -> Result<&'a mut Value, (String, Value)>
        ensures value { IfOk result (λ borrowed. borrowed.now
            ≡ unwrap_or (entry_value self.entry) value) }
        ensures absent { OnErr result (entry_value self.entry ≡ None) }
        ensures handed_back { IfErr result (HandsBack self.entry (λ v. v ≡ value)) }
        ensures* writes_back { sem 𝓛 (entry_lends_ok self.entry result) }
    {
        match self {
            Entry::Vacant(entry) => entry.insert(value),
            Entry::Occupied(found) => {
                value.destroy();
                Ok(found.into_mut())
            }
        }
    }

    /// Does what [`Entry::or_insert`] does, but with the value that the closure returns. The
    /// closure is called only if the key is missing.
    ///
    /// # Errors
    ///
    /// Any error of [`VacantEntry::insert`].
    ///
    /// # Examples
    ///
    /// ```rust
    /// let flag = settings.entry(key).or_insert_with(|| Value::Boolean(true))?;
    /// Ok(flag.as_boolean() == Some(true))
    /// ```
    pub fn or_insert_with<F: FnOnce() -> Value>(
        self,
        value: F,
    ) -> Result<&'a mut Value, (String, Value)>
        requires { entry_value self ≡ None → F.pre value }
        ensures value { IfOk result (HasOrMakes self.entry (F.post value)) }
        ensures absent { OnErr result (entry_value self.entry ≡ None) }
        ensures handed_back { IfErr result (HandsBack self.entry (F.post value)) }
        ensures* writes_back { sem 𝓛 (entry_lends_ok self.entry result) }
    {
        match self {
            Entry::Vacant(entry) => entry.insert(value()),
            Entry::Occupied(entry) => Ok(entry.into_mut()),
        }
    }
}
