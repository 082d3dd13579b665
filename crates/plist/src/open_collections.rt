//! The collections that are open while a value is built.

ghost use Rattle.std.specs.Prelude.{◌≡◌, ◌<◌, ◌∷◌, [], length, map, reverse, IfOk, MatchOption, OnOk, Some, false, string_bytes, true};
ghost use Rattle.plist.specs.Building.{InDictionary, Within};
ghost use Rattle.plist.specs.LastWins.{with_pair};
ghost use Rattle.plist.specs.OpenCollections.{Items, open_of, within};
ghost use Rattle.plist.specs.ValueTrees.{tree_of};
ghost use Rattle.plist.specs.inner.BuilderSteps.{and_tree};
ghost use Rattle.plist.specs.inner.CollectionSteps.{AddsKey, AddsPair, CannotEnd, ChangesInnermost, Closes, EndsInnermost, TakesKey, expected_in};

use crate::open_arrays::OpenArrays;
use crate::{Dictionary, Value};
use plist_buffer::Expect;
use std::alloc::{AllocError, Global};
use std::marker::Model;

/// What an open collection is.
#[derive(Clone, Copy)]
enum Level {
    Array,
    Dictionary,
}

/// A dictionary that hasn't ended, with its pairs so far.
#[derive(Drop)]
struct OpenDictionary {
    pairs: Dictionary,
    // The key whose value is next. If it is `None`, a key or the end is next.
    key: Option<String>,
}

/// Open collections that are nested in one another, with their contents so far.
///
/// An array that has no items yet takes five bytes, as long as the indices of items fit in four
/// bytes. Contracts see the contents of every collection, innermost first.
#[derive(Drop)]
pub(crate) struct OpenCollections {
    // What each collection is, outermost first.
    levels: Vec<Level>,
    // The collections that are arrays.
    arrays: OpenArrays,
    // The collections that are dictionaries, outermost first.
    dictionaries: Vec<OpenDictionary>,
}

impl Model for OpenCollections {
    ghost use Rattle.std.specs.Prelude.{List, reverse};
    ghost use Rattle.std.specs.Coded.{codes};
    ghost use Rattle.plist.specs.contracts.open_collections.OpenDictionary as dictionary;
    ghost use Rattle.plist.specs.contracts.value.Value as value;
    ghost use Rattle.plist.specs.OpenCollections.{Contents, HaveContents, contents_by_level};

    ghost Value = { List Contents };

    ghost coded = { Prim.hlevel (codes, value.the_row.coded, dictionary.the_row.coded) };

    ghost view = { λ collections. contents_by_level (reverse collections.levels.items)
        collections.arrays (reverse collections.dictionaries.items) };

    ghost invariant = { λ collections. HaveContents (reverse collections.levels.items)
        collections.arrays (reverse collections.dictionaries.items) };
}

// Adds a value to the innermost dictionary, in a pair with the last key. If an allocation fails,
// the value is dropped.
#[tactic(auto, using(crate::proofs::Tops::innermost))]
fn add_pair(dictionaries: &mut Vec<OpenDictionary>, value: Value) -> Result<(), AllocError>
    ensures added { OnOk result (AddsPair (reverse dictionaries.old.items) value
        (reverse dictionaries.new.items)) }
    ensures outer { ChangesInnermost (reverse dictionaries.old.items)
        (reverse dictionaries.new.items) }
{
    let Some(innermost) = dictionaries.last_mut() else {
        return Ok(());
    };
    let Some(key) = innermost.key.take() else {
        value.destroy();
        return Ok(());
    };
    let set = innermost.pairs.set(key, value);
    // This is called only for its contract, which says that the keys are distinct.
    let _ = innermost.pairs.len();
    match set {
        Ok(()) => Ok(()),
        Err(_) => Err(AllocError),
    }
}

// Adds a key, whose value is next, to the innermost dictionary.
#[tactic(auto, using(crate::proofs::Tops::innermost))]
fn add_key(dictionaries: &mut Vec<OpenDictionary>, key: String)
    ensures added { AddsKey (reverse dictionaries.old.items) key
        (reverse dictionaries.new.items) }
    ensures outer { ChangesInnermost (reverse dictionaries.old.items)
        (reverse dictionaries.new.items) }
{
    if let Some(innermost) = dictionaries.last_mut() {
        innermost.key = Some(key);
    }
}

// Removes the innermost dictionary and returns its pairs, unless a key has no value yet.
fn end_dictionary(dictionaries: &mut Vec<OpenDictionary>) -> Option<Dictionary>
    ensures { EndsInnermost (reverse dictionaries.old.items) result
        (reverse dictionaries.new.items) }
{
    if dictionaries.last()?.key.is_some() {
        return None;
    }
    let OpenDictionary { pairs, key: _key } = dictionaries.pop()?;
    Some(pairs)
}

impl OpenCollections {
    /// Creates a list of no collections. It allocates no memory.
    pub(crate) fn new(alloc: Global) -> OpenCollections
        ensures { result ≡ [] }
    {
        OpenCollections {
            levels: Vec::new(alloc),
            arrays: OpenArrays::new(alloc),
            dictionaries: Vec::new(alloc),
        }
    }

    /// Returns `true` if no collection is open.
    pub(crate) fn is_empty(&self) -> bool
        ensures yes { result ≡ true → self.now ≡ [] }
        ensures no { result ≡ false → 0 < length self.now }
    {
        self.levels.is_empty()
    }

    /// Returns what is expected in the innermost collection, or a value if none is open.
    pub(crate) fn expect(&self) -> Expect
        ensures { result ≡ expected_in self.now }
    {
        match self.levels.last() {
            None => Expect::OneValue,
            Some(Level::Array) => Expect::Items,
            Some(Level::Dictionary) => match self.dictionaries.last() {
                Some(OpenDictionary { key: None, .. }) => Expect::Pairs,
                Some(OpenDictionary { key: Some(_), .. }) | None => Expect::OneValue,
            },
        }
    }

    /// Opens an array in the innermost collection.
    pub(crate) fn open_array(&mut self) -> Result<(), AllocError>
        ensures { OnOk result (self.new ≡ Items [] ∷ self.old) }
    {
        self.levels.reserve(1)?;
        self.arrays.open()?;
        self.levels.push_reserved(Level::Array);
        Ok(())
    }

    /// Opens a dictionary in the innermost collection.
    pub(crate) fn open_dictionary(&mut self, alloc: Global) -> Result<(), AllocError>
        ensures { OnOk result (within self.new
            ≡ Within (InDictionary []) (map open_of self.old)) }
    {
        self.levels.reserve(1)?;
        self.dictionaries.push(OpenDictionary {
            pairs: Dictionary::new(alloc),
            key: None,
        })?;
        self.levels.push_reserved(Level::Dictionary);
        Ok(())
    }

    /// Adds a key to the innermost collection, which is a dictionary in which a key may be next.
    #[tactic(auto, using(crate::proofs::OpenLevels::open_levels))]
    pub(crate) fn add_key(&mut self, key: String)
        requires { expected_in self.old ≡ Expect.Pairs }
        ensures { TakesKey self.old (string_bytes key) self.new }
    {
        add_key(&mut self.dictionaries, key);
    }

    /// Adds a value to the innermost collection. If an allocation fails, the value is dropped.
    pub(crate) fn add(&mut self, value: Value) -> Result<(), AllocError>
        requires { 0 < length self.old }
        ensures { OnOk result (within self.new
            ≡ and_tree with_pair (tree_of value) (map open_of self.old)) }
    {
        match self.levels.last() {
            None => Ok(()),
            Some(Level::Array) => self.arrays.push(value),
            Some(Level::Dictionary) => add_pair(&mut self.dictionaries, value),
        }
    }

    /// Closes the innermost collection and returns it as a value. If no collection is open, or a
    /// key has no value yet, it returns `None`.
    pub(crate) fn close(&mut self, alloc: Global) -> Result<Option<Value>, AllocError>
        ensures { IfOk result (λ found. MatchOption found (CannotEnd self.old)
            (λ value. Closes self.old value self.new)) }
    {
        match self.levels.pop() {
            None => Ok(None),
            Some(Level::Array) => match self.arrays.close(alloc) {
                Ok(items) => Ok(Some(Value::Array(items))),
                Err(error) => {
                    self.levels.push_reserved(Level::Array);
                    Err(error)
                }
            },
            Some(Level::Dictionary) => match end_dictionary(&mut self.dictionaries) {
                Some(pairs) => Ok(Some(Value::Dictionary(pairs))),
                None => {
                    self.levels.push_reserved(Level::Dictionary);
                    Ok(None)
                }
            },
        }
    }

    /// Closes all collections, and drops their contents without recursion.
    pub(crate) fn clear(&mut self)
        ensures { self.new ≡ [] }
    {
        self.levels.clear();
        self.arrays.clear();
        self.dictionaries.clear();
    }
}
