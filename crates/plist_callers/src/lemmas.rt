//! Proved callers whose proofs cite lemmas of the libraries. They insert the pairs of lists, build
//! values from events, also from copied ones, write files from a value's events, write values
//! through entries, and use `==` and its laws.

ghost use Rattle.std.specs.Prelude.{◌≡◌, [], IfOk, IfSome, Ok, OnOk, filter, map, option_map, string_bytes, true};
ghost use Rattle.std.specs.Map.{lookup};
ghost use Rattle.std.specs.Str.{bytes_eq};
ghost use Rattle.indexmap.specs.IndexMap.{insert_all};
ghost use Rattle.plist_base.specs.Outcomes.{IfFault, OnlyMemory};
ghost use Rattle.plist_base.specs.Trees.{Tree};
ghost use Rattle.plist_base.specs.Unfolding.{items_of_file};
ghost use Rattle.plist_pairs.specs.Keys.{shown_owned_pair};
ghost use Rattle.plist_pairs.specs.TreeEquality.{same, IsTransitive, DecidesScalars, DecidesDictionaries, same_members};
ghost use Rattle.plist_reader.specs.Reader.{items_of_input};
ghost use Rattle.plist.specs.Collecting.{built_tree};
ghost use Rattle.plist.specs.ValueTrees.{pair_trees, pairs_of, tree_of};
ghost use Rattle.plist.specs.ValueOfItems.{IsReadBack, IsValueOf, ReadsItems};
ghost use Rattle.plist.specs.WrittenEvents.{StopsWriter};
ghost use Rattle.plist.specs.inner.DeferredPairs.{same_values_at};

use plist::dictionary::Entry;
use plist::{Builder, Dictionary, Value, write_value};
use plist_base::{Error, Source, copy_events};
use plist_binread::BinaryReader;
use plist_binwrite::{FileWriter, Sharing};
use plist_reader::Reader;
use std::alloc::Global;
use std::mem;

/// Inserts the pairs of a list, in their order.
///
/// # Errors
///
/// `OutOfMemory`, without an offset, if an allocation fails. The pairs are as
/// [`Dictionary::extend`] leaves them after an error.
pub fn insert_each(to: &mut Dictionary, all: Vec<(String, Value)>) -> Result<(), Error>
    ensures { OnOk result (pairs_of to.new
        ≡ insert_all bytes_eq (pairs_of to.old) (map shown_owned_pair all.items)) }
{
    to.extend(all)
}

/// Makes a dictionary from a list, whose pairs are inserted in their order.
///
/// # Errors
///
/// `OutOfMemory`, without an offset, if an allocation fails. All pairs are dropped then.
pub fn of_list(alloc: Global, all: Vec<(String, Value)>) -> Result<Dictionary, Error>
    ensures { IfOk result (λ made.
        pairs_of made ≡ insert_all bytes_eq [] (map shown_owned_pair all.items)) }
{
    Dictionary::from_pairs(alloc, all)
}

/// Drops all pairs except the one with the given key.
pub fn keep_only(pairs: &mut Dictionary, name: &str)
    ensures { pairs_of pairs.new ≡ filter (λ pair. bytes_eq pair.0 name.now) (pairs_of pairs.old) }
{
    pairs.retain(
        |key: &String, _value: &Value| -> bool
            ensures { result ≡ bytes_eq (string_bytes key.now) name.entry.now }
        { key.as_str() == name },
    );
}

/// Returns the value of a binary property list, which a [`BinaryReader`] reads.
///
/// # Errors
///
/// The errors are those of [`Value::from_events`].
pub fn value_of_binary<R: Source>(alloc: Global, source: R) -> Result<Value, Error>
    ensures value { ReadsItems items_of_file (R.known source) result }
{
    Value::from_events(alloc, BinaryReader::new(alloc, source))
}

/// Builds a copy of a value from the value's events.
///
/// # Errors
///
/// `OutOfMemory`, without an offset, if an allocation fails.
pub fn value_again(alloc: Global, value: &Value) -> Result<Value, Error>
    ensures value { IsReadBack (tree_of value.now) (built_tree result) }
    ensures memory { OnlyMemory result }
{
    Value::from_events(alloc, value.events(alloc))
}

/// Copies the events of an input of either format to a builder, and returns the value that it has
/// built, which is the value of the items of the input.
///
/// # Errors
///
/// Any error of the reader, of the builder's `write`, and of [`Builder::finish`].
#[tactic(auto, using(plist::proofs::CopiedValues::copied_value))]
pub fn value_by_copy(alloc: Global, bytes: &[u8]) -> Result<Value, Error>
    ensures value { IfOk result (λ value.
        IsValueOf (items_of_input bytes.now) (Ok (tree_of value))) }
{
    let mut reader = Reader::new(alloc, bytes);
    let mut builder = Builder::new(alloc);
    copy_events(&mut reader, &mut builder)?;
    let value = builder.finish()?;
    Ok(value)
}

/// Returns the file that a new writer writes for a value's events. `S` decides which objects are
/// shared.
///
/// # Errors
///
/// `PlistTooLarge`, `OutOfMemory` or `Io`, without an offset.
pub fn file_by_events<S: Sharing>(alloc: Global, value: &Value) -> Result<Vec<u8>, Error>
    ensures file { IfOk result (λ file. S.kind.IsFile (tree_of value.now) file.items) }
    ensures refused { IfFault result StopsWriter }
{
    let mut writer = FileWriter::<Vec<u8>, S>::new(alloc, Vec::new(alloc));
    write_value(alloc, value, &mut writer)?;
    Ok(writer.into_inner())
}

/// Returns whether two values are equal, that is, whether their trees are the same up to the order
/// of a dictionary's pairs. The laws say that `same`, which compares trees in this way, is an
/// equivalence. Two scalars are the same if and only if they are equal, and two dictionaries are
/// the same if and only if they have the same values at all keys.
#[tactic(auto, using(plist::proofs::SameTrees::sameness))]
pub fn are_equal(value: &Value, other: &Value) -> bool
    // Result.
    ensures same { result ≡ same (tree_of value.now) (tree_of other.now) }
    // Laws.
    ensures reflexive { (tree : Tree) → same tree tree ≡ true }
    ensures symmetric { (tree other : Tree) → same tree other ≡ same other tree }
    ensures transitive { IsTransitive }
    ensures scalars { DecidesScalars }
    ensures dictionaries { DecidesDictionaries }
{
    value == other
}

/// Returns whether two dictionaries are equal, that is, whether they are equal as values.
#[tactic(auto, using(plist::proofs::SameTrees::same_dictionaries))]
pub fn are_equal_dictionaries(pairs: &Dictionary, others: &Dictionary) -> bool
    ensures same { result ≡ same_members (pair_trees (pairs_of pairs.now))
        (pair_trees (pairs_of others.now)) }
    ensures pairs { result ≡ same_values_at (pairs_of pairs.now) (pairs_of others.now) }
{
    let _counts = (pairs.len(), others.len());
    pairs == others
}

/// Two values that a key had, one after the other.
pub struct Replaced {
    /// The value that the key had first.
    pub was: Value,
    /// The value that was set.
    pub next: Value,
}

/// Sets the value of a key through its entry if the key is there, and then removes the key. Returns
/// the two values, or `None` if the key isn't there.
pub fn set_and_take(pairs: &mut Dictionary, key: String, value: Value) -> Option<Replaced>
    ensures was { option_map (λ r. r.was) result ≡ lookup (bytes_eq (string_bytes key))
        (pairs_of pairs.old) }
    ensures next { IfSome result (λ replaced. replaced.next ≡ value) }
{
    match pairs.entry(key) {
        Entry::Occupied(mut found) => {
            let was = found.insert(value);
            let next = found.remove();
            Some(Replaced { was, next })
        }
        Entry::Vacant(_entry) => None,
    }
}

/// Writes a value through the entry of a key if the key is there, and then removes the key. Returns
/// the two values, or `None` if the key isn't there.
pub fn write_and_take(pairs: &mut Dictionary, key: String, value: Value) -> Option<Replaced>
    ensures was { option_map (λ r. r.was) result ≡ lookup (bytes_eq (string_bytes key))
        (pairs_of pairs.old) }
    ensures next { IfSome result (λ replaced. replaced.next ≡ value) }
{
    match pairs.entry(key) {
        Entry::Occupied(mut found) => {
            let was = mem::replace(found.get_mut(), value);
            let next = found.remove();
            Some(Replaced { was, next })
        }
        Entry::Vacant(_entry) => None,
    }
}
