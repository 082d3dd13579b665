//! Calls that insert, keep, sort or copy many pairs.

ghost use Rattle.std.specs.Prelude.{◌≡◌, [], IfOk, Ok, OnErr, OnOk, IsPermutation, IsSorted, string_bytes};
ghost use Rattle.std.specs.Iterator.{IsFiniteIterable};
ghost use Rattle.std.specs.Cmp.Lexicographic.{slice_cmp};
ghost use Rattle.std.specs.Ordering.{nat_cmp};
ghost use Rattle.std.specs.Map.{keys_of};
ghost use Rattle.plist_base.specs.Outcomes.{OnlyMemory};
ghost use Rattle.plist_pairs.specs.Bulk.{ExtendsByIterable, Retains};
ghost use Rattle.plist_pairs.specs.Keys.{IsAbsent, IsSetAt};
ghost use Rattle.plist.specs.ValueTrees.{pairs_of, tree_pairs};

use crate::{Dictionary, Value};
use plist_base::Error;
use std::alloc::{AllocError, Global};

impl Dictionary {
    /// Keeps the pairs for which the closure returns `true`, in their order, and drops the others.
    /// The closure is called once for every pair, in their order.
    ///
    /// # Examples
    ///
    /// ```rust
    /// settings.retain(|_key, value| value.as_string().is_some());
    /// ```
    pub fn retain<F: Fn(&String, &Value) -> bool>(&mut self, keep: F)
        requires { F.IsAlwaysCallable keep }
        ensures kept { Retains F.Fn keep (pairs_of self.old) (pairs_of self.new) }
    {
        if let Some(pairs) = self.pairs.as_mut() {
            pairs.retain(keep);
        }
    }

    // Sets the key's value, and drops the value that it had. If an allocation fails, the pairs are
    // unchanged, and the key and the value are dropped.
    pub(crate) fn set(&mut self, key: String, value: Value) -> Result<(), AllocError>
        ensures pairs { OnOk result (IsSetAt (pairs_of self.old) (string_bytes key) value
            (pairs_of self.new)) }
        ensures absent { OnErr result (IsAbsent (string_bytes key) (pairs_of self.old)) }
        ensures unchanged { OnErr result (pairs_of self.new ≡ pairs_of self.old) }
    {
        match self.insert(key, value) {
            Ok(None) => Ok(()),
            Ok(Some(old)) => {
                old.destroy();
                Ok(())
            }
            Err((_key, refused)) => {
                refused.destroy();
                Err(AllocError)
            }
        }
    }

    /// Inserts the pairs, in their order. Values that are replaced are dropped without recursion.
    /// The caller has to prove that the iterator ends.
    ///
    /// # Errors
    ///
    /// `OutOfMemory` if an allocation fails. The pairs before the one that couldn't be stored stay
    /// inserted then; that pair and those after it are dropped.
    ///
    /// # Examples
    ///
    /// ```rust
    /// settings.extend(others)?;
    /// Ok(settings.len())
    /// ```
    pub fn extend<I: IntoIterator<Item = (String, Value)>>(&mut self, more: I) -> Result<(), Error>
        requires asked { IsFiniteIterable I.into_iter_gives I.IntoIter.can_next I.IntoIter.remaining
            more }
        ensures pairs { ExtendsByIterable I.into_iter_gives I.IntoIter.next_gives more
            (pairs_of self.old) result (pairs_of self.new) }
        ensures memory { OnlyMemory result }
    {
        let mut rest = more.into_iter();
        while let Some((key, value)) = rest.next() {
            self.set(key, value)?;
        }
        Ok(())
    }

    /// Makes a dictionary from the given pairs, inserted in their order. The caller has to prove
    /// that the iterator ends.
    ///
    /// # Errors
    ///
    /// `OutOfMemory` if an allocation fails. All pairs are dropped then.
    ///
    /// # Examples
    ///
    /// ```rust
    /// Dictionary::from_pairs(alloc, settings.clone()?)
    /// ```
    pub fn from_pairs<I: IntoIterator<Item = (String, Value)>>(
        alloc: Global,
        pairs: I,
    ) -> Result<Dictionary, Error>
        requires asked { IsFiniteIterable I.into_iter_gives I.IntoIter.can_next I.IntoIter.remaining
            pairs }
        ensures pairs { IfOk result (λ made.
            ExtendsByIterable I.into_iter_gives I.IntoIter.next_gives pairs [] (Ok tt)
            (pairs_of made)) }
        ensures memory { OnlyMemory result }
    {
        let mut made = Dictionary::new(alloc);
        made.extend(pairs)?;
        Ok(made)
    }

    /// Sorts the pairs by the bytes of their keys.
    ///
    /// # Errors
    ///
    /// `OutOfMemory` if an allocation fails. The pairs are unchanged then, since memory is
    /// allocated before the first pair moves.
    pub fn sort_keys(&mut self) -> Result<(), Error>
        ensures sorted { OnOk result (IsSorted (slice_cmp nat_cmp) (keys_of (pairs_of self.new))) }
        ensures pairs { OnOk result (IsPermutation (pairs_of self.old) (pairs_of self.new)) }
        ensures memory { OnlyMemory result }
        ensures unchanged { OnErr result (self.new ≡ self.old) }
    {
        let alloc = self.allocator();
        match self.pairs.as_mut() {
            None => Ok(()),
            Some(pairs) => Ok(pairs.sort_keys(alloc)?),
        }
    }

    /// Copies the pairs, in the same order and with the same allocator.
    ///
    /// # Errors
    ///
    /// `OutOfMemory` if an allocation fails.
    pub fn clone(&self) -> Result<Dictionary, Error>
        ensures copy { IfOk result (λ copy.
            tree_pairs (pairs_of copy) ≡ tree_pairs (pairs_of self.now)) }
        ensures memory { OnlyMemory result }
    {
        let alloc = self.allocator();
        let mut copies = Dictionary::new(alloc);
        for i in 0..self.len() {
            let (key, value) = self.pair_at(i);
            let name = String::from_str(alloc, key)?;
            let copy = value.clone(alloc)?;
            copies.set(name, copy)?;
        }
        Ok(copies)
    }
}
