//! Equality of values and dictionaries.
//!
//! Values are compared recursively down to a fixed number of levels. A pair of collections that is
//! deeper is deferred, and compared after the others. So a comparison uses a fixed amount of the
//! call stack, however deep the values are, unless memory for the deferred pairs can't be
//! allocated.

ghost use Rattle.std.specs.Prelude.{◌≡◌, ◌-◌};
ghost use Rattle.std.specs.Cmp.{partial_equiv_from_equiv};
ghost use Rattle.std.proofs.lemmas.Cmp.{on_equiv};
ghost use Rattle.plist.specs.inner.DeferredPairs.{Compares, ComparesItems, ComparesPairs, PutsOff, TakesLast, are_same, same_values, same_values_at, waiting};
ghost use Rattle.plist.specs.ValueTrees.{pairs_of, tree_of};
ghost use Rattle.plist_pairs.proofs.PairsSame.{same_pairs_equiv};
ghost use Rattle.plist_pairs.proofs.TreeEquality.{same_by_equiv};
ghost use Rattle.plist_pairs.specs.TreeEquality.{same};
ghost use Rattle.plist.specs.inner.Weights.{weight};

use crate::{Dictionary, Value};

// The number of levels that are compared before a pair is deferred.
const LEVELS: u32 = 128;

/// Two values are equal if they are of one kind and have equal contents. Arrays are compared index
/// by index, and dictionaries key by key, in any order.
///
/// A comparison of values of at most 128 levels allocates no memory. If an allocation for deeper
/// values fails, it recurses instead.
impl PartialEq for Value {
    ghost eq = { λ a b. same (tree_of a) (tree_of b) };

    ghost laws = { partial_equiv_from_equiv (same_by_equiv tree_of) };

    #[tactic(auto, using(crate::proofs::Equality::defer))]
    fn eq(&self, other: &Value) -> bool {
        let mut deferred = DeferredPairs { pairs: None };
        if !deferred.compare(self, other, LEVELS) {
            return false;
        }
        deferred.are_equal()
    }
}

impl Eq for Value {
    ghost laws = { same_by_equiv tree_of };
}

/// Dictionaries are equal if they have the same keys, with equal values. The order of the pairs
/// doesn't matter.
impl PartialEq for Dictionary {
    ghost eq = { λ a b. same_values_at (pairs_of a) (pairs_of b) };

    ghost laws = { partial_equiv_from_equiv
        (on_equiv pairs_of (same_pairs_equiv (same_by_equiv tree_of))) };

    #[tactic(auto, using(crate::proofs::Equality::defer, crate::proofs::SameTrees::same_dictionaries))]
    fn eq(&self, other: &Dictionary) -> bool {
        // These are called only for their contracts, which say that the keys are distinct.
        let _counts = (self.len(), other.len());
        let mut deferred = DeferredPairs { pairs: None };
        if !deferred.compare_pairs(self, other, LEVELS) {
            return false;
        }
        deferred.are_equal()
    }
}

impl Eq for Dictionary {
    ghost laws = { on_equiv pairs_of (same_pairs_equiv (same_by_equiv tree_of)) };
}

// Two values that are still to be compared.
#[derive(Drop)]
struct Pair<'a> {
    value: &'a Value,
    other: &'a Value,
}

// The pairs of values that are still to be compared.
#[derive(Drop)]
struct DeferredPairs<'a> {
    pairs: Option<Vec<Pair<'a>>>,
}

impl<'a> DeferredPairs<'a> {
    // Removes and returns the pair that was deferred last.
    #[tactic(auto, using(crate::proofs::Equality::taken))]
    fn pop(&mut self) -> Option<Pair<'a>>
        ensures { TakesLast self.old result self.new }
    {
        match &mut self.pairs {
            None => None,
            Some(pairs) => pairs.pop(),
        }
    }

    // Returns whether the two values of each deferred pair are equal.
    #[tactic(auto, using(crate::proofs::Equality::defer))]
    fn are_equal(&mut self) -> bool
        ensures { result ≡ are_same (waiting self.old) }
    {
        while let Some(pair) = self.pop() {
            if !self.compare_content(pair.value, pair.other, LEVELS) {
                return false;
            }
        }
        true
    }

    // Defers a pair of collections, if memory for it can be allocated, and returns whether it was
    // deferred.
    #[tactic(auto, using(crate::proofs::Equality::defer))]
    fn defer(&mut self, value: &'a Value, other: &'a Value) -> bool
        ensures { PutsOff value.now other.now self.old result self.new }
    {
        let alloc = match value {
            Value::Array(items) => *items.allocator(),
            Value::Dictionary(pairs) => pairs.allocator(),
            _ => return false,
        };
        let mut pairs = match self.pairs.take() {
            Some(pairs) => pairs,
            None => Vec::new(alloc),
        };
        let done = pairs.push(Pair { value, other }).is_ok();
        self.pairs = Some(pairs);
        done
    }

    // Returns whether two values are equal, apart from the pairs that it defers.
    #[cycle(same)]
    fn compare(&mut self, value: &'a Value, other: &'a Value, levels: u32) -> bool
        ensures { Compares (same_values value.now other.now) (weight value.now) self.old result
            self.new }
    {
        if levels > 0 {
            return self.compare_content(value, other, levels - 1);
        }
        if self.defer(value, other) {
            return true;
        }
        self.compare_content(value, other, 0)
    }

    // Returns whether two values are equal, apart from the pairs that it defers. Unlike `compare`,
    // it never defers the two values themselves.
    #[cycle(same)]
    fn compare_content(&mut self, value: &'a Value, other: &'a Value, levels: u32) -> bool
        ensures { Compares (same_values value.now other.now) (weight value.now - 1) self.old result
            self.new }
    {
        match value {
            Value::Array(items) => {
                let Value::Array(others) = other else {
                    return false;
                };
                self.compare_items(items, others, levels)
            }
            Value::Dictionary(pairs) => {
                let Value::Dictionary(others) = other else {
                    return false;
                };
                self.compare_pairs(pairs, others, levels)
            }
            Value::Boolean(a) => matches!(other, Value::Boolean(b) if a == b),
            Value::Data(a) => matches!(other, Value::Data(b) if a.as_slice() == b.as_slice()),
            Value::Date(a) => matches!(other, Value::Date(b) if a == b),
            Value::Real(a) => matches!(other, Value::Real(b) if a == b),
            Value::Integer(a) => matches!(other, Value::Integer(b) if a == b),
            Value::String(a) => matches!(other, Value::String(b) if a.as_str() == b.as_str()),
            Value::Uid(a) => matches!(other, Value::Uid(b) if a == b),
        }
    }

    // Returns whether two arrays are equal, apart from the pairs that it defers.
    #[cycle(same)]
    fn compare_items(&mut self, items: &'a Vec<Value>, others: &'a Vec<Value>, levels: u32) -> bool
        ensures { ComparesItems items.now.items others.now.items self.old result self.new }
    {
        if items.len() != others.len() {
            return false;
        }
        for i in 0..items.len() {
            if !self.compare(&items[i], &others[i], levels) {
                return false;
            }
        }
        true
    }

    // Returns whether two dictionaries are equal, apart from the pairs that it defers.
    #[cycle(same)]
    fn compare_pairs(&mut self, pairs: &'a Dictionary, others: &'a Dictionary, levels: u32) -> bool
        ensures { ComparesPairs (pairs_of pairs.now)
            (pairs_of others.now) self.old result self.new }
    {
        let count = pairs.len();
        if count != others.len() {
            return false;
        }
        for i in 0..count {
            let (key, value) = pairs.pair_at(i);
            match others.get(key) {
                None => return false,
                Some(other) => {
                    if !self.compare(value, other, levels) {
                        return false;
                    }
                }
            }
        }
        true
    }
}
