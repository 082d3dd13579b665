//! Drops values without recursion. One list contains all values that are still to be dropped. When
//! a collection is dropped, its values have to be joined with that list. No memory is allocated for
//! that: the list moves into the collection's own list, as an array that replaces its first value.

ghost use Rattle.std.specs.Prelude.{◌<◌, vec_len};
ghost use Rattle.std.specs.Vec.{vec_capacity};
ghost use Rattle.plist.specs.inner.Weights.{IsLess, SplitsInto};

use crate::Value;
use std::mem;

impl Value {
    // Returns the values in a collection, or `None` for a scalar. Keys and scalars are dropped.
    fn into_children(self) -> Option<Vec<Value>>
        ensures { SplitsInto result self }
    {
        match self {
            Value::Array(items) => Some(items),
            Value::Dictionary(pairs) => Some(pairs.into_items()),
            Value::Boolean(_flag) => None,
            Value::Data(_bytes) => None,
            Value::Date(_date) => None,
            Value::Real(_bits) => None,
            Value::Integer(_number) => None,
            Value::String(_text) => None,
            Value::Uid(_uid) => None,
        }
    }

    /// Drops the value without recursion and without allocating memory, however deep it is.
    ///
    /// When a value goes out of scope, the arrays in it are dropped recursively, and at about
    /// 100,000 levels of arrays the call stack overflows. Call this method instead for a value that
    /// may be that deep, such as one that was read from an untrusted file without [`Limits`].
    ///
    /// # Examples
    ///
    /// ```rust
    /// let value = Value::from_reader(alloc, file)?;
    /// let kind = kind_of_value(&value);
    /// value.destroy();
    /// Ok(kind)
    /// ```
    pub fn destroy(self) {
        if let Some(below) = self.into_children() {
            destroy_all(below);
        }
    }
}

impl plist_pairs::Discard for Value {
    fn discard(self) {
        self.destroy();
    }
}

/// Drops the values without recursion and without allocating memory.
#[tactic(auto, using(crate::proofs::DropWeights::drops))]
pub(crate) fn destroy_all(values: Vec<Value>) {
    let mut left = values;
    while let Some(value) = left.pop() {
        if let Some(below) = value.into_children() {
            left = joined(left, below);
        }
    }
    left.destroy_empty();
}

// Joins the values that are still to be dropped, `left`, and those of a collection, `below`, into
// one list.
//
// It allocates no memory. The collection was removed from `left`, which therefore has capacity for
// one more value, and takes the last one of `below`. So `below` has capacity for one more value,
// too: its first value moves to its end, and `left`, as an array, replaces the first value.
fn joined(mut left: Vec<Value>, mut below: Vec<Value>) -> Vec<Value>
    requires { vec_len left < vec_capacity left }
    ensures { IsLess result.items left.items below.items }
{
    if left.is_empty() {
        left.destroy_empty();
        return below;
    }
    let Some(last) = below.pop() else {
        below.destroy_empty();
        return left;
    };
    left.push_reserved(last);
    if below.is_empty() {
        below.destroy_empty();
        return left;
    }
    let first = mem::replace(&mut below[0], Value::Array(left));
    below.push_reserved(first);
    below
}
