//! The items of the arrays that are open while a value is built.

ghost use Rattle.std.specs.Prelude.{◌≡◌, ◌<◌, ◌∷◌, [], length, IfOk, OnErr, OnOk};
ghost use Rattle.plist.specs.inner.CollectionSteps.{with_item};

use crate::Value;
use plist_base::CompactNumbers;
use std::alloc::{AllocError, Global};
use std::marker::Model;
use std::mem;

/// The items of open arrays that are nested in one another.
///
/// One list contains the items of all arrays, so an array that has no item yet takes no memory but
/// that of its start. Contracts see the list of the items of each array, innermost first.
#[derive(Drop)]
pub(crate) struct OpenArrays {
    // The items of all arrays, outermost first.
    items: Vec<Value>,
    // The index of the first item of each array, outermost first.
    starts: CompactNumbers,
}

impl Model for OpenArrays {
    ghost use Rattle.std.specs.Prelude.{List, length, reverse};
    ghost use Rattle.std.specs.Coded.{coded_list};
    ghost use Rattle.plist.specs.declared.value.Value.{Value as V};
    ghost use Rattle.plist.specs.contracts.value.Value as value;
    ghost use Rattle.plist.specs.OpenCollections.{AreStarts, items_by_array};

    ghost Value = { List (List V) };

    ghost coded = { coded_list (coded_list value.the_row.coded) };

    ghost view = { λ arrays. items_by_array (reverse arrays.starts) arrays.items.items };

    ghost invariant = { λ arrays. AreStarts (reverse arrays.starts)
        (length arrays.items.items) };
}

impl OpenArrays {
    /// Creates a list of no arrays. It allocates no memory.
    pub(crate) fn new(alloc: Global) -> OpenArrays
        ensures { result ≡ [] }
    {
        OpenArrays {
            items: Vec::new(alloc),
            starts: CompactNumbers::new(alloc),
        }
    }

    /// Opens an array.
    pub(crate) fn open(&mut self) -> Result<(), AllocError>
        ensures opened { OnOk result (self.new ≡ [] ∷ self.old) }
        ensures unchanged { OnErr result (self.new ≡ self.old) }
    {
        self.starts.push(self.items.len())?;
        Ok(())
    }

    /// Appends an item to the innermost array. If an allocation fails, the item is dropped without
    /// recursion.
    #[tactic(auto, using(crate::proofs::OpenItems::open_items))]
    pub(crate) fn push(&mut self, item: Value) -> Result<(), AllocError>
        ensures pushed { OnOk result (self.new ≡ with_item self.old item) }
        ensures unchanged { OnErr result (self.new ≡ self.old) }
    {
        match self.items.push(item) {
            Ok(()) => Ok(()),
            Err(refused) => {
                refused.value.destroy();
                Err(AllocError)
            }
        }
    }

    /// Closes the innermost array, and returns its items.
    pub(crate) fn close(&mut self, alloc: Global) -> Result<Vec<Value>, AllocError>
        requires { 0 < length self.old }
        ensures closed { IfOk result (λ items. self.old ≡ items.items ∷ self.new) }
        ensures unchanged { OnErr result (self.new ≡ self.old) }
    {
        let Some(start) = self.starts.last() else {
            return Ok(Vec::new(alloc));
        };
        if start == 0 {
            // These are all items. Their memory moves, too, so that they aren't copied.
            self.starts.pop();
            return Ok(mem::replace(&mut self.items, Vec::new(alloc)));
        }
        let items = self.items.split_off(start)?;
        self.starts.pop();
        Ok(items)
    }

    /// Closes all arrays, and drops their items without recursion.
    pub(crate) fn clear(&mut self)
        ensures { self.new ≡ [] }
    {
        while let Some(item) = self.items.pop() {
            item.destroy();
        }
        self.starts.clear();
    }
}
