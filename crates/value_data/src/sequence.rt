// The items of lists and vectors.
#![tactic(auto, using(crate::proofs::Growing::item_steps))]

ghost use Rattle.std.specs.Prelude.{◌≡◌, ◌==◌, ◌<◌, ◌≤◌, ◌+◌, ◌^◌, ◌++◌, ◌∷◌, IfOk, length, map};
ghost use Rattle.std.specs.Prelude.{take, drop, option_map, slice_get, slice_index_or};
ghost use Rattle.std.specs.List.{remove};
ghost use Rattle.value_data.specs.Datum.{item};
ghost use Rattle.value_data.specs.Listed.{listed, items_of};
ghost use Rattle.value_data.specs.Inside.View.{view, items_view};
ghost use Rattle.value_data.specs.Measures.{capped, items_weight, items_nesting, are_plain};
ghost use Rattle.value_data.specs.Inside.Hash.{items_hash};
ghost use Rattle.value_data.specs.Inside.Ends.{with_last, behind_first};

use crate::reads::{chunk_from, copy_into, item_at};
use crate::value::{ItemsTree, Sequence, Value};
use std::alloc::{AllocError, Global};
use std::sync::Arc;

impl Sequence {
    /// The items of the vector, measured once: one step for each. It fails only for want of memory.
    pub fn from_vec(alloc: Global, items: Vec<Value>) -> Result<Sequence, AllocError>
        ensures { IfOk result (λ made. made.items ≡ items_view items.items) }
    {
        Ok(Sequence::of(ItemsTree::from_vec(alloc, items)?))
    }

    /// How many items there are.
    pub fn len(&self) -> usize
        ensures count { result ≡ length (listed self.now.items) }
        ensures bound { result < 2 ^ 63 }
    {
        self.node.len
    }

    /// Whether there is no item.
    pub fn is_empty(&self) -> bool
        ensures { result ≡ (length (listed self.now.items) == 0) }
    {
        self.len() == 0
    }

    /// The item at a place, counted from 0, if there is one.
    pub fn get(&self, place: usize) -> Option<&Value>
        ensures { option_map (λ v. view v.now) result ≡ slice_get (listed self.now.items) place }
    {
        if place < self.len() {
            Some(self.at(place))
        } else {
            None
        }
    }

    /// The item at a place that is one.
    pub fn at(&self, place: usize) -> &Value
        requires { place < length (listed self.now.items) }
        ensures { view result.now ≡ slice_index_or (listed self.now.items) place (view result.now) }
    {
        item_at(&self.node.shape, place)
    }

    /// Some of the items from a place on, which lie in one row: up to 32, and at least one.
    pub fn chunk_from(&self, place: usize) -> &[Value]
        requires { place < length (listed self.now.items) }
        ensures some { 0 < length result.now }
        ensures prefix { map view result.now
            ≡ take (length result.now) (drop place (listed self.now.items)) }
    {
        chunk_from(&self.node.shape, place)
    }

    /// The same items in a vector of their own: one step for each. It fails only for want of
    /// memory.
    pub fn copies(&self, alloc: Global) -> Result<Vec<Value>, AllocError>
        ensures { IfOk result (λ copies. items_view copies.items ≡ self.now.items) }
    {
        let mut copies = Vec::with_capacity(alloc, self.len())?;
        copy_into(&self.node.shape, &mut copies)?;
        Ok(copies)
    }

    /// The same items. It takes one step and no memory, and fails only where 2^63 owners share
    /// them.
    pub fn copy(&self) -> Result<Sequence, AllocError>
        ensures { IfOk result (λ copied. copied ≡ self.now) }
    {
        Ok(Sequence {
            node: Arc::try_clone(&self.node)?,
        })
    }

    /// The items and one more behind them. It takes a logarithm of steps, and shares all nodes but
    /// those on one path, which are changed in their place where nobody else holds them. It fails
    /// only for want of memory.
    pub fn with_last(self, alloc: Global, last: Value) -> Result<Sequence, AllocError>
        ensures { IfOk result (λ made. made.items ≡ with_last self.items (view last)) }
    {
        let mut tree = self.into_tree();
        tree.push_back(alloc, last)?;
        Ok(Sequence::of(tree))
    }

    /// One more item and then the items, at the cost of one more behind them.
    pub fn with_first(self, alloc: Global, first: Value) -> Result<Sequence, AllocError>
        ensures { IfOk result (λ made. made.items ≡ item (view first) self.items) }
    {
        let mut tree = self.into_tree();
        tree.push_front(alloc, first)?;
        Ok(Sequence::of(tree))
    }

    /// The items with another at a place, or with one more behind them, at the same cost.
    pub fn with_item(
        self,
        alloc: Global,
        place: usize,
        value: Value,
    ) -> Result<Sequence, AllocError>
        requires { place ≤ length (listed self.items) }
        ensures { IfOk result (λ made. listed made.items ≡ take place (listed self.items)
            ++ view value ∷ drop (place + 1) (listed self.items)) }
    {
        let mut tree = self.into_tree();
        if place < tree.len() {
            tree.set(alloc, place, value)?;
            return Ok(Sequence::of(tree));
        }
        tree.push_back(alloc, value)?;
        Ok(Sequence::of(tree))
    }

    /// The items behind the first, or none where there is none, at the same cost.
    pub fn rest(self, alloc: Global) -> Result<Sequence, AllocError>
        ensures { IfOk result (λ made. made.items ≡ behind_first self.items) }
    {
        let mut tree = self.into_tree();
        tree.drop_first(alloc)?;
        Ok(Sequence::of(tree))
    }

    // The items without that at a place, at the same cost.
    pub(crate) fn without_item(self, alloc: Global, place: usize) -> Result<Sequence, AllocError>
        requires { place < length (listed self.items) }
        ensures { IfOk result (λ made. listed made.items ≡ remove (listed self.items) place) }
    {
        let mut tree = self.into_tree();
        tree.remove(alloc, place)?;
        Ok(Sequence::of(tree))
    }

    /// How large the items are, read from their node.
    pub fn weight(&self) -> u64
        ensures { result ≡ capped (items_weight self.now.items) }
    {
        self.node.measure.weight
    }

    /// How deep the items are, read from their node.
    pub fn nesting(&self) -> u64
        ensures { result ≡ capped (items_nesting self.now.items) }
    {
        self.node.measure.nesting
    }

    /// Whether all items are plain, read from their node.
    pub fn is_plain(&self) -> bool
        ensures { result ≡ are_plain self.now.items }
    {
        self.node.measure.plain
    }

    /// What a list or a vector of these items hashes to, from what their node keeps.
    pub fn hash(&self) -> u64
        ensures { result ≡ items_hash 7 self.now.items }
    {
        self.node.measure.hash()
    }

    fn of(tree: ItemsTree) -> Sequence
        ensures { result.items ≡ items_of tree.items }
    {
        let ItemsTree { node } = tree;
        Sequence { node }
    }
}
