// Trees of items, and trees with other items.
ghost use Rattle.std.specs.Prelude.{◌≡◌, [], ◌∷◌, ◌++◌, ◌<◌, IfOk, length, drop, is_ok, slice_set, if◌then◌else◌};
ghost use Rattle.std.specs.List.{remove};
ghost use Rattle.value_data.specs.Inside.View.{view, views};

use crate::changes::ItemChange;
use crate::forks::{LEAF, fork, leaf};
use crate::value::{ItemsTree, Value};
use std::alloc::{AllocError, Global};

impl ItemsTree {
    // The items in leaves of equal size, in forks of equal height.
    pub(crate) fn from_vec(alloc: Global, items: Vec<Value>) -> Result<ItemsTree, AllocError>
        ensures { IfOk result (λ made. made.items ≡ views items.items) }
    {
        let mut items = items;
        if items.len() <= LEAF {
            if items.capacity() > 2 * LEAF {
                items.shrink_to_fit();
            }
            return leaf(alloc, items);
        }
        let behind = items.split_off(items.len() / 2)?;
        fork(
            alloc,
            ItemsTree::from_vec(alloc, items)?,
            ItemsTree::from_vec(alloc, behind)?,
        )
    }
}

// Each edit changes the nodes on one path, those that nobody else holds in their place. After an
// error, for want of memory, the items are as they were.
impl ItemsTree {
    // One more item behind the others.
    pub(crate) fn push_back(&mut self, alloc: Global, item: Value) -> Result<(), AllocError>
        ensures { self.new.items ≡ (if is_ok result
            then self.old.items ++ view item ∷ []
            else self.old.items) }
    {
        let place = self.len();
        self.change(alloc, place, ItemChange::Insert(item))
    }

    // One more item before the others.
    pub(crate) fn push_front(&mut self, alloc: Global, item: Value) -> Result<(), AllocError>
        ensures { self.new.items ≡ (if is_ok result
            then view item ∷ self.old.items
            else self.old.items) }
    {
        self.change(alloc, 0, ItemChange::Insert(item))
    }

    // Another item at a place.
    pub(crate) fn set(&mut self, alloc: Global, place: usize, item: Value) -> Result<(), AllocError>
        requires { place < length self.old.items }
        ensures { self.new.items ≡ (if is_ok result
            then slice_set self.old.items place (view item)
            else self.old.items) }
    {
        self.change(alloc, place, ItemChange::Replace(item))
    }

    // Takes the item at a place out.
    pub(crate) fn remove(&mut self, alloc: Global, place: usize) -> Result<(), AllocError>
        requires { place < length self.old.items }
        ensures { self.new.items ≡ (if is_ok result
            then remove self.old.items place
            else self.old.items) }
    {
        self.change(alloc, place, ItemChange::Remove)
    }

    // Takes out the first item, where there is one.
    pub(crate) fn drop_first(&mut self, alloc: Global) -> Result<(), AllocError>
        ensures { self.new.items ≡ (if is_ok result
            then drop 1 self.old.items
            else self.old.items) }
    {
        if self.is_empty() {
            return Ok(());
        }
        self.change(alloc, 0, ItemChange::Remove)
    }
}
