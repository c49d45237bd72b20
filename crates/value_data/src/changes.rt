// A change of one item.
ghost use Rattle.std.specs.Prelude.{◌≡◌, ◌<◌, ◌≤◌, IfOk, IfSome, length, is_ok, true, false, if◌then◌else◌};
ghost use Rattle.std.specs.List.{insert};
ghost use Rattle.value_data.specs.Inside.View.{view, views};
ghost use Rattle.value_data.specs.Inside.Fits.{FitsItems};
ghost use Rattle.value_data.specs.Inside.Nodes.{shown, held, KeepsItems};
ghost use Rattle.value_data.specs.Inside.Changes.{changed, HasPlace};

use crate::copies::share_items;
use crate::forks::{LEAF, MOST, fork, leaf, single};
use crate::node_measures::{ItemsMeasure, measure_of};
use crate::value::{ItemsNode, ItemsShape, ItemsTree, Value};
use std::alloc::{AllocError, Global};
use std::sync::Arc;

// What is done at a place.
#[derive(Drop)]
pub(crate) enum ItemChange {
    Insert(Value),
    Replace(Value),
    Remove,
}

// Does the change among the items of a leaf, and gives the measure that they then have.
pub(crate) fn change_items(
    items: &mut Vec<Value>,
    measure: ItemsMeasure,
    place: usize,
    change: ItemChange,
) -> Result<ItemsMeasure, AllocError>
    requires measured { FitsItems measure (views items.old.items) }
    requires in_range { HasPlace change place (length items.old.items) }
    ensures measured { IfOk result (λ m. FitsItems m (views items.new.items)) }
    ensures items { views items.new.items ≡ (if is_ok result
        then changed change place (views items.old.items)
        else views items.old.items) }
{
    match change {
        ItemChange::Insert(value) => {
            let more = ItemsMeasure::of_one(&value);
            let count = items.len();
            items.insert(place, value)?;
            if place == count {
                Ok(measure.plus(more))
            } else if place == 0 {
                Ok(more.plus(measure))
            } else {
                Ok(measure_of(items))
            }
        }
        ItemChange::Replace(value) => {
            items[place] = value;
            Ok(measure_of(items))
        }
        ItemChange::Remove => {
            let _taken = items.remove(place);
            Ok(measure_of(items))
        }
    }
}

impl ItemChange {
    // Whether a change at the place is one of the first so many items.
    fn goes_left(&self, place: usize, count: usize) -> bool
        ensures left { result ≡ true → HasPlace self.now place count }
        ensures right { result ≡ false → count ≤ place }
    {
        match self {
            ItemChange::Insert(_) => place <= count,
            _ => place < count,
        }
    }
}

// Does the change below a node that nobody else holds.
#[cycle(change)]
fn change_node(
    node: &mut ItemsNode,
    alloc: Global,
    place: usize,
    change: ItemChange,
) -> Result<(), AllocError>
    requires kept { KeepsItems node.old }
    requires in_range { HasPlace change place (length (shown node.old.shape)) }
    ensures kept { KeepsItems node.new }
    ensures items { shown node.new.shape ≡ (if is_ok result
        then changed change place (shown node.old.shape)
        else shown node.old.shape) }
{
    if node.len >= MOST {
        return Err(AllocError);
    }
    match &mut node.shape {
        ItemsShape::Leaf(items) => {
            node.measure = change_items(items, node.measure, place, change)?;
            node.len = items.len();
            Ok(())
        }
        ItemsShape::Fork(left, right) => {
            let before = left.len();
            if change.goes_left(place, before) {
                left.change(alloc, place, change)?;
            } else {
                right.change(alloc, place - before, change)?;
            }
            node.len = left.len() + right.len();
            node.height = left.height().max(right.height()).saturating_add(1);
            node.measure = left.measure().plus(right.measure());
            Ok(())
        }
    }
}

impl ItemsTree {
    // Does the change. After an error the items are as they were.
    #[cycle(change)]
    pub(crate) fn change(
        &mut self,
        alloc: Global,
        place: usize,
        change: ItemChange,
    ) -> Result<(), AllocError>
        requires in_range { HasPlace change place (length self.old.items) }
        ensures { self.new.items ≡ (if is_ok result
            then changed change place self.old.items
            else self.old.items) }
    {
        match change {
            ItemChange::Insert(value) => {
                let Some(items) = self.full_leaf() else {
                    return self.change_owned(alloc, place, ItemChange::Insert(value));
                };
                *self = widened(alloc, self, items, place, value)?;
                Ok(())
            }
            ItemChange::Replace(value) => self.change_owned(
                alloc,
                place,
                ItemChange::Replace(value),
            ),
            ItemChange::Remove => self.change_owned(alloc, place, ItemChange::Remove),
        }
    }

    #[cycle(change)]
    fn change_owned(
        &mut self,
        alloc: Global,
        place: usize,
        change: ItemChange,
    ) -> Result<(), AllocError>
        requires in_range { HasPlace change place (length self.old.items) }
        ensures { self.new.items ≡ (if is_ok result
            then changed change place self.old.items
            else self.old.items) }
    {
        self.own(alloc)?;
        let Some(node) = Arc::get_mut(&mut self.node) else {
            return Err(AllocError);
        };
        change_node(node, alloc, place, change)?;
        self.settle(alloc);
        Ok(())
    }

    // The items of a leaf with no room.
    fn full_leaf(&self) -> Option<&[Value]>
        ensures { IfSome result (λ items. views items.now ≡ self.now.items) }
    {
        match &self.node.shape {
            ItemsShape::Leaf(items) if items.len() >= LEAF => Some(items),
            _ => None,
        }
    }
}

// A leaf of these items with one more, in a fork. Where that goes before or behind all of them the
// leaf is shared.
fn widened(
    alloc: Global,
    full: &ItemsTree,
    items: &[Value],
    place: usize,
    value: Value,
) -> Result<ItemsTree, AllocError>
    requires same { views items.now ≡ full.now.items }
    requires in_range { place ≤ length items.now }
    ensures { IfOk result (λ made. made.items ≡ insert full.now.items place (view value)) }
{
    if place == items.len() {
        return fork(alloc, full.copy()?, single(alloc, value)?);
    }
    if place == 0 {
        return fork(alloc, single(alloc, value)?, full.copy()?);
    }
    let (before, behind) = items.split_at(place);
    let first = leaf(alloc, share_items(alloc, before, 0)?)?;
    let mut second = share_items(alloc, behind, 1)?;
    second.insert(0, value)?;
    fork(alloc, first, leaf(alloc, second)?)
}
