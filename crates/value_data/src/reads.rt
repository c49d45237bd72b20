// What is read of a tree.
ghost use Rattle.std.specs.Prelude.{◌≡◌, ◌==◌, ◌<◌, ◌^◌, ◌++◌, length, take, drop};
ghost use Rattle.std.specs.Prelude.{slice_index_or, OnOk};
ghost use Rattle.value_data.specs.Inside.View.{view, views};
ghost use Rattle.value_data.specs.Inside.Fits.{FitsItems};
ghost use Rattle.value_data.specs.Inside.Nodes.{shown};

use crate::copies::copy;
use crate::node_measures::ItemsMeasure;
use crate::value::{ItemsShape, ItemsTree, Value};
use std::alloc::AllocError;

impl ItemsTree {
    // How many items there are.
    pub(crate) fn len(&self) -> usize
        ensures count { result ≡ length self.now.items }
        ensures bound { result < 2 ^ 63 }
    {
        self.node.len
    }

    // Whether there is no item.
    pub(crate) fn is_empty(&self) -> bool
        ensures { result ≡ (length self.now.items == 0) }
    {
        self.len() == 0
    }

    // What is kept of the items.
    pub(crate) fn measure(&self) -> ItemsMeasure
        ensures { FitsItems result self.now.items }
    {
        self.node.measure
    }

    // How high the tree is said to be.
    pub(crate) fn height(&self) -> u64 {
        self.node.height
    }
}

// The item at a place that is one.
pub(crate) fn item_at(shape: &ItemsShape, place: usize) -> &Value
    requires { place < length (shown shape.now) }
    ensures { view result.now ≡ slice_index_or (shown shape.now) place (view result.now) }
{
    match shape {
        ItemsShape::Leaf(items) => &items[place],
        ItemsShape::Fork(left, right) => {
            let before = left.len();
            if place < before {
                item_at(&left.node.shape, place)
            } else {
                item_at(&right.node.shape, place - before)
            }
        }
    }
}

// Some of the items from a place on, which lie in one row.
pub(crate) fn chunk_from(shape: &ItemsShape, place: usize) -> &[Value]
    requires { place < length (shown shape.now) }
    ensures some { 0 < length result.now }
    ensures prefix { views result.now ≡ take (length result.now) (drop place (shown shape.now)) }
{
    match shape {
        ItemsShape::Leaf(items) => &items[place..],
        ItemsShape::Fork(left, right) => {
            let before = left.len();
            if place < before {
                chunk_from(&left.node.shape, place)
            } else {
                chunk_from(&right.node.shape, place - before)
            }
        }
    }
}

// Puts copies of the items behind others: one step for each.
pub(crate) fn copy_into(shape: &ItemsShape, copies: &mut Vec<Value>) -> Result<(), AllocError>
    ensures { OnOk result (views copies.new.items ≡ views copies.old.items ++ shown shape.now) }
{
    match shape {
        ItemsShape::Leaf(items) => push_copies(items, copies),
        ItemsShape::Fork(left, right) => {
            copy_into(&left.node.shape, copies)?;
            copy_into(&right.node.shape, copies)
        }
    }
}

fn push_copies(items: &[Value], copies: &mut Vec<Value>) -> Result<(), AllocError>
    ensures { OnOk result (views copies.new.items ≡ views copies.old.items ++ views items.now) }
{
    for item in items {
        copies.push(copy(item)?)?;
    }
    Ok(())
}
