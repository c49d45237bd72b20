// Trees that share their nodes, and nodes that nobody else holds.
ghost use Rattle.std.specs.Prelude.{◌≡◌, IfOk};
ghost use Rattle.value_data.specs.Inside.Nodes.{seen, shown, held, KeepsItems};

use crate::copies::share_items;
use crate::value::{ItemsNode, ItemsShape, ItemsTree};
use std::alloc::{AllocError, Global};
use std::sync::Arc;

impl ItemsTree {
    // The same items, in one step and with no memory. It fails only where 2^63 owners share them.
    pub(crate) fn copy(&self) -> Result<ItemsTree, AllocError>
        ensures { IfOk result (λ copied. copied ≡ self.now) }
    {
        Ok(ItemsTree {
            node: Arc::try_clone(&self.node)?,
        })
    }

    // Makes this tree the only owner of its node, unless others took a share meanwhile.
    pub(crate) fn own(&mut self, alloc: Global) -> Result<(), AllocError>
        ensures { self.new ≡ self.old }
    {
        if Arc::strong_count(&self.node) > 1 {
            let node = copy_node(alloc, &self.node)?;
            self.node = Arc::new(alloc, node)?;
        }
        Ok(())
    }
}

fn copy_node(alloc: Global, node: &ItemsNode) -> Result<ItemsNode, AllocError>
    ensures same { IfOk result (λ copied. seen copied ≡ seen node.now) }
    ensures kept { IfOk result (λ copied. KeepsItems node.now → KeepsItems copied) }
{
    let shape = copy_shape(alloc, &node.shape)?;
    Ok(ItemsNode {
        len: node.len,
        height: node.height,
        measure: node.measure,
        shape,
    })
}

fn copy_shape(alloc: Global, shape: &ItemsShape) -> Result<ItemsShape, AllocError>
    ensures items { IfOk result (λ copied. shown copied ≡ shown shape.now) }
    ensures held { IfOk result (λ copied. held copied ≡ held shape.now) }
{
    match shape {
        ItemsShape::Leaf(items) => Ok(ItemsShape::Leaf(share_items(alloc, items, 1)?)),
        ItemsShape::Fork(left, right) => Ok(ItemsShape::Fork(left.copy()?, right.copy()?)),
    }
}
