// Copies: one more owner of what a tree shares.
ghost use Rattle.std.specs.Prelude.{◌≡◌, IfOk};
ghost use Rattle.chunked_list.specs.Nodes.{numbers_seen, numbers_shown, numbers_held, KeepsNumbers};

use crate::tree::{NumbersNode, NumbersShape, NumbersTree};
use std::alloc::{AllocError, Global};
use std::sync::Arc;

impl NumbersTree {
    // The same numbers, in one step and with no memory. It fails only where 2^63 owners share them.
    pub(crate) fn copy(&self) -> Result<NumbersTree, AllocError>
        ensures { IfOk result (λ copied. copied ≡ self.now) }
    {
        Ok(NumbersTree {
            node: Arc::try_clone(&self.node)?,
        })
    }

    // Makes this tree the only owner of its node, unless others took a share meanwhile.
    pub(crate) fn own(&mut self, alloc: Global) -> Result<(), AllocError>
        ensures { self.new ≡ self.old }
    {
        if Arc::strong_count(&self.node) > 1 {
            let node = copy_node(alloc, &self.node)?;
            self.node = Arc::new(alloc, node)?;
        }
        Ok(())
    }
}

fn copy_node(alloc: Global, node: &NumbersNode) -> Result<NumbersNode, AllocError>
    ensures same { IfOk result (λ copied. numbers_seen copied ≡ numbers_seen node.now) }
    ensures kept { IfOk result (λ copied. KeepsNumbers node.now → KeepsNumbers copied) }
{
    let shape = copy_shape(alloc, &node.shape)?;
    Ok(NumbersNode {
        len: node.len,
        last: node.last,
        height: node.height,
        shape,
    })
}

fn copy_shape(alloc: Global, shape: &NumbersShape) -> Result<NumbersShape, AllocError>
    ensures same_items { IfOk result (λ copied. numbers_shown copied ≡ numbers_shown shape.now) }
    ensures same_size { IfOk result (λ copied. numbers_held copied ≡ numbers_held shape.now) }
{
    match shape {
        NumbersShape::Leaf(items) => Ok(NumbersShape::Leaf(Vec::from_slice(alloc, items)?)),
        NumbersShape::Fork(left, right) => Ok(NumbersShape::Fork(left.copy()?, right.copy()?)),
    }
}
