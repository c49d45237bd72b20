// Leaves and forks, and forks of trees of unlike heights.
ghost use Rattle.std.specs.Prelude.{◌≡◌, [], ◌∷◌, ◌++◌, IfOk, IfSome};
ghost use Rattle.value_data.specs.Inside.View.{view, views};

use crate::copies::share_both;
use crate::node_measures::measure_of;
use crate::value::{ItemsNode, ItemsShape, ItemsTree, Value};
use std::alloc::{AllocError, Global};
use std::sync::Arc;

// How many items a leaf has room for.
pub(crate) const LEAF: usize = 32;

// How many items there are at most: as many as a vector may have.
pub(crate) const MOST: usize = 0x7FFF_FFFF_FFFF_FFFF;

impl ItemsTree {
    /// No items.
    pub(crate) fn empty(alloc: Global) -> Result<ItemsTree, AllocError>
        ensures { IfOk result (λ made. made.items ≡ []) }
    {
        leaf(alloc, Vec::new(alloc))
    }
}

// A leaf of these items.
pub(crate) fn leaf(alloc: Global, items: Vec<Value>) -> Result<ItemsTree, AllocError>
    ensures { IfOk result (λ made. made.items ≡ views items.items) }
{
    let measure = measure_of(&items);
    let node = ItemsNode {
        len: items.len(),
        height: 0,
        measure,
        shape: ItemsShape::Leaf(items),
    };
    let node = Arc::new(alloc, node)?;
    Ok(ItemsTree { node })
}

// A leaf of one item.
pub(crate) fn single(alloc: Global, item: Value) -> Result<ItemsTree, AllocError>
    ensures { IfOk result (λ made. made.items ≡ view item ∷ []) }
{
    let mut items = Vec::new(alloc);
    items.push(item)?;
    leaf(alloc, items)
}

// The items of two trees. It fails for want of memory, or where there would be 2^63 items.
pub(crate) fn fork(
    alloc: Global,
    left: ItemsTree,
    right: ItemsTree,
) -> Result<ItemsTree, AllocError>
    ensures { IfOk result (λ made. made.items ≡ left.items ++ right.items) }
{
    let len = left.len() + right.len();
    if len > MOST {
        return Err(AllocError);
    }
    let height = left.height().max(right.height()).saturating_add(1);
    let measure = left.measure().plus(right.measure());
    let node = ItemsNode {
        len,
        height,
        measure,
        shape: ItemsShape::Fork(left, right),
    };
    let node = Arc::new(alloc, node)?;
    Ok(ItemsTree { node })
}

// The items of both, in one leaf, where both are small leaves.
pub(crate) fn merged(
    alloc: Global,
    left: &ItemsTree,
    right: &ItemsTree,
    most: usize,
) -> Result<Option<ItemsTree>, AllocError>
    ensures { IfOk result (λ found. IfSome found (λ made. made.items ≡ left.now.items ++ right.now.items)) }
{
    let ItemsShape::Leaf(first) = &left.node.shape else {
        return Ok(None);
    };
    let ItemsShape::Leaf(second) = &right.node.shape else {
        return Ok(None);
    };
    if first.len().saturating_add(second.len()) > most {
        return Ok(None);
    }
    let items = share_both(alloc, first, second)?;
    Ok(Some(leaf(alloc, items)?))
}

// The items of two trees in forks that are less out of balance. It fails for want of memory, or
// where there would be 2^63 items.
pub(crate) fn balanced(
    alloc: Global,
    left: &ItemsTree,
    right: &ItemsTree,
) -> Result<ItemsTree, AllocError>
    ensures { IfOk result (λ made. made.items ≡ left.now.items ++ right.now.items) }
{
    if left.height() > right.height().saturating_add(1) {
        return lean_right(alloc, left, right);
    }
    if right.height() > left.height().saturating_add(1) {
        return lean_left(alloc, left, right);
    }
    fork(alloc, left.copy()?, right.copy()?)
}

// The same where the left tree is the higher one.
fn lean_right(alloc: Global, left: &ItemsTree, right: &ItemsTree) -> Result<ItemsTree, AllocError>
    ensures { IfOk result (λ made. made.items ≡ left.now.items ++ right.now.items) }
{
    let ItemsShape::Fork(a, b) = &left.node.shape else {
        return fork(alloc, left.copy()?, right.copy()?);
    };
    if a.height() < b.height() {
        if let ItemsShape::Fork(c, d) = &b.node.shape {
            let first = fork(alloc, a.copy()?, c.copy()?)?;
            let second = fork(alloc, d.copy()?, right.copy()?)?;
            return fork(alloc, first, second);
        }
    }
    let second = fork(alloc, b.copy()?, right.copy()?)?;
    fork(alloc, a.copy()?, second)
}

// The same where the right tree is the higher one.
fn lean_left(alloc: Global, left: &ItemsTree, right: &ItemsTree) -> Result<ItemsTree, AllocError>
    ensures { IfOk result (λ made. made.items ≡ left.now.items ++ right.now.items) }
{
    let ItemsShape::Fork(a, b) = &right.node.shape else {
        return fork(alloc, left.copy()?, right.copy()?);
    };
    if b.height() < a.height() {
        if let ItemsShape::Fork(c, d) = &a.node.shape {
            let first = fork(alloc, left.copy()?, c.copy()?)?;
            let second = fork(alloc, d.copy()?, b.copy()?)?;
            return fork(alloc, first, second);
        }
    }
    let first = fork(alloc, left.copy()?, a.copy()?)?;
    fork(alloc, first, b.copy()?)
}

impl ItemsTree {
    // Forks anew what is out of balance, and forgets an empty side. Where there is no memory for
    // that the tree stays as it is.
    pub(crate) fn settle(&mut self, alloc: Global)
        ensures { self.new.items ≡ self.old.items }
    {
        if let Ok(Some(better)) = self.better(alloc) {
            *self = better;
        }
    }

    fn better(&self, alloc: Global) -> Result<Option<ItemsTree>, AllocError>
        ensures { IfOk result (λ found. IfSome found (λ made. made.items ≡ self.now.items)) }
    {
        let ItemsShape::Fork(left, right) = &self.node.shape else {
            return Ok(None);
        };
        if left.is_empty() {
            return Ok(Some(right.copy()?));
        }
        if right.is_empty() {
            return Ok(Some(left.copy()?));
        }
        if left.height() > right.height().saturating_add(1)
            || right.height() > left.height().saturating_add(1)
        {
            return Ok(Some(balanced(alloc, left, right)?));
        }
        merged(alloc, left, right, LEAF / 2)
    }
}
