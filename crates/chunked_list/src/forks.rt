// Leaves and forks, and forks of trees of unlike heights.
ghost use Rattle.std.specs.Prelude.{◌≡◌, [], ◌∷◌, ◌++◌, IfOk, IfSome};
ghost use Rattle.chunked_list.specs.Nodes.{numbers_last};

use crate::reads::last_number;
use crate::tree::{NumbersNode, NumbersShape, NumbersTree};
use std::alloc::{AllocError, Global};
use std::sync::Arc;

// How many numbers a leaf has room for.
pub(crate) const LEAF: usize = 64;

// A leaf of these numbers.
pub(crate) fn leaf(alloc: Global, items: Vec<usize>) -> Result<NumbersTree, AllocError>
    ensures { IfOk result (λ made. made.items ≡ items.items) }
{
    let node = NumbersNode {
        len: items.len(),
        last: last_number(&items),
        height: 0,
        shape: NumbersShape::Leaf(items),
    };
    let node = Arc::new(alloc, node)?;
    Ok(NumbersTree { node })
}

// A leaf of one number.
pub(crate) fn single(alloc: Global, number: usize) -> Result<NumbersTree, AllocError>
    ensures { IfOk result (λ made. made.items ≡ number ∷ []) }
{
    let mut items = Vec::new(alloc);
    items.push(number)?;
    leaf(alloc, items)
}

// The numbers of two trees. It fails for want of memory, or where there would be 2^64 numbers.
pub(crate) fn fork(
    alloc: Global,
    left: NumbersTree,
    right: NumbersTree,
) -> Result<NumbersTree, AllocError>
    ensures { IfOk result (λ made. made.items ≡ left.items ++ right.items) }
{
    let Some(len) = left.len().checked_add(right.len()) else {
        return Err(AllocError);
    };
    let height = left.height().max(right.height()).saturating_add(1);
    let node = NumbersNode {
        len,
        last: last_of_both(&left, &right),
        height,
        shape: NumbersShape::Fork(left, right),
    };
    let node = Arc::new(alloc, node)?;
    Ok(NumbersTree { node })
}

// The last number of the right tree, or of the left one where the right one has none.
pub(crate) fn last_of_both(left: &NumbersTree, right: &NumbersTree) -> usize
    ensures { result ≡ numbers_last (left.now.items ++ right.now.items) }
{
    if right.is_empty() {
        left.last()
    } else {
        right.last()
    }
}

// A tree of these numbers, whose leaves have as many or one fewer. It fails only for want of memory.
pub(crate) fn tree_of(alloc: Global, numbers: &[usize]) -> Result<NumbersTree, AllocError>
    ensures { IfOk result (λ made. made.items ≡ numbers.now) }
{
    if numbers.len() <= LEAF {
        return leaf(alloc, Vec::from_slice(alloc, numbers)?);
    }
    let (before, behind) = numbers.split_at(numbers.len() / 2);
    fork(alloc, tree_of(alloc, before)?, tree_of(alloc, behind)?)
}

// The numbers of both, in one leaf, where both are small leaves.
fn merged(
    alloc: Global,
    left: &NumbersTree,
    right: &NumbersTree,
) -> Result<Option<NumbersTree>, AllocError>
    ensures { IfOk result
        (λ found. IfSome found (λ made. made.items ≡ left.now.items ++ right.now.items)) }
{
    let NumbersShape::Leaf(first) = &left.node.shape else {
        return Ok(None);
    };
    let NumbersShape::Leaf(second) = &right.node.shape else {
        return Ok(None);
    };
    if first.len().saturating_add(second.len()) > LEAF / 2 {
        return Ok(None);
    }
    let mut items = Vec::from_slice(alloc, first)?;
    items.extend_from_slice(second)?;
    Ok(Some(leaf(alloc, items)?))
}

// The numbers of two trees, the left one the higher by more than one, in forks that are less out
// of balance. It fails for want of memory, or where there would be 2^64 numbers.
fn lean_right(
    alloc: Global,
    left: &NumbersTree,
    right: &NumbersTree,
) -> Result<NumbersTree, AllocError>
    ensures { IfOk result (λ made. made.items ≡ left.now.items ++ right.now.items) }
{
    let NumbersShape::Fork(a, b) = &left.node.shape else {
        return fork(alloc, left.copy()?, right.copy()?);
    };
    if a.height() < b.height() {
        if let NumbersShape::Fork(c, d) = &b.node.shape {
            let first = fork(alloc, a.copy()?, c.copy()?)?;
            let second = fork(alloc, d.copy()?, right.copy()?)?;
            return fork(alloc, first, second);
        }
    }
    let second = fork(alloc, b.copy()?, right.copy()?)?;
    fork(alloc, a.copy()?, second)
}

// The same where the right tree is the higher one.
fn lean_left(
    alloc: Global,
    left: &NumbersTree,
    right: &NumbersTree,
) -> Result<NumbersTree, AllocError>
    ensures { IfOk result (λ made. made.items ≡ left.now.items ++ right.now.items) }
{
    let NumbersShape::Fork(a, b) = &right.node.shape else {
        return fork(alloc, left.copy()?, right.copy()?);
    };
    if b.height() < a.height() {
        if let NumbersShape::Fork(c, d) = &a.node.shape {
            let first = fork(alloc, left.copy()?, c.copy()?)?;
            let second = fork(alloc, d.copy()?, b.copy()?)?;
            return fork(alloc, first, second);
        }
    }
    let first = fork(alloc, left.copy()?, a.copy()?)?;
    fork(alloc, first, b.copy()?)
}

impl NumbersTree {
    // Forks anew what is out of balance, and forgets an empty side. Where there is no memory for
    // that the tree stays as it is.
    pub(crate) fn settle(&mut self, alloc: Global)
        ensures { self.new.items ≡ self.old.items }
    {
        if let Ok(Some(better)) = self.better(alloc) {
            *self = better;
        }
    }

    fn better(&self, alloc: Global) -> Result<Option<NumbersTree>, AllocError>
        ensures { IfOk result (λ found. IfSome found (λ made. made.items ≡ self.now.items)) }
    {
        let NumbersShape::Fork(left, right) = &self.node.shape else {
            return Ok(None);
        };
        if left.is_empty() {
            return Ok(Some(right.copy()?));
        }
        if right.is_empty() {
            return Ok(Some(left.copy()?));
        }
        if left.height() > right.height().saturating_add(1) {
            return Ok(Some(lean_right(alloc, left, right)?));
        }
        if right.height() > left.height().saturating_add(1) {
            return Ok(Some(lean_left(alloc, left, right)?));
        }
        merged(alloc, left, right)
    }
}
