// A change of one number.
ghost use Rattle.std.specs.Prelude.{◌≡◌, ◌<◌, ◌≤◌, IfOk, IfSome, length, is_ok, true, false, if◌then◌else◌};
ghost use Rattle.std.specs.List.{insert};
ghost use Rattle.chunked_list.specs.Nodes.{numbers_shown, numbers_held, KeepsNumbers};
ghost use Rattle.chunked_list.specs.Changes.{numbers_changed, HasNumberPlace};

use crate::forks::{LEAF, fork, last_of_both, leaf, single};
use crate::reads::last_number;
use crate::tree::{NumbersNode, NumbersShape, NumbersTree};
use std::alloc::{AllocError, Global};
use std::sync::Arc;

// What is done at a place.
#[derive(Clone, Copy)]
pub(crate) enum NumberChange {
    Insert(usize),
    Remove,
}

// Does the change among the numbers of a leaf.
fn change_items(
    items: &mut Vec<usize>,
    place: usize,
    change: NumberChange,
) -> Result<(), AllocError>
    requires in_range { HasNumberPlace change place (length items.old.items) }
    ensures items { items.new.items ≡ (if is_ok result
        then numbers_changed change place items.old.items
        else items.old.items) }
{
    match change {
        NumberChange::Insert(number) => items.insert(place, number)?,
        NumberChange::Remove => {
            let _taken = items.remove(place);
        }
    }
    Ok(())
}

impl NumberChange {
    // Whether a change at the place is one of the first so many numbers.
    fn goes_left(self, place: usize, count: usize) -> bool
        ensures left { result ≡ true → HasNumberPlace self place count }
        ensures right { result ≡ false → count ≤ place }
    {
        match self {
            NumberChange::Insert(_) => place <= count,
            NumberChange::Remove => place < count,
        }
    }
}

// Does the change below a node that nobody else holds.
#[cycle(change)]
fn change_node(
    node: &mut NumbersNode,
    alloc: Global,
    place: usize,
    change: NumberChange,
) -> Result<(), AllocError>
    requires kept { KeepsNumbers node.old }
    requires in_range { HasNumberPlace change place (length (numbers_shown node.old.shape)) }
    ensures kept { KeepsNumbers node.new }
    ensures items { numbers_shown node.new.shape ≡ (if is_ok result
        then numbers_changed change place (numbers_shown node.old.shape)
        else numbers_shown node.old.shape) }
{
    if node.len == usize::MAX {
        return Err(AllocError);
    }
    match &mut node.shape {
        NumbersShape::Leaf(items) => {
            change_items(items, place, change)?;
            node.len = items.len();
            node.last = last_number(items);
            Ok(())
        }
        NumbersShape::Fork(left, right) => {
            let before = left.len();
            if change.goes_left(place, before) {
                left.change(alloc, place, change)?;
            } else {
                right.change(alloc, place - before, change)?;
            }
            node.len = left.len() + right.len();
            node.last = last_of_both(left, right);
            node.height = left.height().max(right.height()).saturating_add(1);
            Ok(())
        }
    }
}

impl NumbersTree {
    // Does the change. After an error the numbers are as they were.
    #[cycle(change)]
    pub(crate) fn change(
        &mut self,
        alloc: Global,
        place: usize,
        change: NumberChange,
    ) -> Result<(), AllocError>
        requires in_range { HasNumberPlace change place (length self.old.items) }
        ensures { self.new.items ≡ (if is_ok result
            then numbers_changed change place self.old.items
            else self.old.items) }
    {
        if let NumberChange::Insert(number) = change {
            if let Some(wider) = self.widened(alloc, place, number)? {
                *self = wider;
                return Ok(());
            }
        }
        self.change_owned(alloc, place, change)
    }

    #[cycle(change)]
    fn change_owned(
        &mut self,
        alloc: Global,
        place: usize,
        change: NumberChange,
    ) -> Result<(), AllocError>
        requires in_range { HasNumberPlace change place (length self.old.items) }
        ensures { self.new.items ≡ (if is_ok result
            then numbers_changed change place self.old.items
            else self.old.items) }
    {
        self.own(alloc)?;
        let Some(node) = Arc::get_mut(&mut self.node) else {
            return Err(AllocError);
        };
        change_node(node, alloc, place, change)?;
        self.settle(alloc);
        Ok(())
    }

    // A full leaf with one more number, in a fork: the one at an end in a leaf of its own, or two
    // halves. Nothing where it is no full leaf.
    fn widened(
        &self,
        alloc: Global,
        place: usize,
        number: usize,
    ) -> Result<Option<NumbersTree>, AllocError>
        requires { place ≤ length self.now.items }
        ensures { IfOk result (λ found. IfSome found
            (λ made. made.items ≡ insert self.now.items place number)) }
    {
        let NumbersShape::Leaf(items) = &self.node.shape else {
            return Ok(None);
        };
        if items.len() < LEAF {
            return Ok(None);
        }
        if place == items.len() {
            return Ok(Some(fork(alloc, self.copy()?, single(alloc, number)?)?));
        }
        if place == 0 {
            return Ok(Some(fork(alloc, single(alloc, number)?, self.copy()?)?));
        }
        Ok(Some(halves(alloc, items, place, number)?))
    }
}

// The two halves of a leaf, one of them with one more number.
fn halves(
    alloc: Global,
    items: &[usize],
    place: usize,
    number: usize,
) -> Result<NumbersTree, AllocError>
    requires { place ≤ length items.now }
    ensures { IfOk result (λ made. made.items ≡ insert items.now place number) }
{
    let (before, behind) = items.split_at(items.len() / 2);
    let mut first = Vec::from_slice(alloc, before)?;
    let mut second = Vec::from_slice(alloc, behind)?;
    if place <= before.len() {
        first.insert(place, number)?;
        return fork(alloc, leaf(alloc, first)?, leaf(alloc, second)?);
    }
    second.insert(place - before.len(), number)?;
    fork(alloc, leaf(alloc, first)?, leaf(alloc, second)?)
}
