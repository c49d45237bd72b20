// What is read of a tree.
ghost use Rattle.std.specs.Prelude.{◌≡◌, ◌==◌, ◌<◌, length, slice_index_or};
ghost use Rattle.chunked_list.specs.Nodes.{numbers_last};
ghost use Rattle.chunked_list.specs.Places.{below, Rises};

use crate::tree::{NumbersShape, NumbersTree};

impl NumbersTree {
    // How many numbers there are.
    pub(crate) fn len(&self) -> usize
        ensures { result ≡ length self.now.items }
    {
        self.node.len
    }

    // Whether there is no number.
    pub(crate) fn is_empty(&self) -> bool
        ensures { result ≡ (length self.now.items == 0) }
    {
        self.len() == 0
    }

    // The last number, or 0 where there is none.
    pub(crate) fn last(&self) -> usize
        ensures { result ≡ numbers_last self.now.items }
    {
        self.node.last
    }

    // How high the tree is said to be.
    pub(crate) fn height(&self) -> u64 {
        self.node.height
    }

    // The number at a place.
    pub(crate) fn at(&self, place: usize) -> usize
        requires { place < length self.now.items }
        ensures { result ≡ slice_index_or self.now.items place 0 }
    {
        match &self.node.shape {
            NumbersShape::Leaf(items) => items[place],
            NumbersShape::Fork(left, right) => {
                let before = left.len();
                if place < before {
                    left.at(place)
                } else {
                    right.at(place - before)
                }
            }
        }
    }

    // How many of the numbers, which rise, are less than this one.
    pub(crate) fn count_below(&self, number: usize) -> usize
        requires { Rises self.now.items }
        ensures { result ≡ below number self.now.items }
    {
        let all = self.len();
        if self.last() < number {
            return all;
        }
        match &self.node.shape {
            NumbersShape::Leaf(items) => count_among(items, number),
            NumbersShape::Fork(left, right) => {
                if left.last() < number {
                    left.len() + right.count_below(number)
                } else {
                    left.count_below(number)
                }
            }
        }
    }
}

pub(crate) fn last_number(numbers: &[usize]) -> usize
    ensures { result ≡ numbers_last numbers.now }
{
    match numbers.last() {
        Some(number) => *number,
        None => 0,
    }
}

// How many of these numbers, which rise, are less than this one.
fn count_among(numbers: &[usize], number: usize) -> usize
    requires { Rises numbers.now }
    ensures { result ≡ below number numbers.now }
{
    let mut low = 0;
    let mut high = numbers.len();
    while low < high {
        let middle = low + (high - low) / 2;
        if numbers[middle] < number {
            low = middle + 1;
        } else {
            high = middle;
        }
    }
    low
}
