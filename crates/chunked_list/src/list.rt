// The list and its calls.
ghost use Rattle.std.specs.Prelude.{◌≡◌, ◌<◌, ◌≤◌, [], length, slice_index_or, IfOk, OnOk, OnErr};
ghost use Rattle.std.specs.List.{insert, remove};
ghost use Rattle.chunked_list.specs.Places.{below, Rises};

use crate::changes::NumberChange;
use crate::forks::{single, tree_of};
use crate::tree::NumbersTree;
use std::alloc::{AllocError, Global};
use std::marker::Model;

/// Numbers in an order that is the caller's, in a balanced tree of chunks that copies share.
///
/// To find one of n numbers, to insert one and to remove one takes some log n steps, and a copy
/// takes one.
#[derive(Debug)]
pub struct ChunkedList {
    pub(crate) root: Option<NumbersTree>,
}

impl Drop for ChunkedList {
    fn drop(self) {
        let ChunkedList { root: _root } = self;
    }
}

impl Model for ChunkedList {
    ghost use Rattle.std.specs.Prelude.{ℕ, List};
    ghost use Rattle.std.specs.Coded.{coded_list, coded_ℕ};
    ghost use Rattle.chunked_list.specs.Nodes.{numbers_listed};

    ghost Value = { List ℕ };

    ghost coded = { coded_list coded_ℕ };

    ghost view = { λ a. numbers_listed a.root };
}

impl ChunkedList {
    /// No numbers. It takes no memory.
    pub fn new(alloc: Global) -> ChunkedList
        ensures { result ≡ [] }
    {
        ChunkedList { root: None }
    }

    /// How many numbers there are.
    pub fn len(&self) -> usize
        ensures { result ≡ length self.now }
    {
        match &self.root {
            Some(tree) => tree.len(),
            None => 0,
        }
    }

    /// The number at a place of the list, counted from 0.
    pub fn at(&self, place: usize) -> usize
        requires { place < length self.now }
        ensures { result ≡ slice_index_or self.now place 0 }
    {
        match &self.root {
            Some(tree) => tree.at(place),
            None => unreachable!(),
        }
    }

    /// These numbers in their order. It fails only for want of memory.
    pub fn from_slice(alloc: Global, numbers: &[usize]) -> Result<ChunkedList, AllocError>
        ensures { IfOk result (λ made. made ≡ numbers.now) }
    {
        Ok(ChunkedList {
            root: Some(tree_of(alloc, numbers)?),
        })
    }

    // How many of the numbers, which rise, are less than this one.
    pub(crate) fn count_below(&self, number: usize) -> usize
        requires { Rises self.now }
        ensures { result ≡ below number self.now }
    {
        match &self.root {
            Some(tree) => tree.count_below(number),
            None => 0,
        }
    }

    /// Inserts a number before the one at the place, or behind all. It fails only for want of
    /// memory, and then all stays as it was.
    pub fn insert(&mut self, alloc: Global, place: usize, number: usize) -> Result<(), AllocError>
        requires { place ≤ length self.old }
        ensures inserted { OnOk result (self.new ≡ insert self.old place number) }
        ensures stays { OnErr result (self.new ≡ self.old) }
    {
        match &mut self.root {
            Some(tree) => tree.change(alloc, place, NumberChange::Insert(number)),
            None => {
                self.root = Some(single(alloc, number)?);
                Ok(())
            }
        }
    }

    /// Takes the number at a place out. It fails only for want of memory, and then all stays as it
    /// was.
    pub fn remove(&mut self, alloc: Global, place: usize) -> Result<(), AllocError>
        requires { place < length self.old }
        ensures removed { OnOk result (self.new ≡ remove self.old place) }
        ensures stays { OnErr result (self.new ≡ self.old) }
    {
        match &mut self.root {
            Some(tree) => {
                tree.change(alloc, place, NumberChange::Remove)?;
                if tree.is_empty() {
                    self.root = None;
                }
                Ok(())
            }
            None => unreachable!(),
        }
    }

    /// The same numbers in a list of its own, in one step and with no memory: the two share their
    /// nodes. It fails only where 2^63 lists share them.
    pub fn copy(&self, alloc: Global) -> Result<ChunkedList, AllocError>
        ensures { IfOk result (λ copied. copied ≡ self.now) }
    {
        match &self.root {
            Some(tree) => Ok(ChunkedList {
                root: Some(tree.copy()?),
            }),
            None => Ok(ChunkedList { root: None }),
        }
    }
}
