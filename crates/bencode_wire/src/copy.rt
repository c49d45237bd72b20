// Copies, written out since a derived clone says nothing of a type that holds itself.
ghost use Rattle.std.specs.Prelude.{◌≡◌, IfOk, map};
ghost use Rattle.bencode_wire.specs.Inside.View.{tree_view, trees_view, entries_view};

use crate::ben::{Ben, Dictionary};
use std::alloc::{AllocError, Global};
use std::collections::VecDeque;

impl Ben {
    /// An equal value.
    pub fn copy(&self, alloc: Global) -> Result<Ben, AllocError>
        ensures { IfOk result (λ copied. tree_view copied ≡ tree_view self.now) }
    {
        copy(alloc, self)
    }
}

pub(crate) fn copy_bytes(alloc: Global, bytes: &Vec<u8>) -> Result<Vec<u8>, AllocError>
    ensures { IfOk result (λ copied. copied.items ≡ bytes.now.items) }
{
    Vec::from_slice(alloc, bytes)
}

#[cycle(copy)]
fn copy(alloc: Global, value: &Ben) -> Result<Ben, AllocError>
    ensures { IfOk result (λ copied. tree_view copied ≡ tree_view value.now) }
{
    match value {
        Ben::Integer(n) => Ok(Ben::Integer(*n)),
        Ben::String(bytes) => Ok(Ben::String(copy_bytes(alloc, bytes)?)),
        Ben::List(items) => Ok(Ben::List(copy_items(alloc, items)?)),
        Ben::Dictionary(pairs) => Ok(Ben::Dictionary(copy_pairs(alloc, pairs)?)),
    }
}

#[cycle(copy)]
pub(crate) fn copy_items(alloc: Global, items: &Vec<Ben>) -> Result<Vec<Ben>, AllocError>
    ensures { IfOk result (λ copied. trees_view copied.items ≡ trees_view items.now.items) }
{
    let mut copies = Vec::with_capacity(alloc, items.len())?;
    for item in items {
        copies.push(copy(alloc, item)?)?;
    }
    Ok(copies)
}

#[cycle(copy)]
pub(crate) fn copy_pairs(alloc: Global, pairs: &Dictionary) -> Result<Dictionary, AllocError>
    ensures { IfOk result (λ copied. entries_view copied.entries ≡ entries_view pairs.now.entries) }
{
    let mut copies = Dictionary::new(alloc);
    for (key, value) in pairs.iter() {
        let name = copy_bytes(alloc, key)?;
        drop(copies.insert(name, copy(alloc, value)?)?);
    }
    Ok(copies)
}

pub(crate) fn copy_queue(alloc: Global, values: &VecDeque<Ben>) -> Result<VecDeque<Ben>, AllocError>
    ensures { IfOk result (λ copied. map tree_view copied.items ≡ map tree_view values.now.items) }
{
    let mut copies = VecDeque::new(alloc);
    for at in 0..values.len() {
        copies.push_back(copy(alloc, &values[at])?)?;
    }
    Ok(copies)
}
