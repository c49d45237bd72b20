// The items of a value, without copying them.
#![tactic(auto, using(crate::proofs::Values::seen))]

ghost use Rattle.std.specs.Prelude.{◌≡◌, ◌<◌, ◌^◌, length, map, IfOk};
ghost use Rattle.value_data.specs.Listed.{listed};
ghost use Rattle.value_data.specs.Inside.View.{view};
ghost use Rattle.repl_values.specs.Inside.FaultView.{Gives};
ghost use Rattle.repl_values.specs.Items.{items_in};
ghost use Rattle.repl_values.specs.Arguments.{item_or_nil};
ghost use Rattle.repl_values.specs.Inside.Rows.{row_view, pair_vectors};

use crate::error::ApplyError;
use crate::faults::wrong_argument;
use std::alloc::{AllocError, Global};
use value_data::{Sequence, Table, Value, copy, pair_as_vector};

/// Where the items stand: nowhere, in a list or a vector, or as a map's pairs.
#[derive(Clone, Copy)]
pub enum ItemRow<'a> {
    NoItems,
    Items(&'a Sequence),
    Pairs(&'a Table),
}

impl<'a> ItemRow<'a> {
    /// The items of an argument of the function of this name. Those of nil are none; those of a map
    /// are its pairs, each as a vector of two.
    pub fn of(alloc: Global, function: &str, argument: &'a Value) -> Result<ItemRow<'a>, ApplyError>
        ensures { Gives row_view result (items_in function.now (view argument.now)) }
    {
        match argument {
            Value::Nil => Ok(ItemRow::NoItems),
            Value::List(items) => Ok(ItemRow::Items(items)),
            Value::Vector(items) => Ok(ItemRow::Items(items)),
            Value::Map(pairs) => Ok(ItemRow::Pairs(pairs)),
            other => Err(ApplyError::Fault(wrong_argument(alloc, function, other)?)),
        }
    }

    /// How many items there are.
    pub fn len(self) -> usize
        ensures count { result ≡ length (row_view self.entry) }
        ensures bound { result < 2 ^ 63 }
    {
        match self {
            ItemRow::NoItems => 0,
            ItemRow::Items(items) => items.len(),
            ItemRow::Pairs(pairs) => pairs.len(),
        }
    }

    /// The item at this place, or nil. It fails only for want of memory.
    pub fn item_or_nil(self, alloc: Global, place: usize) -> Result<Value, AllocError>
        ensures { IfOk result (λ item. view item ≡ item_or_nil place (row_view self.entry)) }
    {
        match self {
            ItemRow::NoItems => Ok(Value::Nil),
            ItemRow::Items(items) => match items.get(place) {
                Some(value) => copy(value),
                None => Ok(Value::Nil),
            },
            ItemRow::Pairs(pairs) => pair_or_nil(alloc, pairs, place),
        }
    }

    /// All items in a vector of their own. It fails only for want of memory.
    pub fn copies(self, alloc: Global) -> Result<Vec<Value>, AllocError>
        ensures { IfOk result (λ copies. map view copies.items ≡ row_view self.entry) }
    {
        match self {
            ItemRow::NoItems => Ok(Vec::new(alloc)),
            ItemRow::Items(items) => items.copies(alloc),
            ItemRow::Pairs(pairs) => copy_pairs(alloc, pairs),
        }
    }

    /// All items as a sequence. Those of a list or a vector are shared, in one step. It fails only
    /// for want of memory.
    pub fn sequence(self, alloc: Global) -> Result<Sequence, AllocError>
        ensures { IfOk result (λ made. listed made.items ≡ row_view self.entry) }
    {
        match self {
            ItemRow::NoItems => Sequence::from_vec(alloc, Vec::new(alloc)),
            ItemRow::Items(items) => items.copy(),
            ItemRow::Pairs(pairs) => Sequence::from_vec(alloc, copy_pairs(alloc, pairs)?),
        }
    }
}

// The pair at this place as a vector, or nil.
fn pair_or_nil(alloc: Global, pairs: &Table, place: usize) -> Result<Value, AllocError>
    ensures { IfOk result
        (λ pair. view pair ≡ item_or_nil place (pair_vectors pairs.now.pairs)) }
{
    if place >= pairs.len() {
        return Ok(Value::Nil);
    }
    pair_as_vector(alloc, pairs.keys().at(place), pairs.values().at(place))
}

fn copy_pairs(alloc: Global, pairs: &Table) -> Result<Vec<Value>, AllocError>
    ensures { IfOk result (λ copies. map view copies.items ≡ pair_vectors pairs.now.pairs) }
{
    let keys = pairs.keys();
    let values = pairs.values();
    let mut copies = Vec::with_capacity(alloc, pairs.len())?;
    for place in 0..pairs.len() {
        copies.push(pair_as_vector(alloc, keys.at(place), values.at(place))?)?;
    }
    Ok(copies)
}
