// Functions that put values into a row: `cons` and `conj`.
#![tactic(auto, using(crate::proofs::SequenceValues::seen))]

ghost use Rattle.std.specs.Prelude.{◌≡◌, ◌++◌, ◌∷◌, [], map, option_map, reverse, IfOk};
ghost use Rattle.value_data.specs.Datum.{vector};
ghost use Rattle.value_data.specs.Listed.{listed};
ghost use Rattle.value_data.specs.Inside.Seen.{entry_view};
ghost use Rattle.value_data.specs.Inside.View.{view};
ghost use Rattle.repl_values.specs.Inside.FaultView.{Gives};
ghost use Rattle.core_collections.specs.Pairs.{as_pair, pair_in, pairs_in};
ghost use Rattle.core_collections.specs.SequenceMeaning as meant;

use crate::sequence_function::SequenceFunction;
use repl_values::{
    ApplyError, ItemRow, Sequence, Value, copy, copy_items, list_or_nil, wrong_argument,
};
use std::alloc::{AllocError, Global};

#[tactic(auto, using(crate::proofs::SequenceValues::seen), unfolding(crate::specs::SequenceMeaning::cons))]
pub(crate) fn cons(alloc: Global, first: &Value, rest: &Value) -> Result<Value, ApplyError>
    ensures { Gives view result (meant.cons (view first.now) (view rest.now)) }
{
    let row = ItemRow::of(alloc, SequenceFunction::Cons.name(), rest)?;
    let items = row.sequence(alloc)?;
    Ok(Value::List(items.with_first(alloc, copy(first)?)?))
}

#[tactic(auto, using(crate::proofs::SequenceValues::seen), unfolding(crate::specs::SequenceMeaning::conj))]
pub(crate) fn conj(alloc: Global, collection: &Value, more: &[Value]) -> Result<Value, ApplyError>
    ensures { Gives view result (meant.conj (view collection.now) (map view more.now)) }
{
    match collection {
        Value::Nil => Ok(list_or_nil(alloc, reversed_copies(alloc, more)?)?),
        Value::List(items) => Ok(Value::List(with_more_in_front(alloc, items.copy()?, more)?)),
        Value::Vector(items) => Ok(Value::Vector(with_more_behind(alloc, items.copy()?, more)?)),
        Value::Map(pairs) => {
            let more = pairs_of(alloc, SequenceFunction::Conj.name(), more)?;
            Ok(Value::Map(pairs.copy()?.with_pairs(alloc, more.as_slice())?))
        }
        other => {
            let name = SequenceFunction::Conj.name();
            Err(ApplyError::Fault(wrong_argument(alloc, name, other)?))
        }
    }
}

// The items with more in front of them, put there one after another.
fn with_more_in_front(
    alloc: Global,
    items: Sequence,
    more: &[Value],
) -> Result<Sequence, AllocError>
    ensures { IfOk result (λ all. listed all.items
        ≡ reverse (map view more.now) ++ listed items.items) }
{
    let mut items = items;
    for value in more {
        items = items.with_first(alloc, copy(value)?)?;
    }
    Ok(items)
}

// The items with more behind them, put there one after another.
fn with_more_behind(alloc: Global, items: Sequence, more: &[Value]) -> Result<Sequence, AllocError>
    ensures { IfOk result (λ all. listed all.items ≡ listed items.items ++ map view more.now) }
{
    let mut items = items;
    for value in more {
        items = with_one(alloc, items, value)?;
    }
    Ok(items)
}

fn with_one(alloc: Global, items: Sequence, value: &Value) -> Result<Sequence, AllocError>
    ensures { IfOk result (λ made. listed made.items ≡ listed items.items ++ view value.now ∷ []) }
{
    items.with_last(alloc, copy(value)?)
}

// Copies, the last first.
fn reversed_copies(alloc: Global, values: &[Value]) -> Result<Vec<Value>, AllocError>
    ensures { IfOk result (λ copies. map view copies.items ≡ reverse (map view values.now)) }
{
    let mut copies = copy_items(alloc, values)?;
    copies.reverse();
    Ok(copies)
}

// What is put into a map: vectors of two, each as its key and its value.
fn pairs_of<'a>(
    alloc: Global,
    function: &str,
    args: &'a [Value],
) -> Result<Vec<(&'a Value, &'a Value)>, ApplyError>
    ensures { Gives (λ pairs. map entry_view pairs.items) result
        (pairs_in function.now (map view args.now)) }
{
    let mut pairs = Vec::new(alloc);
    for argument in args {
        let pair = pair_of(alloc, function, argument)?;
        pairs.push(pair)?;
    }
    Ok(pairs)
}

fn pair_of<'a>(
    alloc: Global,
    function: &str,
    argument: &'a Value,
) -> Result<(&'a Value, &'a Value), ApplyError>
    ensures { Gives entry_view result (pair_in function.now (view argument.now)) }
{
    match as_pair(argument) {
        Some(pair) => Ok(pair),
        None => Err(ApplyError::Fault(wrong_argument(alloc, function, argument)?)),
    }
}

fn as_pair(argument: &Value) -> Option<(&Value, &Value)>
    ensures { option_map entry_view result ≡ as_pair (view argument.now) }
{
    match argument {
        Value::Vector(items) => two_of(items),
        _other => None,
    }
}

fn two_of(items: &Sequence) -> Option<(&Value, &Value)>
    ensures { option_map entry_view result ≡ as_pair (vector items.now.items) }
{
    if items.len() == 2 {
        Some((items.at(0), items.at(1)))
    } else {
        None
    }
}
