// How many items there are, and which one stands at a place.
#![tactic(auto, using(crate::proofs::SequenceValues::seen))]

ghost use Rattle.std.specs.Prelude.{◌≡◌, ◌<◌, ◌^◌, length, option_map, chars, IfOk};
ghost use Rattle.value_data.specs.Inside.View.{view};
ghost use Rattle.repl_values.specs.Inside.FaultView.{Gives};
ghost use Rattle.repl_values.specs.Arguments.{at_index};
ghost use Rattle.repl_values.specs.Inside.Rows.{listed_in};
ghost use Rattle.core_collections.specs.SequenceMeaning as meant;

use crate::sequence_function::SequenceFunction;
use repl_values::{
    ApplyError, ItemRow, Sequence, Value, at_index, copy, integer_of, out_of_bounds, row_of,
};
use std::alloc::Global;

#[tactic(auto, using(crate::proofs::SequenceValues::seen), unfolding(crate::specs::SequenceMeaning::count))]
pub(crate) fn count(alloc: Global, argument: &Value) -> Result<Value, ApplyError>
    ensures { Gives view result (meant.count (view argument.now)) }
{
    let count = length_in(alloc, SequenceFunction::Count.name(), argument)?;
    Ok(Value::Int(count as i64))
}

#[tactic(auto, using(crate::proofs::SequenceValues::seen), unfolding(crate::specs::SequenceMeaning::is_empty))]
pub(crate) fn is_empty(alloc: Global, argument: &Value) -> Result<Value, ApplyError>
    ensures { Gives view result (meant.is_empty (view argument.now)) }
{
    let count = length_in(alloc, SequenceFunction::IsEmpty.name(), argument)?;
    Ok(Value::Bool(count == 0))
}

#[tactic(auto, using(crate::proofs::SequenceValues::seen), unfolding(crate::specs::SequenceMeaning::length_in))]
fn length_in(alloc: Global, function: &str, argument: &Value) -> Result<usize, ApplyError>
    ensures count { Gives (λ n. n) result (meant.length_in function.now (view argument.now)) }
    ensures bound { IfOk result (λ n. n < 2 ^ 63) }
{
    match argument {
        Value::Str(text) => Ok(characters(text.as_str())),
        other => Ok(ItemRow::of(alloc, function, other)?.len()),
    }
}

#[tactic(auto, using(std::proofs::lemmas::Str::chars_from_encodes))]
fn characters(text: &str) -> usize
    ensures count { result ≡ length (chars text.now) }
    ensures bound { result < 2 ^ 63 }
{
    text.chars().count()
}

// The item at the index of a list, a vector or nil. `otherwise` stands in the place of one that is
// not there.
#[tactic(auto, using(crate::proofs::SequenceValues::seen), unfolding(crate::specs::SequenceMeaning::nth))]
pub(crate) fn nth(
    alloc: Global,
    collection: &Value,
    index: &Value,
    otherwise: Option<&Value>,
) -> Result<Value, ApplyError>
    ensures { Gives view result (meant.nth (view collection.now) (view index.now)
        (option_map (λ v. view v.now) otherwise.entry)) }
{
    let name = SequenceFunction::Nth.name();
    let row = row_of(alloc, name, collection)?;
    let index = integer_of(alloc, name, index)?;
    let found = found_at(row, index);
    found_or(alloc, found, otherwise, collection)
}

// The item at the index of a list or a vector. Nil has none.
fn found_at(row: Option<&Sequence>, index: i64) -> Option<&Value>
    ensures { option_map (λ v. view v.now) result ≡ at_index index (listed_in row.entry) }
{
    match row {
        Some(items) => at_index(items, index),
        None => None,
    }
}

fn found_or(
    alloc: Global,
    found: Option<&Value>,
    otherwise: Option<&Value>,
    collection: &Value,
) -> Result<Value, ApplyError>
    ensures { Gives view result (meant.found_or (option_map (λ v. view v.now) found.entry)
        (option_map (λ v. view v.now) otherwise.entry) (view collection.now)) }
{
    match (found, otherwise, collection) {
        (Some(item), _, _) => Ok(copy(item)?),
        (None, Some(value), _) => Ok(copy(value)?),
        (None, None, Value::Nil) => Ok(Value::Nil),
        _ => Err(ApplyError::Fault(out_of_bounds(alloc)?)),
    }
}
