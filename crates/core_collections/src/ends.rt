// Functions of the items of one value: the ends of the row, what stands behind the first, and the
// row turned round.
#![tactic(auto, using(crate::proofs::SequenceValues::seen))]

ghost use Rattle.value_data.specs.Listed.{listed};
ghost use Rattle.value_data.specs.Inside.View.{view};
ghost use Rattle.repl_values.specs.Inside.FaultView.{Gives};
ghost use Rattle.core_collections.specs.SequenceMeaning as meant;

use crate::sequence_function::SequenceFunction;
use repl_values::{ApplyError, ItemRow, Sequence, Value, list_of};
use std::alloc::Global;

#[tactic(auto, using(crate::proofs::SequenceValues::seen), unfolding(crate::specs::SequenceMeaning::first))]
pub(crate) fn first(alloc: Global, argument: &Value) -> Result<Value, ApplyError>
    ensures { Gives view result (meant.first (view argument.now)) }
{
    let row = ItemRow::of(alloc, SequenceFunction::First.name(), argument)?;
    Ok(row.item_or_nil(alloc, 0)?)
}

#[tactic(auto, using(crate::proofs::SequenceValues::seen), unfolding(crate::specs::SequenceMeaning::last))]
pub(crate) fn last(alloc: Global, argument: &Value) -> Result<Value, ApplyError>
    ensures { Gives view result (meant.last (view argument.now)) }
{
    let row = ItemRow::of(alloc, SequenceFunction::Last.name(), argument)?;
    Ok(row.item_or_nil(alloc, row.len().saturating_sub(1))?)
}

#[tactic(auto, using(crate::proofs::SequenceValues::seen), unfolding(crate::specs::SequenceMeaning::rest))]
pub(crate) fn rest(alloc: Global, argument: &Value) -> Result<Value, ApplyError>
    ensures { Gives view result (meant.rest (view argument.now)) }
{
    let items = behind_first(alloc, SequenceFunction::Rest.name(), argument)?;
    Ok(Value::List(items))
}

#[tactic(auto, using(crate::proofs::SequenceValues::seen), unfolding(crate::specs::SequenceMeaning::next))]
pub(crate) fn next(alloc: Global, argument: &Value) -> Result<Value, ApplyError>
    ensures { Gives view result (meant.next (view argument.now)) }
{
    let items = behind_first(alloc, SequenceFunction::Next.name(), argument)?;
    if items.is_empty() {
        return Ok(Value::Nil);
    }
    Ok(Value::List(items))
}

// The items behind the first. Those of a list or a vector are shared with it.
fn behind_first(alloc: Global, function: &str, argument: &Value) -> Result<Sequence, ApplyError>
    ensures { Gives (λ made. listed made.items) result
        (meant.items_but_first function.now (view argument.now)) }
{
    let row = ItemRow::of(alloc, function, argument)?;
    Ok(row.sequence(alloc)?.rest(alloc)?)
}

#[tactic(auto, using(crate::proofs::SequenceValues::seen), unfolding(crate::specs::SequenceMeaning::reversed_list))]
pub(crate) fn reversed_list(alloc: Global, argument: &Value) -> Result<Value, ApplyError>
    ensures { Gives view result (meant.reversed_list (view argument.now)) }
{
    let row = ItemRow::of(alloc, SequenceFunction::Reverse.name(), argument)?;
    let mut items = row.copies(alloc)?;
    items.reverse();
    Ok(list_of(alloc, items)?)
}
