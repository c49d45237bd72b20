// Values by key or by index.
#![tactic(auto, using(crate::proofs::MapValues::seen))]

ghost use Rattle.std.specs.Prelude.{◌≡◌, option_map};
ghost use Rattle.value_data.specs.Inside.View.{view};
ghost use Rattle.repl_values.specs.Inside.FaultView.{Gives};
ghost use Rattle.core_collections.specs.MapMeaning as meant;

use crate::map_function::MapFunction;
use repl_values::{ApplyError, Sequence, Value, at_index, copy, wrong_argument};
use std::alloc::Global;

#[tactic(auto, using(crate::proofs::MapValues::seen), unfolding(crate::specs::MapMeaning::get))]
pub(crate) fn get(
    alloc: Global,
    collection: &Value,
    key: &Value,
    otherwise: Option<&Value>,
) -> Result<Value, ApplyError>
    ensures { Gives view result (meant.get (view collection.now) (view key.now)
        (option_map (λ v. view v.now) otherwise.entry)) }
{
    match (found_in(collection, key), otherwise) {
        (Some(value), _) => Ok(copy(value)?),
        (None, Some(value)) => Ok(copy(value)?),
        (None, None) => Ok(Value::Nil),
    }
}

fn found_in<'a>(collection: &'a Value, key: &Value) -> Option<&'a Value>
    ensures { option_map (λ v. view v.now) result
        ≡ meant.found_in (view collection.now) (view key.now) }
{
    match collection {
        Value::Map(pairs) => pairs.get(key),
        Value::Vector(items) => item_at(items, key),
        _other => None,
    }
}

#[tactic(auto, using(crate::proofs::MapValues::seen), unfolding(crate::specs::MapMeaning::contains))]
pub(crate) fn contains(alloc: Global, collection: &Value, key: &Value) -> Result<Value, ApplyError>
    ensures { Gives view result (meant.contains (view collection.now) (view key.now)) }
{
    match collection {
        Value::Nil => Ok(Value::Bool(false)),
        Value::Map(pairs) => Ok(Value::Bool(pairs.contains(key))),
        Value::Vector(items) => Ok(Value::Bool(item_at(items, key).is_some())),
        other => {
            let name = MapFunction::Contains.name();
            Err(ApplyError::Fault(wrong_argument(alloc, name, other)?))
        }
    }
}

fn item_at<'a>(items: &'a Sequence, index: &Value) -> Option<&'a Value>
    ensures { option_map (λ v. view v.now) result
        ≡ meant.item_at (view index.now) items.now.items }
{
    match index {
        Value::Int(n) => at_index(items, *n),
        _other => None,
    }
}
