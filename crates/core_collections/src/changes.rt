// Maps and vectors with more put in or keys taken out.
#![tactic(auto, using(crate::proofs::MapValues::seen))]

ghost use Rattle.std.specs.Prelude.{◌≡◌, ◌≤◌, map, length, IfSome};
ghost use Rattle.value_data.specs.Listed.{listed};
ghost use Rattle.value_data.specs.Inside.View.{view};
ghost use Rattle.repl_values.specs.Inside.FaultView.{Gives};
ghost use Rattle.value_data.specs.Inside.Seen.{entry_view};
ghost use Rattle.core_collections.specs.Inside.View.{indexed_view};
ghost use Rattle.core_collections.specs.MapMeaning as meant;

use crate::arguments::places_of;
use crate::making::table_of;
use crate::map_function::MapFunction;
use repl_values::{ApplyError, Sequence, Value, copy, out_of_bounds, wrong_argument};
use std::alloc::Global;

#[tactic(auto, using(crate::proofs::MapValues::seen), unfolding(crate::specs::MapMeaning::assoc))]
pub(crate) fn assoc<'a>(
    alloc: Global,
    collection: &'a Value,
    more: &[(&'a Value, &'a Value)],
) -> Result<Value, ApplyError>
    ensures { Gives view result (meant.assoc (view collection.now) (map entry_view more.now)) }
{
    let name = MapFunction::Assoc.name();
    match collection {
        Value::Vector(items) => {
            let places = places_of(alloc, name, more)?;
            let all = with_items(alloc, items.copy()?, places.as_slice())?;
            Ok(Value::Vector(all))
        }
        other => {
            let pairs = table_of(alloc, name, other)?;
            Ok(Value::Map(pairs.with_pairs(alloc, more)?))
        }
    }
}

#[tactic(auto, using(crate::proofs::MapValues::seen), unfolding(crate::specs::MapMeaning::dissoc))]
pub(crate) fn dissoc(alloc: Global, collection: &Value, keys: &[Value]) -> Result<Value, ApplyError>
    ensures { Gives view result (meant.dissoc (view collection.now) (map view keys.now)) }
{
    match collection {
        Value::Nil => Ok(Value::Nil),
        Value::Map(pairs) => Ok(Value::Map(pairs.without_keys(alloc, keys)?)),
        other => {
            let name = MapFunction::Dissoc.name();
            Err(ApplyError::Fault(wrong_argument(alloc, name, other)?))
        }
    }
}

// The items with more put in, one after another. All that stays as it was is shared.
fn with_items(
    alloc: Global,
    items: Sequence,
    places: &[(i64, &Value)],
) -> Result<Sequence, ApplyError>
    ensures { Gives (λ all. listed all.items) result
        (meant.with_items (map indexed_view places.now) (listed items.items)) }
{
    let mut items = items;
    for (index, value) in places {
        items = put_at(alloc, items, *index, value)?;
    }
    Ok(items)
}

// The index as a place from 0 to the count.
fn place_within(index: i64, count: usize) -> Option<usize>
    ensures place { result ≡ meant.place_within index count }
    ensures bound { IfSome result (λ place. place ≤ count) }
{
    if index < 0 {
        return None;
    }
    let place = index as usize;
    if place <= count { Some(place) } else { None }
}

fn put_at(alloc: Global, items: Sequence, index: i64, value: &Value) -> Result<Sequence, ApplyError>
    ensures { Gives (λ put. listed put.items) result
        (meant.put_at (meant.place_within index (length (listed items.items))) (view value.now)
        (listed items.items)) }
{
    match place_within(index, items.len()) {
        Some(place) => Ok(items.with_item(alloc, place, copy(value)?)?),
        None => Err(ApplyError::Fault(out_of_bounds(alloc)?)),
    }
}
