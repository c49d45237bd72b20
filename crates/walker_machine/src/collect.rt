// Vectors and maps of values that were evaluated.
#![tactic(auto, using(walker_state::proofs::Stepping::steps))]

ghost use Rattle.std.specs.Prelude.{◌≡◌, ◌<◌, map, zip, IfOk};
ghost use Rattle.value_data.specs.Inside.View.{view, pair_view, views};
ghost use Rattle.walker_state.specs.Pending.{from_state, tree};
ghost use Rattle.walker_state.specs.Frames.{collection_value};
ghost use Rattle.walker_state.specs.declared.frames.State.{State};
ghost use Rattle.walker_state.specs.Position.{LeadsOnWithin};
ghost use Rattle.evaluation_rules.specs.Collections.{keys_in, map_value, values_in, within_limits};

use repl_values::{
    Built, MOST_NESTING, MOST_WEIGHT, Sequence, Table, Value, copy, duplicate_key, nesting,
    too_large, weight,
};
use std::alloc::{AllocError, Global};
use std::collections::VecDeque;
use walker_state::{Collection, Control};

// The collection, or the fault of a key that stands twice or of what is too large.
pub(crate) fn make_collection(
    alloc: Global,
    kind: Collection,
    values: Vec<Value>,
) -> Result<Control, AllocError>
    ensures on { IfOk result (λ control. (s : State) → LeadsOnWithin 2 s s control) }
    ensures meaning { IfOk result (λ control. (s : State)
        → tree control s ≡ from_state (collection_value kind (views values.items)) s) }
{
    match kind {
        Collection::Vector => {
            let items = Sequence::from_vec(alloc, values)?;
            within_limits(alloc, Value::Vector(items))
        }
        Collection::Map => map_of(alloc, values),
    }
}

#[tactic(auto, using(walker_state::proofs::Stepping::steps), unfolding(core_functions::specs::ApplyOutcome::limited_outcome))]
fn within_limits(alloc: Global, value: Value) -> Result<Control, AllocError>
    ensures on { IfOk result (λ control. (s : State) → LeadsOnWithin 2 s s control) }
    ensures meaning { IfOk result (λ control. (s : State)
        → tree control s ≡ from_state (within_limits (view value)) s) }
{
    if weight(&value) > MOST_WEIGHT || nesting(&value) > MOST_NESTING {
        return Ok(Control::Fault(too_large(alloc)?));
    }
    Ok(Control::Return(value))
}

// A map of its keys and values, which stand by turns.
fn map_of(alloc: Global, values: Vec<Value>) -> Result<Control, AllocError>
    ensures on { IfOk result (λ control. (s : State) → LeadsOnWithin 2 s s control) }
    ensures meaning { IfOk result (λ control. (s : State)
        → tree control s ≡ from_state (map_value (views values.items)) s) }
{
    let MapEntries { keys, pairs } = by_turns(alloc, values)?;
    match Table::from_pairs(alloc, pairs)? {
        Built::Made(pairs) => within_limits(alloc, Value::Map(pairs)),
        Built::Repeats(place) => Ok(Control::Fault(duplicate_key(alloc, &keys[place])?)),
    }
}

// The pairs of a map in order, and once more their keys, of which a fault may have to tell.
#[derive(Drop)]
struct MapEntries {
    keys: Vec<Value>,
    pairs: Vec<(Value, Value)>,
}

fn by_turns(alloc: Global, row: Vec<Value>) -> Result<MapEntries, AllocError>
    ensures keys { IfOk result (λ entries. views entries.keys.items ≡ keys_in (views row.items)) }
    ensures pairs { IfOk result (λ entries. map pair_view entries.pairs.items
        ≡ zip (keys_in (views row.items)) (values_in (views row.items))) }
{
    let mut row = VecDeque::from_vec(row);
    let mut keys = Vec::new(alloc);
    let mut pairs = Vec::new(alloc);
    while let Some(key) = row.pop_front() {
        let Some(value) = row.pop_front() else {
            return Ok(MapEntries { keys, pairs });
        };
        keys.push(copy(&key)?)?;
        pairs.push((key, value))?;
    }
    Ok(MapEntries { keys, pairs })
}
