// Maps made of keys and values, and taken apart into them.
#![tactic(auto, using(crate::proofs::MapValues::seen))]

ghost use Rattle.std.specs.Prelude.{◌≡◌, map, IfOk};
ghost use Rattle.value_data.specs.Listed.{listed};
ghost use Rattle.value_data.specs.Inside.View.{view};
ghost use Rattle.repl_values.specs.Inside.FaultView.{Gives};
ghost use Rattle.repl_values.specs.Making.{list_or_nil};
ghost use Rattle.core_collections.specs.MapArguments.{map_pairs_in};
ghost use Rattle.core_collections.specs.MapMeaning as meant;

use crate::arguments::by_turns;
use crate::map_function::MapFunction;
use repl_values::{ApplyError, Sequence, Table, Value, no_value_supplied, wrong_argument};
use std::alloc::{AllocError, Global};

#[tactic(auto, using(crate::proofs::MapValues::seen), unfolding(crate::specs::MapMeaning::hash_map))]
pub(crate) fn hash_map(alloc: Global, args: &[Value]) -> Result<Value, ApplyError>
    ensures { Gives view result (meant.hash_map (map view args.now)) }
{
    let turns = by_turns(alloc, args)?;
    match turns.left_alone {
        Some(key) => Err(ApplyError::Fault(no_value_supplied(alloc, key)?)),
        None => {
            let none = Table::empty(alloc)?;
            Ok(Value::Map(none.with_pairs(alloc, turns.pairs.as_slice())?))
        }
    }
}

// The map to put pairs into. Nil stands for an empty one.
pub(crate) fn table_of(alloc: Global, function: &str, argument: &Value) -> Result<Table, ApplyError>
    ensures { Gives (λ table. table.pairs) result (map_pairs_in function.now (view argument.now)) }
{
    match argument {
        Value::Nil => Ok(Table::empty(alloc)?),
        Value::Map(pairs) => Ok(pairs.copy()?),
        other => Err(ApplyError::Fault(wrong_argument(alloc, function, other)?)),
    }
}

#[tactic(auto, using(crate::proofs::MapValues::seen), unfolding(crate::specs::MapMeaning::keys))]
pub(crate) fn keys(alloc: Global, argument: &Value) -> Result<Value, ApplyError>
    ensures { Gives view result (meant.keys (view argument.now)) }
{
    match argument {
        Value::Nil => Ok(Value::Nil),
        Value::Map(pairs) => Ok(shared_list(pairs.keys())?),
        other => {
            let name = MapFunction::Keys.name();
            Err(ApplyError::Fault(wrong_argument(alloc, name, other)?))
        }
    }
}

#[tactic(auto, using(crate::proofs::MapValues::seen), unfolding(crate::specs::MapMeaning::vals))]
pub(crate) fn vals(alloc: Global, argument: &Value) -> Result<Value, ApplyError>
    ensures { Gives view result (meant.vals (view argument.now)) }
{
    match argument {
        Value::Nil => Ok(Value::Nil),
        Value::Map(pairs) => Ok(shared_list(pairs.values())?),
        other => {
            let name = MapFunction::Vals.name();
            Err(ApplyError::Fault(wrong_argument(alloc, name, other)?))
        }
    }
}

// The row as a list, or nil where it has no items. It takes one step and no memory.
fn shared_list(row: &Sequence) -> Result<Value, AllocError>
    ensures { IfOk result (λ made. view made ≡ list_or_nil (listed row.now.items)) }
{
    if row.is_empty() {
        return Ok(Value::Nil);
    }
    Ok(Value::List(row.copy()?))
}
