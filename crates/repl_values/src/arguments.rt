// Arguments of one kind, and an item by its index.
#![tactic(auto, using(crate::proofs::Values::seen))]

ghost use Rattle.std.specs.Prelude.{◌≡◌, option_map};
ghost use Rattle.value_data.specs.Listed.{listed};
ghost use Rattle.value_data.specs.Inside.View.{view};
ghost use Rattle.repl_values.specs.Inside.FaultView.{Gives};
ghost use Rattle.repl_values.specs.Items.{row_in};
ghost use Rattle.repl_values.specs.Arguments as meant;
ghost use Rattle.repl_values.specs.Inside.Rows.{listed_in};

use crate::error::ApplyError;
use crate::faults::wrong_argument;
use std::alloc::Global;
use value_data::{Sequence, Value};

/// The integer that an argument of the function of this name is.
pub fn integer_of(alloc: Global, function: &str, argument: &Value) -> Result<i64, ApplyError>
    ensures { Gives (λ n. n) result (meant.integer_in function.now (view argument.now)) }
{
    match argument {
        Value::Int(n) => Ok(*n),
        other => Err(ApplyError::Fault(wrong_argument(alloc, function, other)?)),
    }
}

/// The items of an argument that is reached by index: a list, a vector or nil, which has none.
pub fn row_of<'a>(
    alloc: Global,
    function: &str,
    argument: &'a Value,
) -> Result<Option<&'a Sequence>, ApplyError>
    ensures { Gives listed_in result (row_in function.now (view argument.now)) }
{
    match argument {
        Value::Nil => Ok(None),
        Value::List(items) => Ok(Some(items)),
        Value::Vector(items) => Ok(Some(items)),
        other => Err(ApplyError::Fault(wrong_argument(alloc, function, other)?)),
    }
}

/// The item at an index from 0 to below the count. It takes no memory.
pub fn at_index(items: &Sequence, index: i64) -> Option<&Value>
    ensures { option_map (λ v. view v.now) result ≡ meant.at_index index (listed items.now.items) }
{
    if index < 0 {
        return None;
    }
    items.get(index as usize)
}
