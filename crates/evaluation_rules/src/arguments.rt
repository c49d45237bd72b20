// Arguments by their kinds. Each is refused by the function of the call.
#![tactic(auto, using(value_data::proofs::Views::value_views))]

ghost use Rattle.std.specs.Prelude.{◌≡◌, IfOk};
ghost use Rattle.value_data.specs.Inside.View.{view};
ghost use Rattle.repl_asks.specs.Inside.View.{name_view};
ghost use Rattle.repl_values.specs.Failure as faults;
ghost use Rattle.repl_values.specs.Inside.FaultView.{Gives, failure_of};
ghost use Rattle.core_functions.specs.StoreNames.{store_name_of};
ghost use Rattle.evaluation_rules.specs.Arguments as meant;

use core_functions::StoreFunction;
use repl_values::{ApplyError, Fault, RefName, Value, wrong_argument};
use std::alloc::{AllocError, Global};

pub(crate) fn ref_of(
    alloc: Global,
    function: StoreFunction,
    argument: &Value,
) -> Result<RefName, ApplyError>
    ensures { Gives name_view result (meant.ref_in function (view argument.now)) }
{
    match argument {
        Value::Ref(name) => Ok(*name),
        other => Err(ApplyError::Fault(not_taken(alloc, function, other)?)),
    }
}

// The number of an atom.
pub(crate) fn atom_of(
    alloc: Global,
    function: StoreFunction,
    argument: &Value,
) -> Result<u64, ApplyError>
    ensures { Gives (λ n. n) result (meant.atom_in function (view argument.now)) }
{
    match argument {
        Value::Atom(number) => Ok(*number),
        other => Err(ApplyError::Fault(not_taken(alloc, function, other)?)),
    }
}

// The number of an agent.
pub(crate) fn agent_of(
    alloc: Global,
    function: StoreFunction,
    argument: &Value,
) -> Result<u64, ApplyError>
    ensures { Gives (λ n. n) result (meant.agent_in function (view argument.now)) }
{
    match argument {
        Value::Agent(number) => Ok(*number),
        other => Err(ApplyError::Fault(not_taken(alloc, function, other)?)),
    }
}

// A whole number from 0.
pub(crate) fn count_of(
    alloc: Global,
    function: StoreFunction,
    argument: &Value,
) -> Result<u64, ApplyError>
    ensures { Gives (λ n. n) result (meant.count_in function (view argument.now)) }
{
    match count(argument) {
        Some(count) => Ok(count),
        None => Err(ApplyError::Fault(not_taken(alloc, function, argument)?)),
    }
}

fn count(argument: &Value) -> Option<u64>
    ensures { result ≡ meant.as_count (view argument.now) }
{
    match argument {
        Value::Int(number) => from_zero(*number),
        _other => None,
    }
}

fn from_zero(number: i64) -> Option<u64>
    ensures { result ≡ meant.from_zero number }
{
    if number < 0 {
        return None;
    }
    Some(number as u64)
}

// The fault of an argument of a kind that the function does not take.
fn not_taken(alloc: Global, function: StoreFunction, argument: &Value) -> Result<Fault, AllocError>
    ensures { IfOk result (λ f. failure_of f
        ≡ faults.wrong_argument (store_name_of function) (view argument.now)) }
{
    wrong_argument(alloc, function.name(), argument)
}
