// Calls in the text of the namespace that all tenants share, which makes refs and reads them.
ghost use Rattle.std.specs.Prelude.{◌≡◌, true, vec_len, IfOk};
ghost use Rattle.value_data.specs.Inside.View.{view, views};
ghost use Rattle.core_functions.specs.StoreNames.{store_fits};
ghost use Rattle.core_functions.specs.declared.store.StoreFunction.{StoreFunction};
ghost use Rattle.repl_values.specs.Inside.FaultView.{Gives};
ghost use Rattle.evaluation_rules.specs.Calling as meant;
ghost use Rattle.evaluation_rules.specs.Inside.View.{call_view};

use crate::applying::{deref_call, ref_call};
use crate::outcome::Call;
use crate::rules::keep_to;
use core_functions::StoreFunction;
use repl_values::{ApplyError, Rule, Value, broken_rule, is_plain, wrong_arity};
use std::alloc::{AllocError, Global};

/// What a call of the function with these values comes to in the text of the namespace that all
/// tenants share. The number of values is checked first. A ref is made of plain data, without
/// options, and its value is read; all else is refused, whatever the values are. It fails only for
/// want of memory.
#[tactic(auto, unfolding(crate::specs::Calling::shared_call_data_of))]
pub fn call_in_shared_text(
    alloc: Global,
    function: StoreFunction,
    values: Vec<Value>,
) -> Result<Call, AllocError>
    ensures { IfOk result (λ call. call_view call
        ≡ meant.shared_call_data_of function (views values.items)) }
{
    if !function.takes(values.len()) {
        let fault = wrong_arity(alloc, function.name(), values.len())?;
        return Ok(Call::Refused(fault));
    }
    match shared_call_with(alloc, function, values) {
        Ok(call) => Ok(call),
        Err(ApplyError::Fault(fault)) => Ok(Call::Refused(fault)),
        Err(ApplyError::NoMemory) => Err(AllocError),
    }
}

#[tactic(auto, using(crate::proofs::Taken::shared_calls))]
fn shared_call_with(
    alloc: Global,
    function: StoreFunction,
    values: Vec<Value>,
) -> Result<Call, ApplyError>
    requires { store_fits function (vec_len values) ≡ true }
    ensures { Gives call_view result (meant.shared_call_with function (views values.items)) }
{
    match function {
        StoreFunction::Ref => shared_ref_call(alloc, values),
        StoreFunction::Deref => deref_call(alloc, &values[0]),
        StoreFunction::RefSet
        | StoreFunction::Alter
        | StoreFunction::Commute
        | StoreFunction::Ensure
        | StoreFunction::HistoryCount
        | StoreFunction::MinHistory
        | StoreFunction::MaxHistory
        | StoreFunction::Atom
        | StoreFunction::Swap
        | StoreFunction::Reset
        | StoreFunction::CompareAndSet
        | StoreFunction::Agent
        | StoreFunction::AgentError
        | StoreFunction::RestartAgent
        | StoreFunction::Send
        | StoreFunction::SendOff
        | StoreFunction::Await => {
            Err(ApplyError::Fault(broken_rule(alloc, Rule::SharedTextDefinesAlone)?))
        }
    }
}

// `(ref value)`, with no options
#[tactic(auto, using(crate::proofs::Taken::shared_calls))]
fn shared_ref_call(alloc: Global, values: Vec<Value>) -> Result<Call, ApplyError>
    requires { store_fits StoreFunction.Ref (vec_len values) ≡ true }
    ensures { Gives call_view result
        (meant.shared_call_with StoreFunction.Ref (views values.items)) }
{
    if values.len() == 1 {
        let mut values = values;
        return plain_ref_call(alloc, values.remove(0));
    }
    Err(ApplyError::Fault(broken_rule(alloc, Rule::SharedTextDefinesAlone)?))
}

fn plain_ref_call(alloc: Global, value: Value) -> Result<Call, ApplyError>
    ensures { Gives call_view result (meant.plain_ref_call (view value)) }
{
    keep_to(alloc, Rule::SharedRefsArePlain, is_plain(&value))?;
    ref_call(alloc, value, &[])
}
