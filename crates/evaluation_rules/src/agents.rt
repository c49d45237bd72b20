// Calls of the functions of agents.
ghost use Rattle.std.specs.Prelude.{◌≡◌};
ghost use Rattle.value_data.specs.Inside.View.{view, views};
ghost use Rattle.repl_values.specs.Inside.FaultView.{Gives};
ghost use Rattle.evaluation_rules.specs.Calling as meant;
ghost use Rattle.evaluation_rules.specs.Inside.View.{call_view};

use crate::arguments::agent_of;
use crate::outcome::Call;
use crate::rules::keep_to;
use crate::sending::Dispatch;
use core_functions::StoreFunction;
use repl_asks::Ask;
use repl_values::{ApplyError, Rule, Value, copy, wrong_argument};
use std::alloc::Global;
use std::sync::Arc;

// `(agent state)`
pub(crate) fn agent_call(state: Value) -> Result<Call, ApplyError>
    ensures { Gives call_view result (meant.agent_call (view state)) }
{
    Ok(Call::AsksValue(Ask::NewAgent(state)))
}

// `(agent-error agent)`
pub(crate) fn agent_error_call(alloc: Global, target: &Value) -> Result<Call, ApplyError>
    ensures { Gives call_view result (meant.agent_error_call (view target.now)) }
{
    let number = agent_of(alloc, StoreFunction::AgentError, target)?;
    Ok(Call::AsksValue(Ask::AgentFault(number)))
}

// `(restart-agent agent state)`
pub(crate) fn restart_agent_call(
    alloc: Global,
    state: Value,
    target: &Value,
) -> Result<Call, ApplyError>
    ensures { Gives call_view result
        (meant.restart_agent_call (view target.now) (view state)) }
{
    let number = agent_of(alloc, StoreFunction::RestartAgent, target)?;
    let value = copy(&state)?;
    Ok(Call::AsksPermission(Ask::RestartAgent { number, state }, value))
}

// `(send agent value ..)` or `(send-off agent value ..)`, where no function stands: one of the two
// is a wrong argument.
pub(crate) fn send_by_value(
    alloc: Global,
    by: Dispatch,
    target: &Value,
    function: &Value,
) -> Result<Call, ApplyError>
    ensures { Gives call_view result
        (meant.send_by_value by (view target.now) (view function.now)) }
{
    let _number = agent_of(alloc, by.function(), target)?;
    let name = by.function().name();
    Err(ApplyError::Fault(wrong_argument(alloc, name, function)?))
}

// `(await agent ..)`
pub(crate) fn await_call(
    alloc: Global,
    in_transaction: bool,
    targets: &[Value],
) -> Result<Call, ApplyError>
    ensures { Gives call_view result (meant.await_call in_transaction (views targets.now)) }
{
    let numbers = agents_of(alloc, targets)?;
    keep_to(alloc, Rule::NoAwaitInTransaction, !in_transaction)?;
    let ask = Ask::Await(Arc::new(alloc, numbers)?);
    Ok(Call::AsksPermission(ask, Value::Nil))
}

// The numbers of the agents, or the fault of the first that is none.
fn agents_of(alloc: Global, targets: &[Value]) -> Result<Vec<u64>, ApplyError>
    ensures { Gives (λ v. v.items) result (meant.agents_in (views targets.now)) }
{
    let mut numbers = Vec::with_capacity(alloc, targets.len())?;
    for target in targets {
        numbers.push(agent_of(alloc, StoreFunction::Await, target)?)?;
    }
    Ok(numbers)
}
