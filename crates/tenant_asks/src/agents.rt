// What a form asks of agents.
ghost use Rattle.std.specs.Prelude.{◌≡◌, length, unwrap_or, IfOk, OnOk, OnErr};
ghost use Rattle.value_data.specs.Datum.{nil, agent};
ghost use Rattle.value_data.specs.Inside.View.{view};
ghost use Rattle.repl_asks.specs.Exchange as told;
ghost use Rattle.private_cells.specs.Agents.{agent_state, agent_fault, with_agent, with_restart};
ghost use Rattle.private_cells.specs.Inside.View.{agents_view};
ghost use Rattle.server_rules.specs.Cells.{fault_or_nil, restart_permission, await_permission};
ghost use Rattle.tenant_parts.specs.AnswerCopies.{copies_view, AreAllSame};

use private_cells::{Agents, Await};
use repl_asks::{Answer, Permission};
use repl_values::{Rule, Value, broken_rule, copy};
use std::alloc::{AllocError, Global};
use tenant_parts::AnswerCopies;

/// The answer is the agent.
pub(crate) fn make(agents: &mut Agents, state: &Value) -> Result<AnswerCopies, AllocError>
    ensures answered { IfOk result (λ it. copies_view it
        ≡ told.value (agent (length (agents_view agents.old).agents))) }
    ensures made { OnOk result (agents_view agents.new
        ≡ with_agent (view state.now) (agents_view agents.old)) }
    ensures stays { OnErr result (agents_view agents.new ≡ agents_view agents.old) }
    ensures copies { IfOk result AreAllSame }
{
    let number = agents.make(copy(state)?)?;
    Ok(AnswerCopies::of_agent(number))
}

/// It fails only where 2^63 owners share a part of the state.
pub(crate) fn read(agents: &Agents, number: u64) -> Result<AnswerCopies, AllocError>
    ensures answered { IfOk result (λ it. copies_view it
        ≡ told.value (unwrap_or (agent_state number (agents_view agents.now)) nil)) }
    ensures copies { IfOk result AreAllSame }
{
    match agents.read(number) {
        Some(state) => AnswerCopies::of(Answer::Value(copy(state)?)),
        None => AnswerCopies::of(Answer::Value(Value::Nil)),
    }
}

/// What the agent failed with, or nil. It fails only where 2^63 owners share a part of the fault.
pub(crate) fn fault(agents: &Agents, number: u64) -> Result<AnswerCopies, AllocError>
    ensures answered { IfOk result (λ it. copies_view it
        ≡ told.value (fault_or_nil (agent_fault number (agents_view agents.now)))) }
    ensures copies { IfOk result AreAllSame }
{
    match agents.fault(number) {
        Some(fault) => AnswerCopies::of(Answer::Value(fault.copy()?.into_value())),
        None => AnswerCopies::of(Answer::Value(Value::Nil)),
    }
}

/// Only an agent that is failed is restarted. It fails only for want of memory.
pub(crate) fn restart(
    alloc: Global,
    agents: &mut Agents,
    number: u64,
    state: &Value,
) -> Result<AnswerCopies, AllocError>
    ensures answered { IfOk result (λ it. copies_view it
        ≡ told.permission (restart_permission number (agents_view agents.old))) }
    ensures restarted { OnOk result (agents_view agents.new
        ≡ with_restart number (view state.now) (agents_view agents.old)) }
    ensures stays { OnErr result (agents_view agents.new ≡ agents_view agents.old) }
    ensures copies { IfOk result AreAllSame }
{
    let answer = match agents.fault(number) {
        Some(_) => AnswerCopies::granted(),
        None => {
            let fault = broken_rule(alloc, Rule::AgentHasFailed)?;
            AnswerCopies::of(Answer::Permission(Permission::Denied(fault)))?
        }
    };
    agents.restart(number, copy(state)?);
    Ok(answer)
}

/// An agent that is failed is not awaited. It fails only for want of memory.
pub(crate) fn awaited(
    alloc: Global,
    agents: &Agents,
    numbers: &[u64],
) -> Result<AnswerCopies, AllocError>
    ensures answered { IfOk result (λ it. copies_view it
        ≡ told.permission (await_permission numbers.now (agents_view agents.now))) }
    ensures copies { IfOk result AreAllSame }
{
    match agents.await_met(numbers, None) {
        Await::Failed => {
            let fault = broken_rule(alloc, Rule::AgentHasNotFailed)?;
            AnswerCopies::of(Answer::Permission(Permission::Denied(fault)))
        }
        Await::Met | Await::Waits => Ok(AnswerCopies::granted()),
    }
}
