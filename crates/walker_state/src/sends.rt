// `send` and `send-off`: their call, up to the ask whether it may be sent, and what becomes of the
// answer. Their function is called later, in an action.
#![tactic(auto, using(crate::proofs::Stepping::steps))]

ghost use Rattle.std.specs.Prelude.{◌≡◌, ◌<◌, IfOk};
ghost use Rattle.repl_asks.specs.Inside.View.{ask_view, named_view, permission_view, sending_view};
ghost use Rattle.value_data.specs.Inside.View.{views};
ghost use Rattle.evaluation_rules.specs.Agents.{permitted_send, send_ask, send_call};
ghost use Rattle.walker_state.specs.UnderWay.{is_running};
ghost use Rattle.walker_state.specs.Pending.{from_state, tree};
ghost use Rattle.walker_state.specs.Position.{IsLater, LeadsOnWithin, control_position};
ghost use Rattle.walker_state.specs.Position.{wanted_position};
ghost use Rattle.walker_state.specs.declared.frames.Wanted.{Wanted};

use crate::frames::{Control, State, Wanted};
use crate::refs::note_sent;
use evaluation_rules::{Addressed, Dispatch, Occasion, agent_to_send};
use repl_asks::{Ask, NamedFunction, Permission, Sending, Task};
use repl_values::{Value, wrong_arity};
use std::alloc::{AllocError, Global};
use std::sync::Arc;

/// A call of `send` or `send-off` with this function: it is asked whether the function may be sent
/// to the agent, with the other arguments. It fails only for want of memory.
pub fn call_send(
    alloc: Global,
    state: &State,
    by: Dispatch,
    function: NamedFunction,
    values: Vec<Value>,
) -> Result<Control, AllocError>
    ensures on { IfOk result (LeadsOnWithin 3 state.now state.now) }
    ensures meaning { IfOk result (λ control. tree control state.now
        ≡ from_state (send_call by (named_view function) (views values.items)) state.now) }
{
    let mut values = values;
    if values.is_empty() {
        let fault = wrong_arity(alloc, by.function().name(), 1)?;
        return Ok(Control::Fault(fault));
    }
    let target = values.remove(0);
    match agent_to_send(alloc, by, &target)? {
        Addressed::Refused(fault) => Ok(Control::Fault(fault)),
        Addressed::Agent(agent) => {
            let task = Task {
                function,
                arguments: values,
            };
            let task = Arc::new(alloc, task)?;
            let sending = Sending { agent, task };
            let wanted = Wanted::Sending(sending.copy()?);
            Ok(Control::Ask(ask_to_send(state, sending), wanted))
        }
    }
}

// Within a transaction or an action what is sent is held.
fn ask_to_send(state: &State, sending: Sending) -> Ask
    ensures { ask_view result ≡ send_ask (is_running state.now.transaction)
        state.now.setting.occasion (sending_view sending) }
{
    if state.transaction.is_some() {
        return Ask::MaySend(sending);
    }
    match state.setting.occasion {
        Occasion::Action => Ask::MaySend(sending),
        Occasion::Form | Occasion::SharedText => Ask::Send(sending),
    }
}

/// What was permitted is noted, if an attempt runs, and the value is the agent; else the fault for
/// which it was denied. It fails only for want of memory.
pub fn settle_send(
    state: &mut State,
    sending: Sending,
    permission: Permission,
) -> Result<Control, AllocError>
    ensures later { IfOk result (λ control. IsLater (control_position control state.new)
        (wanted_position (Wanted.Sending sending) state.old)) }
    ensures meaning { IfOk result (λ control. tree control state.new
        ≡ from_state (permitted_send (sending_view sending) (permission_view permission))
        state.old) }
{
    match permission {
        Permission::Denied(fault) => Ok(Control::Fault(fault)),
        Permission::Granted => {
            let agent = sending.agent;
            note_sent(state, sending)?;
            Ok(Control::Return(Value::Agent(agent)))
        }
    }
}
