// The agent of `send` or `send-off`.
ghost use Rattle.std.specs.Prelude.{◌≡◌, IfOk};
ghost use Rattle.value_data.specs.Inside.View.{view};
ghost use Rattle.evaluation_rules.specs.Arguments.{agent_in};
ghost use Rattle.evaluation_rules.specs.Calling.{dispatching};
ghost use Rattle.evaluation_rules.specs.Inside.View.{addressed_view};

use crate::arguments::agent_of;
use crate::outcome::Addressed;
use core_functions::StoreFunction;
use repl_values::{ApplyError, Value};
use std::alloc::{AllocError, Global};

/// By which name something is sent to an agent. Actions of a tenant run one after another, so both
/// do the same.
#[derive(Clone, Copy, Debug, PartialEq, Eq)]
pub enum Dispatch {
    Send,
    SendOff,
}

impl Dispatch {
    /// What it is named by.
    pub fn function(self) -> StoreFunction
        ensures { result ≡ dispatching self }
    {
        match self {
            Dispatch::Send => StoreFunction::Send,
            Dispatch::SendOff => StoreFunction::SendOff,
        }
    }
}

/// The agent of `(send agent function argument ..)`, or of `send-off` likewise, whose first argument
/// is this value. What is no agent is refused. It fails only for want of memory.
pub fn agent_to_send(alloc: Global, by: Dispatch, value: &Value) -> Result<Addressed, AllocError>
    ensures { IfOk result (λ addressed. addressed_view addressed
        ≡ agent_in (dispatching by) (view value.now)) }
{
    match agent_of(alloc, by.function(), value) {
        Ok(number) => Ok(Addressed::Agent(number)),
        Err(ApplyError::Fault(fault)) => Ok(Addressed::Refused(fault)),
        Err(ApplyError::NoMemory) => Err(AllocError),
    }
}
