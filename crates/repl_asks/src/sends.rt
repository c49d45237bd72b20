// What is sent to agents.
ghost use Rattle.std.specs.Prelude.{◌≡◌, IfOk};
ghost use Rattle.repl_asks.specs.Inside.View.{sending_view};

use crate::answer::NamedFunction;
use repl_values::Value;
use std::alloc::AllocError;
use std::sync::Arc;

/// A function that is applied to the state of an agent.
#[derive(Debug)]
pub struct Task {
    /// As its symbol was resolved when it was sent.
    pub function: NamedFunction,
    /// Those behind the state.
    pub arguments: Vec<Value>,
}

impl Drop for Task {
    fn drop(self) {
        let Task {
            function: _function,
            arguments: _arguments,
        } = self;
    }
}

/// What is sent to the agent with this number.
#[derive(Debug)]
pub struct Sending {
    pub agent: u64,
    pub task: Arc<Task>,
}

impl Drop for Sending {
    fn drop(self) {
        let Sending {
            agent: _agent,
            task: _task,
        } = self;
    }
}

impl Sending {
    /// The same once more. It takes one step, and fails only where 2^63 owners share the task.
    pub fn copy(&self) -> Result<Sending, AllocError>
        ensures { IfOk result (λ copied. sending_view copied ≡ sending_view self.now) }
    {
        Ok(Sending {
            agent: self.agent,
            task: Arc::try_clone(&self.task)?,
        })
    }
}
