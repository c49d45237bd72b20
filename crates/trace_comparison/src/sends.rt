// When the same is sent to agents.
#![tactic(auto, using(crate::proofs::Matching::place_steps))]

ghost use Rattle.std.specs.Prelude.{◌≡◌, ◌↔◌, IsTrue, map};
ghost use Rattle.repl_asks.specs.Inside.View.{sending_view, task_view};

use crate::answers::same_named_function;
use crate::intents::same_arguments;
use repl_asks::{Sending, Task};

/// Whether the same function is applied to the states of agents, with the same arguments.
pub fn same_task(left: &Task, right: &Task) -> bool
    ensures { IsTrue result ↔ (task_view left.now ≡ task_view right.now) }
{
    same_named_function(&left.function, &right.function)
        && same_arguments(left.arguments.as_slice(), right.arguments.as_slice())
}

/// Whether the same is sent to the same agent.
pub fn same_sending(left: &Sending, right: &Sending) -> bool
    ensures { IsTrue result ↔ (sending_view left.now ≡ sending_view right.now) }
{
    left.agent == right.agent && same_task(&left.task, &right.task)
}

// Whether the same is sent to the same agents, in order.
pub(crate) fn same_sends(left: &[Sending], right: &[Sending]) -> bool
    ensures { IsTrue result ↔ (map sending_view left.now ≡ map sending_view right.now) }
{
    if left.len() != right.len() {
        return false;
    }
    for (place, sending) in left.iter().enumerate() {
        if !same_sending(sending, &right[place]) {
            return false;
        }
    }
    true
}
