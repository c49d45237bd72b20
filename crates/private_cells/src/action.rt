// What is sent to an agent.
use repl_asks::Task;
use repl_replies::Origin;
use std::sync::Arc;

/// A task that was sent to an agent. The value of its function is the next state.
#[derive(Drop)]
pub struct Action {
    pub task: Arc<Task>,
    /// What the replies to the request carry from which it came.
    pub origin: Arc<Origin>,
    /// The number of the session of that request, or none where it was bare.
    pub session: Option<u64>,
}

/// An action that was sent, with the number of its sending.
#[derive(Drop)]
pub struct Sent {
    pub number: u128,
    pub action: Action,
}
