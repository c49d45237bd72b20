// What is called before each ask.
use repl_asks::Ask;
use server_rules::Actor;

/// Is called before each ask by the thread that evaluates, while it holds no lock. So a gate sees
/// how evaluations overlap, and may hold one back.
pub trait Gate {
    fn pass(&self, tenant: u64, actor: Actor, ask: &Ask);

    /// Whether a pass may take long. Then who is to pass does not read from the peer meanwhile.
    fn may_hold(&self) -> bool {
        true
    }
}

/// Lets everything pass.
#[derive(Clone, Copy, Debug, Drop)]
pub struct OpenGate;

impl Gate for OpenGate {
    fn pass(&self, _tenant: u64, _actor: Actor, _ask: &Ask) {}

    fn may_hold(&self) -> bool {
        false
    }
}
