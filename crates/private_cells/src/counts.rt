// How many actions wait for each agent that came from each session.
ghost use Rattle.std.specs.Prelude.{◌≡◌, ℕ, ◌+◌, ◌-◌, ◌<◌, ◌≤◌, ◌^◌, OnOk, if◌then◌else◌};
ghost use Rattle.std.specs.HashMap.{spare};
ghost use Rattle.private_cells.specs.Inside.Sender.{same_sender};

use std::alloc::{AllocError, Global};
use std::collections::HashMap;

// An agent, and the session from which something was sent to it.
#[derive(Clone, Copy, Debug, PartialEq, Eq, Hash)]
pub(crate) struct AgentSender {
    pub(crate) agent: u64,
    pub(crate) session: Option<u64>,
}

#[derive(Drop)]
pub(crate) struct Counts {
    pub(crate) counts: HashMap<AgentSender, u64>,
}

impl Counts {
    ghost use Rattle.private_cells.specs.Inside.Counted.{count_of};

    pub(crate) fn new(alloc: Global) -> Counts
        ensures { (q : AgentSender) → count_of result q ≡ 0 }
    {
        Counts {
            counts: HashMap::new(alloc),
        }
    }

    // Makes room for so many senders more.
    pub(crate) fn reserve(&mut self, more: usize) -> Result<(), AllocError>
        ensures room { OnOk result (more ≤ spare self.new.counts) }
        ensures grows { spare self.old.counts ≤ spare self.new.counts }
        ensures same { (q : AgentSender) → count_of self.new q ≡ count_of self.old q }
    {
        self.counts.reserve(more)
    }

    pub(crate) fn count(&self, sender: AgentSender) -> u64
        ensures { result ≡ count_of self.now sender }
    {
        match self.counts.get(&sender) {
            Some(count) => *count,
            None => 0,
        }
    }

    // One more waits.
    pub(crate) fn add(&mut self, sender: AgentSender)
        requires room { 0 < spare self.old.counts }
        requires fits { count_of self.old sender + 1 < 2 ^ 64 }
        ensures added { (q : AgentSender) → count_of self.new q
            ≡ (if same_sender sender q then count_of self.old q + 1 else count_of self.old q) }
        ensures room { spare self.old.counts ≤ spare self.new.counts + 1 }
    {
        let count = self.count(sender);
        let Ok(_) = self.counts.insert(sender, count + 1) else {
            unreachable!();
        };
    }

    // One of those that wait does so no more.
    pub(crate) fn remove(&mut self, sender: AgentSender)
        requires { 0 < count_of self.old sender }
        ensures removed { (q : AgentSender) → count_of self.new q
            ≡ (if same_sender sender q then count_of self.old q - 1 else count_of self.old q) }
        ensures room { spare self.old.counts ≤ spare self.new.counts }
    {
        let count = self.count(sender);
        if count == 1 {
            self.counts.remove(&sender);
            return;
        }
        if let Some(place) = self.counts.get_mut(&sender) {
            *place = count - 1;
        }
    }
}
