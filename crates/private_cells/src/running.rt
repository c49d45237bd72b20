// Actions run, one at a time, and end.
ghost use Rattle.std.specs.Prelude.{◌≡◌, ◌≤◌, option_map};
ghost use Rattle.value_data.specs.Inside.View.{view};
ghost use Rattle.repl_values.specs.Inside.FaultView.{failure_of};
ghost use Rattle.private_cells.specs.Agents.{next_turn, with_next_begun, with_result, with_failure};
ghost use Rattle.private_cells.specs.Agents.{is_failed, with_restart, first_waiting, agent_running};
ghost use Rattle.private_cells.specs.Inside.Seen.{sent_view};
ghost use Rattle.private_cells.specs.Inside.View.{agents_view, room_of};

use crate::action::Sent;
use crate::agents::Agents;
use crate::counts::AgentSender;
use crate::listed::{begin_at, fail_at, finish_at, restart_at};
use repl_values::{Fault, Value};

impl Agents {
    /// The first action that waits for the agent of this number.
    pub fn first_waiting(&self, number: u64) -> Option<&Sent>
        ensures { option_map (λ x. sent_view x.now) result
            ≡ first_waiting number (agents_view self.now) }
    {
        let cell = self.cells.get(number as usize)?;
        cell.waiting.front()
    }

    /// The action that the agent of this number runs.
    pub fn running(&self, number: u64) -> Option<&Sent>
        ensures { option_map (λ x. sent_view x.now) result
            ≡ agent_running number (agents_view self.now) }
    {
        let cell = self.cells.get(number as usize)?;
        cell.running.as_ref()
    }

    /// The agent whose first action is the next to run. There is none while an action runs. It
    /// takes constant time.
    pub fn next_agent(&self) -> Option<u64>
        ensures { result ≡ option_map (λ turn. turn.agent) (next_turn (agents_view self.now)) }
    {
        if self.running.is_some() {
            return None;
        }
        let Some(turn) = self.turns.first() else {
            return None;
        };
        Some(turn.1)
    }

    /// The next action runs, if there is one. The number of its agent is answered. It takes no
    /// memory, and about the logarithm of the number of agents.
    pub fn take_ready(&mut self) -> Option<u64>
        ensures told { result
            ≡ option_map (λ turn. turn.agent) (next_turn (agents_view self.old)) }
        ensures begun { agents_view self.new ≡ with_next_begun (agents_view self.old) }
        ensures room { room_of self.old ≤ room_of self.new }
    {
        if self.running.is_some() {
            return None;
        }
        let Some(turn) = self.turns.pop() else {
            return None;
        };
        let (first, number) = turn;
        let Some(session) = begin_at(&mut self.cells, number, first) else {
            unreachable!();
        };
        self.counts.remove(AgentSender {
            agent: number,
            session,
        });
        self.running = Some(number);
        Some(number)
    }

    /// The action that runs, if there is one, ended with this value: it is the agent's state. It
    /// takes no memory, and about the logarithm of the number of agents.
    pub fn finish(&mut self, value: Value)
        ensures finished { agents_view self.new ≡ with_result (view value) (agents_view self.old) }
        ensures room { room_of self.old ≤ room_of self.new }
    {
        let Some(number) = self.running else {
            drop(value);
            return;
        };
        self.running = None;
        let first = finish_at(&mut self.cells, number, value);
        self.turns.open(first, number);
    }

    /// The action that runs, if there is one, ended with this fault, and its agent is failed. What
    /// waits for the agent goes on waiting. It takes constant time and no memory.
    pub fn fail(&mut self, fault: Fault)
        ensures failed { agents_view self.new
            ≡ with_failure (failure_of fault) (agents_view self.old) }
        ensures room { room_of self.old ≤ room_of self.new }
    {
        let Some(number) = self.running else {
            drop(fault);
            return;
        };
        self.running = None;
        fail_at(&mut self.cells, number, fault);
    }

    /// The agent of this number, if it is failed, goes on with this state and with what waits for
    /// it; tells whether it was failed. It takes no memory, and about the logarithm of the number
    /// of agents.
    pub fn restart(&mut self, number: u64, state: Value) -> bool
        ensures told { result ≡ is_failed number (agents_view self.old) }
        ensures restarted { agents_view self.new
            ≡ with_restart number (view state) (agents_view self.old) }
        ensures room { room_of self.old ≤ room_of self.new }
    {
        let was_failed = self.fault(number).is_some();
        let first = restart_at(&mut self.cells, number, state);
        self.turns.open(first, number);
        was_failed
    }
}
