// The agents of a tenant.
ghost use Rattle.std.specs.Prelude.{◌≡◌, ℕ, ◌+◌, ◌<◌, ◌≤◌, ◌^◌, length};
ghost use Rattle.std.specs.BinaryHeap.{heap_items, heap_capacity};
ghost use Rattle.private_cells.specs.declared.counts.AgentSender.{AgentSender};
ghost use Rattle.private_cells.specs.Inside.Seen.{cells_view};
ghost use Rattle.private_cells.specs.Inside.Counted.{count_of};
ghost use Rattle.private_cells.specs.Inside.Turns.{HasTurns};
ghost use Rattle.private_cells.specs.Inside.Kept.{waiting_at, count_from, RunsAlone, AreShort};

use crate::cells::Cell;
use crate::counts::Counts;
use crate::spare::Spare;
use crate::turns::Turns;
use paged_list::PagedRow;
use repl_values::{Fault, Value};
use std::alloc::{AllocError, Global};

/// The agents of one tenant, numbered from 0 in the order of their making. None is ever removed.
///
/// Sending takes no memory: `reserve` makes room before it, for whichever agents. The next action
/// is found in about the logarithm of the number of agents, and an await looks once at each agent
/// that it names.
#[derive(Drop)]
pub struct Agents {
    pub(crate) alloc: Global,
    pub(crate) cells: PagedRow<Cell>,
    // the agents that may begin an action, but for the one that runs one
    pub(crate) turns: Turns,
    // what waits for each agent, by the session that sent it
    pub(crate) counts: Counts,
    pub(crate) spare: Spare,
    // the agent whose action runs
    pub(crate) running: Option<u64>,
    pub(crate) sent: u128,
    ghost turns_kept: { HasTurns (heap_items turns.heap) (cells_view cells.items) },
    ghost turns_fit: { length cells.items ≤ heap_capacity turns.heap },
    ghost counted: { (q : AgentSender) → count_of counts q
        ≡ count_from q.session (waiting_at q.agent (cells_view cells.items)) },
    ghost alone: { RunsAlone running (cells_view cells.items) },
    ghost short: { AreShort sent (cells_view cells.items) },
    ghost fits: { sent + length spare.nodes < 2 ^ 63 },
}

impl Agents {
    ghost use Rattle.std.specs.Prelude.{◌≡◌, ◌≤◌, length, option_map, IfOk, OnOk, OnErr};
    ghost use Rattle.value_data.specs.Inside.View.{view};
    ghost use Rattle.repl_values.specs.Inside.FaultView.{failure_of};
    ghost use Rattle.private_cells.specs.Agents.{no_agents, with_agent, agent_state, agent_fault};
    ghost use Rattle.private_cells.specs.Agents.{may_send};
    ghost use Rattle.private_cells.specs.Inside.View.{agents_view, room_of};

    /// No agents. It takes no memory.
    pub fn new(alloc: Global) -> Agents
        ensures { agents_view result ≡ no_agents }
    {
        Agents {
            alloc,
            cells: PagedRow::new(alloc),
            turns: Turns::new(alloc),
            counts: Counts::new(alloc),
            spare: Spare::new(alloc),
            running: None,
            sent: 0,
        }
    }

    /// Makes an agent with this state, and answers its number. It fails only for want of memory.
    pub fn make(&mut self, state: Value) -> Result<u64, AllocError>
        ensures number { IfOk result (λ number. number ≡ length (agents_view self.old).agents) }
        ensures made { OnOk result (agents_view self.new
            ≡ with_agent (view state) (agents_view self.old)) }
        ensures stays { OnErr result (agents_view self.new ≡ agents_view self.old) }
        ensures room { room_of self.old ≤ room_of self.new }
    {
        let number = self.cells.len();
        self.cells.reserve(1)?;
        self.turns.reserve(number + 1)?;
        self.cells.put(Cell::new(self.alloc, state));
        Ok(number as u64)
    }

    /// The state of an agent, if there is one of this number.
    pub fn read(&self, number: u64) -> Option<&Value>
        ensures { option_map (λ v. view v.now) result ≡ agent_state number (agents_view self.now) }
    {
        let cell = self.cells.get(number as usize)?;
        Some(&cell.state)
    }

    /// What an agent failed with, if there is one of this number and it is failed.
    pub fn fault(&self, number: u64) -> Option<&Fault>
        ensures { option_map (λ f. failure_of f.now) result
            ≡ agent_fault number (agents_view self.now) }
    {
        let cell = self.cells.get(number as usize)?;
        cell.fault.as_ref()
    }

    /// Whether something may be sent to the agent of this number: it is there, and not failed.
    pub fn may_send(&self, number: u64) -> bool
        ensures { result ≡ may_send number (agents_view self.now) }
    {
        match self.cells.get(number as usize) {
            Some(cell) => cell.fault.is_none(),
            None => false,
        }
    }

    /// Makes room for so many sends, to whichever agents. Its time is linear. It fails for
    /// want of memory, or behind 2^63 sends.
    pub fn reserve(&mut self, sends: usize) -> Result<(), AllocError>
        ensures room { OnOk result (sends ≤ room_of self.new) }
        ensures same { agents_view self.new ≡ agents_view self.old }
        ensures grows { room_of self.old ≤ room_of self.new }
    {
        self.counts.reserve(sends)?;
        self.spare.reserve(sends, self.sent)
    }
}
