// The atoms and agents of a tenant, and what a form asks of them.
ghost use Rattle.std.specs.Prelude.{◌≡◌, true, is_some, map, IfOk, OnErr};
ghost use Rattle.std.specs.List.{list_all};
ghost use Rattle.private_cells.specs.Agents.{awaited};
ghost use Rattle.repl_asks.specs.Exchange.{done};
ghost use Rattle.repl_asks.specs.Inside.View.{ask_view, sending_view};
ghost use Rattle.server_rules.specs.Cells as meant;
ghost use Rattle.server_rules.specs.Cells.{cell_answer, cells_after};
ghost use Rattle.tenant_parts.specs.AnswerCopies.{copies_view, AreAllSame};
ghost use Rattle.tenant_asks.specs.Asking.{is_of_cells};
ghost use Rattle.tenant_asks.specs.Cells.{cells_data};
ghost use Rattle.tenant_asks.specs.Sends.{sender_view};

use crate::sends::Sender;
use crate::{agents, atoms, sends};
use private_cells::{Agents, Atoms, Await};
use repl_asks::{Ask, Sending};
use std::alloc::{AllocError, Global};
use tenant_parts::AnswerCopies;

/// The atoms and agents of a tenant.
#[derive(Drop)]
pub struct Cells {
    pub atoms: Atoms,
    pub agents: Agents,
}

impl Cells {
    pub(crate) fn has_atom(&self, number: u64) -> bool
        ensures { result ≡ meant.has_atom number (cells_data self.now) }
    {
        self.atoms.read(number).is_some()
    }

    pub(crate) fn has_agent(&self, number: u64) -> bool
        ensures { result ≡ meant.has_agent number (cells_data self.now) }
    {
        self.agents.read(number).is_some()
    }

    pub(crate) fn has_receivers(&self, sends: &[Sending]) -> bool
        ensures { result
            ≡ meant.has_receivers (map sending_view sends.now) (cells_data self.now) }
    {
        for sending in sends {
            if !self.has_agent(sending.agent) {
                return false;
            }
        }
        true
    }

    pub(crate) fn has_agents(&self, numbers: &[u64]) -> bool
        ensures { result ≡ list_all (λ n. meant.has_agent n (cells_data self.now)) numbers.now }
    {
        numbers.iter().all(|number| self.has_agent(*number))
    }

    /// Whether an await of these agents by a session, or by a bare request where there is none, is
    /// not met.
    pub(crate) fn is_unmet(&self, numbers: &[u64], session: Option<u64>) -> bool
        ensures { result
            ≡ meant.is_unmet (awaited numbers.now session (cells_data self.now).agents) }
    {
        match self.agents.await_met(numbers, session) {
            Await::Waits => true,
            Await::Failed | Await::Met => false,
        }
    }

    /// Answers an ask of atoms or agents, and does what is asked. It fails only for want of memory,
    /// and has then changed nothing.
    pub(crate) fn ask(
        &mut self,
        alloc: Global,
        sender: Sender<'_>,
        ask: &Ask,
    ) -> Result<AnswerCopies, AllocError>
        requires { is_of_cells (ask_view ask.now) ≡ true }
        ensures answered { IfOk result (λ it. copies_view it
            ≡ cell_answer (ask_view ask.now) (cells_data self.old) done) }
        ensures changed { IfOk result (λ it. cells_data self.new
            ≡ cells_after (sender_view sender.entry) (ask_view ask.now) (copies_view it)
            (cells_data self.old)) }
        ensures stays { OnErr result (cells_data self.new ≡ cells_data self.old) }
        ensures copies { IfOk result AreAllSame }
    {
        match ask {
            Ask::NewAtom(value) => atoms::make(&mut self.atoms, value),
            Ask::ReadAtom(number) => atoms::read(&self.atoms, *number),
            Ask::SetAtom { number, value } => atoms::set(&mut self.atoms, *number, value),
            Ask::TryAtom { number, seen, next } => {
                atoms::swap(&mut self.atoms, *number, seen, next)
            }
            Ask::NewAgent(state) => agents::make(&mut self.agents, state),
            Ask::ReadAgent(number) => agents::read(&self.agents, *number),
            Ask::AgentFault(number) => agents::fault(&self.agents, *number),
            Ask::RestartAgent { number, state } => {
                agents::restart(alloc, &mut self.agents, *number, state)
            }
            Ask::Send(sending) => sends::send(alloc, &mut self.agents, sender, sending),
            Ask::MaySend(sending) => sends::permission(alloc, &self.agents, sending.agent),
            Ask::Await(numbers) => agents::awaited(alloc, &self.agents, numbers.as_slice()),
            _ => unreachable!(),
        }
    }
}
