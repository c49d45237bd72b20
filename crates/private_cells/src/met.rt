// Awaiting what was sent.
ghost use Rattle.std.specs.Prelude.{◌≡◌};
ghost use Rattle.std.specs.List.{list_any};
ghost use Rattle.private_cells.specs.Agents.{agent_at, is_failed, is_busy_for, awaited};
ghost use Rattle.private_cells.specs.Inside.View.{agents_view};

use crate::agents::Agents;
use crate::awaiting::Await;
use crate::counts::AgentSender;

impl Agents {
    /// What comes of an await of these agents by a session, or by a bare request where there is
    /// none. A number that no agent has counts as one of an agent to which nothing was sent. It
    /// looks at each number once, however much waits.
    pub fn await_met(&self, numbers: &[u64], session: Option<u64>) -> Await
        ensures { result ≡ awaited numbers.now session (agents_view self.now) }
    {
        if self.is_any_failed(numbers) {
            return Await::Failed;
        }
        if self.is_any_busy(numbers, session) {
            return Await::Waits;
        }
        Await::Met
    }

    fn is_any_failed(&self, numbers: &[u64]) -> bool
        ensures { result ≡ list_any (λ n. is_failed n (agents_view self.now)) numbers.now }
    {
        numbers.iter().any(|number| self.fault(*number).is_some())
    }

    fn is_any_busy(&self, numbers: &[u64], session: Option<u64>) -> bool
        ensures { result ≡ list_any (λ n. is_busy_for session (agent_at n (agents_view self.now)))
            numbers.now }
    {
        numbers.iter().any(|number| self.is_busy(*number, session))
    }

    // Whether an action of the session waits for the agent, or runs.
    fn is_busy(&self, number: u64, session: Option<u64>) -> bool
        ensures { result ≡ is_busy_for session (agent_at number (agents_view self.now)) }
    {
        let Some(cell) = self.cells.get(number as usize) else {
            return false;
        };
        let sender = AgentSender {
            agent: number,
            session,
        };
        self.counts.count(sender) > 0 || cell.runs_from(session)
    }
}
