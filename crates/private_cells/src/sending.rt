// Sending.
ghost use Rattle.std.specs.Prelude.{◌≡◌, ◌+◌, ◌<◌, ◌≤◌};
ghost use Rattle.private_cells.specs.Agents.{with_send};
ghost use Rattle.private_cells.specs.Inside.Seen.{action_view};
ghost use Rattle.private_cells.specs.Inside.View.{agents_view, room_of};

use crate::action::{Action, Sent};
use crate::agents::Agents;
use crate::counts::AgentSender;
use crate::listed::wait_at;

impl Agents {
    /// Sends an action to the agent of this number, under the next sending number. It waits there
    /// also where the agent is failed; `may_send` tells whether it may be sent. It takes no memory,
    /// and about the logarithm of the number of agents.
    pub fn send(&mut self, number: u64, action: Action)
        requires { 0 < room_of self.old }
        ensures sent { agents_view self.new
            ≡ with_send number (action_view action) (agents_view self.old) }
        ensures room { room_of self.old ≤ room_of self.new + 1 }
    {
        let session = action.session;
        let nodes = self.spare.filled(Sent {
            number: self.sent,
            action,
        });
        self.sent += 1;
        if number >= self.cells.len() as u64 {
            drop(nodes);
            return;
        }
        self.counts.add(AgentSender {
            agent: number,
            session,
        });
        let first = wait_at(&mut self.cells, number, nodes);
        self.turns.open(first, number);
    }
}
