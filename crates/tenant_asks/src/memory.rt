// What the requests of a tenant share: its sessions, namespaces, atoms and agents, and the replies
// that wait.
ghost use Rattle.std.specs.Prelude.{◌≡◌, ℕ, List, map, option_map, unwrap_or, IfOk, OnOk, OnErr};
ghost use Rattle.repl_sessions.specs.State.{fresh};
ghost use Rattle.repl_replies.specs.Replies.{ReplyData, bytes_of};
ghost use Rattle.repl_sessions.specs.Inside.StateView.{state_view};
ghost use Rattle.server_rules.specs.Ground.{Ground};
ghost use Rattle.server_rules.specs.Tenant.{TenantState, actor_state, with_state, with_replies};
ghost use Rattle.server_rules.specs.Starting.{first_state};
ghost use Rattle.server_rules.specs.Moves.{Move};
ghost use Rattle.tenant_parts.specs.Replies.{made_bytes};
ghost use Rattle.tenant_asks.specs.Memories.{Remembers, opened_by};

use crate::cells::Cells;
use name_spaces::Spaces;
use repl_sessions::{SessionState, Sessions};
use server_rules::Actor;
use std::alloc::{AllocError, Global};
use tenant_parts::{Batch, Outbox};

/// What the requests of a tenant share.
pub struct Remembered {
    pub sessions: Sessions,
    /// What a request without a session remembers.
    pub bare: SessionState,
    pub spaces: Spaces,
    pub cells: Cells,
    /// The replies that wait.
    pub outbox: Outbox,
}

impl Drop for Remembered {
    fn drop(self) {
        let Remembered {
            sessions: _sessions,
            bare: _bare,
            spaces: _spaces,
            cells: _cells,
            outbox: _outbox,
        } = self;
    }
}

impl Remembered {
    /// What the session of an actor remembers, if it has one that was not closed.
    pub fn shown(&self, actor: Actor) -> Option<&SessionState>
        ensures { (g : Ground) (t : ℕ) (q : TenantState) → Remembers g t self.now q
            → unwrap_or (option_map (λ state. state_view state.now) result) fresh
            ≡ actor_state actor q }
    {
        match actor {
            Actor::Agents => None,
            Actor::Bare => Some(&self.bare),
            Actor::Session(number) => self.sessions.state(number),
        }
    }

    /// What the session of an actor remembers, once more. What a closed session remembers is what a
    /// fresh one does. It fails only for want of memory.
    pub fn state_of(&self, alloc: Global, actor: Actor) -> Result<SessionState, AllocError>
        ensures { (g : Ground) (t : ℕ) (q : TenantState) → Remembers g t self.now q
            → IfOk result (λ state. state_view state ≡ actor_state actor q) }
    {
        match self.shown(actor) {
            Some(state) => state.copy(),
            None => SessionState::fresh(alloc),
        }
    }

    /// What a request of an actor remembers when it begins. It fails only for want of memory.
    pub fn first_state(&self, alloc: Global, actor: Actor) -> Result<SessionState, AllocError>
        ensures { (g : Ground) (t : ℕ) (q : TenantState) → Remembers g t self.now q
            → IfOk result (λ state. state_view state ≡ first_state actor q) }
    {
        match actor {
            Actor::Agents | Actor::Bare => SessionState::fresh(alloc),
            Actor::Session(_) => self.state_of(alloc, actor),
        }
    }

    /// Puts a state in the place of what the session of an actor remembers.
    pub(crate) fn put_state(&mut self, actor: Actor, state: SessionState)
        ensures put { (g : Ground) (t : ℕ) (q : TenantState) → Remembers g t self.old q
            → Remembers g t self.new (with_state actor (state_view state) q) }
        ensures opened { opened_by self.new ≡ opened_by self.old }
        ensures cells { self.new.cells ≡ self.old.cells }
    {
        match actor {
            Actor::Agents => drop(state),
            Actor::Bare => self.bare = state,
            Actor::Session(number) => self.sessions.set_state(number, state),
        }
    }

    /// Lets replies wait. It fails only for want of memory, and then adds none.
    pub(crate) fn post(&mut self, batch: Batch) -> Result<(), AllocError>
        ensures posted { (g : Ground) (t : ℕ) (q : TenantState) (more : List ReplyData)
            → Remembers g t self.old q → made_bytes batch ≡ map bytes_of more
            → OnOk result (Remembers g t self.new (with_replies more q)) }
        ensures stays { (g : Ground) (t : ℕ) (q : TenantState) → Remembers g t self.old q
            → OnErr result (Remembers g t self.new q) }
        ensures opened { opened_by self.new ≡ opened_by self.old }
        ensures cells { self.new.cells ≡ self.old.cells }
    {
        self.outbox.post(batch)
    }

    /// Lets the replies to a request wait, and puts the state in that its session then has. It
    /// fails only for want of memory, and then changes nothing.
    pub fn post_with_state(
        &mut self,
        actor: Actor,
        batch: Batch,
        state: SessionState,
    ) -> Result<(), AllocError>
        ensures taken { (g : Ground) (t : ℕ) (q : TenantState) (m : Move) → Remembers g t self.old q
            → made_bytes batch ≡ map bytes_of m.replies → state_view state ≡ m.state
            → OnOk result (Remembers g t self.new
            (with_replies m.replies (with_state actor m.state q))) }
        ensures stays { (g : Ground) (t : ℕ) (q : TenantState) → Remembers g t self.old q
            → OnErr result (Remembers g t self.new q) }
        ensures opened { opened_by self.new ≡ opened_by self.old }
        ensures cells { self.new.cells ≡ self.old.cells }
    {
        self.post(batch)?;
        self.put_state(actor, state);
        Ok(())
    }
}
