// An actor, which runs the forms of its requests one after another.
ghost use Rattle.std.specs.Prelude.{◌≡◌, [], true, option_map, option_copied, OnOk, OnErr};
ghost use Rattle.server_rules.specs.Machine.Ready.{may_begin};
ghost use Rattle.server_rules.specs.Tenant.{unoccupied};
ghost use Rattle.tenant_parts.specs.States.{waiting_view, hand_view, actor_view};
ghost use Rattle.tenant_parts.specs.Ahead.{next_text, tells_value};
ghost use Rattle.tenant_parts.specs.Busy.{is_busy};
ghost use Rattle.tenant_parts.specs.Queues.{with_request, without_newest};

use crate::request::{Manner, ProgramText, Waiting, WorkInHand};
use std::alloc::{AllocError, Global};
use std::collections::VecDeque;

/// What waits for an actor, and what it is at.
pub struct ActorState {
    /// The requests that wait, oldest first.
    pub waiting: VecDeque<Waiting>,
    pub hand: Option<WorkInHand>,
    /// Whether its session was closed while a request of it was in hand.
    pub is_closed: bool,
}

impl Drop for ActorState {
    fn drop(self) {
        let ActorState {
            waiting: _waiting,
            hand: _hand,
            is_closed: _is_closed,
        } = self;
    }
}

impl ActorState {
    /// An actor for which nothing waits. It takes no memory.
    pub fn unoccupied(alloc: Global) -> ActorState
        ensures { actor_view result ≡ unoccupied }
    {
        ActorState {
            waiting: VecDeque::new(alloc),
            hand: None,
            is_closed: false,
        }
    }

    /// Whether it has a form or a request to begin.
    pub fn has_work(&self) -> bool
        ensures { result ≡ may_begin (actor_view self.now).waiting (actor_view self.now).hand }
    {
        match &self.hand {
            Some(hand) => hand.running.is_none(),
            None => !self.waiting.is_empty(),
        }
    }

    /// Whether a form runs, or a request is in hand, or one waits.
    pub fn is_busy(&self) -> bool
        ensures { result ≡ is_busy (actor_view self.now) }
    {
        self.hand.is_some() || !self.waiting.is_empty()
    }

    /// The text of the request that it takes up next, if nothing is in hand and one waits.
    pub fn next_text(&self) -> Option<&str>
        ensures { option_copied result ≡ next_text (actor_view self.now) }
    {
        if self.hand.is_some() {
            return None;
        }
        match &self.waiting.front()?.text {
            ProgramText::Code { text, ns: _ } => Some(text.as_str()),
            ProgramText::File(text) => Some(text.as_str()),
        }
    }

    /// Whether the value of its form is told when the form ends.
    pub fn tells_value(&self) -> bool
        ensures { result ≡ tells_value (actor_view self.now) }
    {
        let Some(hand) = &self.hand else {
            return false;
        };
        match &hand.manner {
            Manner::EachForm | Manner::EachFormElsewhere => true,
            Manner::LastForm(_) => hand.forms.is_empty(),
            Manner::OfAction(_) => false,
        }
    }

    // Lets a request wait behind the others.
    pub(crate) fn queue(&mut self, request: Waiting) -> Result<(), AllocError>
        ensures queued { OnOk result (actor_view self.new
            ≡ with_request (waiting_view request) (actor_view self.old)) }
        ensures stays { OnErr result (actor_view self.new ≡ actor_view self.old) }
    {
        self.waiting.push_back(request)?;
        Ok(())
    }

    // Takes the newest request that waits back.
    pub(crate) fn unqueue(&mut self)
        ensures { actor_view self.new ≡ without_newest (actor_view self.old) }
    {
        drop(self.waiting.pop_back());
    }

    // Nothing waits any more, and what is in hand is interrupted at its next step.
    pub(crate) fn close(&mut self)
        ensures { actor_view self.new
            ≡ record { waiting = []; hand = option_map hand_view self.old.hand; is_closed = true } }
    {
        self.waiting.clear();
        self.is_closed = true;
    }
}
