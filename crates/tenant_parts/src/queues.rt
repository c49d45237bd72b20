// Requests wait for an actor, or are taken back, and an actor is vacated.
ghost use Rattle.std.specs.Prelude.{◌≡◌, OnOk, OnErr};
ghost use Rattle.server_rules.specs.Tenant.{seat_of};
ghost use Rattle.tenant_parts.specs.View.{waiting_view, actors_view};
ghost use Rattle.tenant_parts.specs.Queues.{with_changed_actor, with_request, without_newest};
ghost use Rattle.tenant_parts.specs.Queues.{vacated_at};

use crate::actors::{Actors, take_off};
use crate::request::Waiting;
use server_rules::Actor;
use std::alloc::AllocError;

// Each takes about the logarithm of the number of actors.
impl Actors {
    /// Lets a request wait behind the others of the actor of this name, if it is there. It fails
    /// only for want of memory.
    pub fn queue(&mut self, actor: Actor, request: Waiting) -> Result<(), AllocError>
        ensures queued { OnOk result (actors_view self.new
            ≡ with_changed_actor (seat_of actor) (with_request (waiting_view request))
            (actors_view self.old)) }
        // `unqueue` undoes it
        ensures undone { OnOk result (
            with_changed_actor (seat_of actor) without_newest (actors_view self.new)
            ≡ actors_view self.old) }
        ensures stays { OnErr result (actors_view self.new ≡ actors_view self.old) }
    {
        let Some(state) = self.live.get_mut(&actor) else {
            drop(request);
            return Ok(());
        };
        self.busy.insert(actor)?;
        state.queue(request)
    }

    /// Takes the newest request that waits for the actor of this name back, if it is there. It
    /// takes no memory.
    pub fn unqueue(&mut self, actor: Actor)
        ensures { actors_view self.new
            ≡ with_changed_actor (seat_of actor) without_newest (actors_view self.old) }
    {
        let Some(state) = self.live.get_mut(&actor) else {
            return;
        };
        state.unqueue();
        self.rest(actor);
    }

    /// Vacates the seat of the actor of this name, if it is there: it is gone, or where it has a
    /// request in hand nothing waits for it any more, and that one is interrupted at its next step.
    /// It takes no memory.
    pub fn vacate(&mut self, actor: Actor)
        ensures { actors_view self.new ≡ vacated_at (seat_of actor) (actors_view self.old) }
    {
        let Some(state) = self.live.get_mut(&actor) else {
            return;
        };
        if state.hand.is_some() {
            state.close();
            return;
        }
        drop(self.live.remove(&actor));
        take_off(&mut self.busy, actor);
    }
}
