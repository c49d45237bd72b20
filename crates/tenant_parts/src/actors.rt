// The actors by their names.
ghost use Rattle.std.specs.Prelude.{◌≡◌, [], ◌∷◌, ◌++◌, true, find, map, option_map, IfOk, OnOk};
ghost use Rattle.std.specs.Prelude.{OnErr};
ghost use Rattle.std.specs.Borrow.{sem};
ghost use Rattle.ref_table.specs.Numbered.{entry, part_under, without};
ghost use Rattle.server_rules.specs.Machine.Ready.{has_work, may_begin};
ghost use Rattle.server_rules.specs.Tenant.{actor_at, seat_of, unoccupied};
ghost use Rattle.tenant_parts.specs.Busy.{is_busy, busy_of, passes};
ghost use Rattle.tenant_parts.specs.Listed.{are_listed, lists_agents, AgreeApart};
ghost use Rattle.tenant_parts.specs.States.{actor_view, actor_entry_view};

use crate::actor::ActorState;
use server_rules::Actor;
use std::alloc::{AllocError, Global};
use std::collections::{BTreeMap, BTreeSet};

/// The actors of a tenant: that of agents first, that of the requests without a session, and then
/// those of the sessions in the order in which they were made.
pub struct Actors {
    alloc: Global,
    pub(crate) live: BTreeMap<Actor, ActorState>,
    // The names of those that have something to do, and that of agents. A name may stay of one that
    // has nothing to do any more, where memory was refused as a request came to wait for it.
    pub(crate) busy: BTreeSet<Actor>,
    ghost listed: { are_listed busy (map actor_entry_view live.entries) ≡ true },
    ghost agents: { lists_agents busy ≡ true },
}

impl Drop for Actors {
    fn drop(self) {
        let Actors {
            alloc: _alloc,
            live: _live,
            busy: _busy,
        } = self;
    }
}

// Each takes about the logarithm of the number of actors, but those that say otherwise.
impl Actors {
    ghost use Rattle.tenant_parts.specs.View.{actors_view, AreBelow};
    ghost use Rattle.tenant_parts.specs.Lent.{LendsActor, MayBeLent, ActorsAscend};

    /// The actors of agents and of the requests without a session, alone. It fails only for want of
    /// memory.
    pub fn new(alloc: Global) -> Result<Actors, AllocError>
        ensures { IfOk result (λ made. actors_view made ≡ entry (seat_of Actor.Agents) unoccupied
            ∷ entry (seat_of Actor.Bare) unoccupied ∷ []) }
    {
        let mut live = BTreeMap::new(alloc);
        live.insert(Actor::Agents, ActorState::unoccupied(alloc))?;
        live.insert(Actor::Bare, ActorState::unoccupied(alloc))?;
        let mut busy = BTreeSet::new(alloc);
        busy.insert(Actor::Agents)?;
        Ok(Actors { alloc, live, busy })
    }

    /// The actor of this name, if it is there.
    pub fn get(&self, actor: Actor) -> Option<&ActorState>
        ensures { option_map (λ it. actor_view it.now) result
            ≡ part_under (seat_of actor) (actors_view self.now) }
    {
        self.live.get(&actor)
    }

    /// The actor of this name, if it is there, to be changed in its place. It has something to do,
    /// or is that of agents. Once it was changed, `rest` is for it.
    pub fn get_mut(&mut self, actor: Actor) -> Option<&mut ActorState>
        requires { MayBeLent actor (part_under (seat_of actor) (actors_view self.old)) }
        ensures* writes_back { sem 𝓛 (LendsActor self.entry actor result) }
        ensures value { option_map (λ it. actor_view it.now) result
            ≡ part_under (seat_of actor) (actors_view self.old) }
    {
        self.live.get_mut(&actor)
    }

    /// Nobody looks at the actor of this name any more while it has nothing to do. Actors that have
    /// something to do are found in any case.
    pub fn rest(&mut self, actor: Actor)
        ensures { actors_view self.new ≡ actors_view self.old }
    {
        self.ascend();
        if !self.is_busy(actor) {
            take_off(&mut self.busy, actor);
        }
    }

    /// Takes the actor of this name away, if it is there, and gives it.
    pub fn remove(&mut self, actor: Actor) -> Option<ActorState>
        ensures { actors_view self.new ≡ without (seat_of actor) (actors_view self.old) }
    {
        let state = self.live.remove(&actor);
        take_off(&mut self.busy, actor);
        state
    }

    /// Adds an actor behind all others. It fails only for want of memory.
    pub fn open(&mut self, actor: Actor) -> Result<(), AllocError>
        requires { AreBelow (seat_of actor) (actors_view self.old) }
        ensures added { OnOk result (actors_view self.new
            ≡ actors_view self.old ++ entry (seat_of actor) unoccupied ∷ []) }
        ensures stays { OnErr result (actors_view self.new ≡ actors_view self.old) }
    {
        self.live.insert(actor, ActorState::unoccupied(self.alloc))?;
        Ok(())
    }

    /// The names of all, in order. It looks at each, and fails only for want of memory.
    pub fn names(&self, alloc: Global) -> Result<Vec<Actor>, AllocError>
        ensures { IfOk result (λ names. names.items
            ≡ map (λ e. actor_at e.number) (actors_view self.now)) }
    {
        let mut names = Vec::with_capacity(alloc, self.live.len())?;
        for actor in self.live.keys() {
            names.push(*actor)?;
        }
        Ok(names)
    }

    /// The names of those that have something to do, in order: a form runs, or a request is in
    /// hand, or one waits. It looks at each of them, and fails only for want of memory.
    pub fn busy(&self, alloc: Global) -> Result<Vec<Actor>, AllocError>
        ensures names { IfOk result (λ names. names.items ≡ busy_of (actors_view self.now)) }
        ensures order { ActorsAscend (actors_view self.now) }
    {
        self.ascend();
        let mut names = Vec::with_capacity(alloc, self.busy.len())?;
        for actor in &self.busy {
            if self.is_busy(*actor) {
                names.push(*actor)?;
            }
        }
        Ok(names)
    }

    /// The first that has a form or a request to begin. It looks at each that has something to do,
    /// up to that one.
    pub fn ready(&self) -> Option<Actor>
        ensures { result
            ≡ option_map (λ e. actor_at e.number) (find has_work (actors_view self.now)) }
    {
        self.ascend();
        let first = self.busy.iter().find(|actor| self.has_work(**actor))?;
        Some(*first)
    }

    // Whether the actor of this name is there, and has something to do.
    fn is_busy(&self, actor: Actor) -> bool
        ensures { result ≡ passes is_busy (part_under (seat_of actor) (actors_view self.now)) }
    {
        match self.live.get(&actor) {
            Some(state) => state.is_busy(),
            None => false,
        }
    }

    // Whether the actor of this name is there, and has a form or a request to begin.
    fn has_work(&self, actor: Actor) -> bool
        ensures { result ≡ passes (λ it. may_begin it.waiting it.hand)
            (part_under (seat_of actor) (actors_view self.now)) }
    {
        match self.live.get(&actor) {
            Some(state) => state.has_work(),
            None => false,
        }
    }

    // The actors are in the order of their seats.
    fn ascend(&self)
        ensures { ActorsAscend (actors_view self.now) }
    {
        let _count = self.live.len();
    }
}

// Takes a name off the list. That of agents stays.
pub(crate) fn take_off(busy: &mut BTreeSet<Actor>, actor: Actor)
    ensures apart { AgreeApart (seat_of actor) busy.old busy.new }
    ensures agents { lists_agents busy.old ≡ true → lists_agents busy.new ≡ true }
{
    if actor != Actor::Agents {
        busy.remove(&actor);
    }
}
