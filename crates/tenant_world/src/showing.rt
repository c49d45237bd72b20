// A tenant as it begins, and what it shows.
ghost use Rattle.std.specs.Prelude.{◌≡◌, ◌≢◌, ◌+◌, ◌<◌, ℕ, List, [], ◌∷◌, option_map, IfOk};
ghost use Rattle.std.specs.Prelude.{OnErr, MatchOption, IfSome, true, false, option_copied};
ghost use Rattle.name_spaces.specs.Inside.Seen.{shared_bindings};
ghost use Rattle.server_rules.specs.Ground.{Ground};
ghost use Rattle.server_rules.specs.Tenant.{TenantState, opened_state, actor_state};
ghost use Rattle.server_rules.specs.Machine.Ready.{ready};
ghost use Rattle.server_rules.specs.Plan as deeds;
ghost use Rattle.server_rules.specs.Plan.{reply_given};
ghost use Rattle.tenant_parts.specs.Ahead.{next_text_of, IsAddressee};
ghost use Rattle.std.specs.Arc.{arc_str_bytes};
ghost use Rattle.tenant_parts.specs.View.{run_view, actors_view};
ghost use Rattle.server_rules.specs.Grounds.{IsRight};
ghost use Rattle.ref_table.specs.Store.{Store};
ghost use Rattle.server_rules.specs.DeedResult.{deed_result};
ghost use Rattle.server_rules.specs.LoneTurns.{LoneTenant, agents_last};
ghost use Rattle.server_rules.specs.Inside.Rounds.{IsEnough};
ghost use Rattle.server_rules.specs.Inside.Wires.{wire_at};
ghost use Rattle.tenant_asks.specs.Acting.{is_accepted};
ghost use Rattle.tenant_world.specs.Answers.{AreSameReplies};
ghost use Rattle.tenant_world.specs.Running.{running_in};

use crate::answers::Replies;
use crate::tenant::Tenant;
use bencode_wire::Decoder;
use bencode_wire::laws::a_stream_has_one_reading;
use name_spaces::{SharedNames, Spaces};
use private_cells::{Agents, Atoms};
use repl_sessions::{IdStream, SessionState, Sessions};
use repl_values::copy_text;
use server_rules::{Actor, MESSAGE_LIMIT, Refusal, Wire};
use std::alloc::{AllocError, Global};
use std::sync::{Arc, ArcStr};
use tenant_asks::{Cells, Remembered};
use tenant_parts::{Actors, Addressee, Attempts, Manner, Outbox, Run};

impl Tenant {
    ghost use Rattle.tenant_world.specs.Standing.{StandsForState, AcceptsDeed, RefusesDeed};
    ghost use Rattle.tenant_world.specs.Standing.{replies_of};
    ghost use Rattle.tenant_world.specs.Promises.{Drains, DrainsIfOk};

    /// A tenant that has heard nothing. Its number chooses the ids of its sessions, under the
    /// server's seed. It sees these shared names. It fails only for want of memory.
    pub fn new(
        alloc: Global,
        seed: [u8; 32],
        number: u64,
        steps: u32,
        retries: u32,
        shared: SharedNames,
    ) -> Result<Tenant, AllocError>
        ensures { (g : Ground) → IsRight g → g.shared.names ≡ shared_bindings shared
            → g.seed ≡ seed → g.steps ≡ steps → g.retries ≡ retries
            → (s : Store) → s.tenant ≡ number → s.mine.points ≡ []
            → IfOk result (λ made. StandsForState g made (opened_state g) s) }
    {
        a_stream_has_one_reading();
        let memory = Remembered {
            sessions: Sessions::new(alloc, IdStream::new(seed, number)),
            bare: SessionState::fresh(alloc)?,
            spaces: Spaces::new(alloc, shared)?,
            cells: Cells {
                atoms: Atoms::new(alloc),
                agents: Agents::new(alloc),
            },
            outbox: Outbox::new(alloc),
        };
        Ok(Tenant {
            alloc,
            retries,
            steps,
            decoder: Decoder::new(alloc, MESSAGE_LIMIT),
            actors: Actors::new(alloc)?,
            memory,
            attempts: Attempts::new(alloc, number),
        })
    }

    /// Takes the oldest reply out. It takes no memory.
    pub fn drain(&mut self) -> Option<Vec<u8>>
        ensures steps { self.new.steps ≡ self.old.steps }
        ensures oldest { MatchOption result
            ((replies_of self.old ≡ []) × (replies_of self.new ≡ []))
            (λ reply. replies_of self.old ≡ reply.items ∷ replies_of self.new) }
        ensures drained { Drains self.old self.new result (λ reply. reply.items) }
    {
        self.memory.outbox.take()
    }

    /// The same, with the reply twice. It fails only for want of memory, and then changes nothing.
    pub fn drain_copied(&mut self) -> Result<Option<Replies>, AllocError>
        ensures drained { DrainsIfOk self.old self.new result (λ replies. replies.given.items) }
        ensures same { IfOk result (λ it. IfSome it AreSameReplies) }
        ensures stays { OnErr result (self.new ≡ self.old) }
        ensures no_memory { (g : Ground) (q : TenantState) (s : Store)
            → StandsForState g self.old q s
            → OnErr result (is_accepted (deed_result g s q deeds.drains).outcome ≡ true) }
    {
        let noted = self.copy_oldest()?;
        let Some(given) = self.drain() else {
            return Ok(None);
        };
        Ok(Some(Replies { given, noted }))
    }

    // The bytes of the oldest reply, or none.
    fn copy_oldest(&self) -> Result<Vec<u8>, AllocError>
        ensures same { (reply : List ℕ) (more : List (List ℕ)) → replies_of self.now ≡ reply ∷ more
            → IfOk result (λ copied. copied.items ≡ reply) }
        ensures some { OnErr result (replies_of self.now ≢ []) }
    {
        match self.memory.outbox.oldest() {
            Some(oldest) => Vec::from_slice(self.alloc, oldest),
            None => Ok(Vec::new(self.alloc)),
        }
    }

    /// The first actor that has a form or a request to begin. It looks at each that has something
    /// to do, up to that one, and takes no memory.
    pub fn ready(&self) -> Option<Actor>
        ensures { (g : Ground) (q : TenantState) (s : Store) → StandsForState g self.now q s
            → result ≡ ready q }
    {
        self.actors.ready()
    }

    /// The actors of a round, in order: those that have something to do, or all where there may not
    /// be a step for each of these. It looks at each of them, and fails only for want of memory.
    pub fn round(&self, alloc: Global) -> Result<Vec<Actor>, AllocError>
        ensures { (g : Ground) (l : LoneTenant) → StandsForState g self.now l.state l.store
            → IfOk result (λ actors. IsEnough l actors.items) }
    {
        let found = self.actors.busy(alloc)?;
        let busy = agents_last(found)?;
        if busy.len() < self.steps as usize {
            return Ok(busy);
        }
        let all = self.actors.names(alloc)?;
        agents_last(all)
    }

    /// The form of an actor that runs, if one does: its job, and what it asked and was answered.
    pub fn running(&self, actor: Actor) -> Option<&Run>
        ensures { (g : Ground) (q : TenantState) (s : Store) → StandsForState g self.now q s
            → option_map (λ run. run_view run.now) result ≡ running_in actor q }
    {
        self.actors.get(actor)?.hand.as_ref()?.running.as_ref()
    }

    /// The text of the request that an actor takes up next, if nothing of it is in hand and one
    /// waits.
    pub fn next_text(&self, actor: Actor) -> Option<&str>
        ensures { option_copied result ≡ next_text_of actor (actors_view self.now.actors) }
    {
        self.actors.get(actor)?.next_text()
    }

    /// To whom and how it is told that the form of an actor ended, if something of it is in hand.
    /// None also where a file's session was closed, and where 2^63 owners share the request.
    pub fn addressee(&self, actor: Actor) -> Option<Addressee>
        ensures { (g : Ground) (q : TenantState) (s : Store) → StandsForState g self.now q s
            → IfSome result (IsAddressee actor q) }
    {
        let state = self.actors.get(actor)?;
        let hand = state.hand.as_ref()?;
        let hears_value = state.tells_value();
        let Ok(origin) = Arc::try_clone(&hand.origin) else {
            return None;
        };
        match &hand.manner {
            Manner::LastForm(_) => {
                let namespace = self.session_namespace(actor)?;
                Some(Addressee {
                    origin,
                    namespace: Some(namespace),
                    hears_value,
                })
            }
            Manner::EachForm | Manner::EachFormElsewhere | Manner::OfAction(_) => Some(Addressee {
                origin,
                namespace: None,
                hears_value,
            }),
        }
    }

    // The namespace of an actor's session.
    fn session_namespace(&self, actor: Actor) -> Option<ArcStr>
        ensures { (g : Ground) (q : TenantState) (s : Store) → StandsForState g self.now q s
            → IfSome result (λ text. arc_str_bytes text ≡ (actor_state actor q).namespace) }
    {
        match copy_text(&self.memory.shown(actor)?.namespace) {
            Ok(namespace) => Some(namespace),
            Err(_) => None,
        }
    }

    /// Whether all its steps are used up: then it only gives its replies. It takes no memory.
    pub fn is_worn(&self) -> bool
        ensures worn { result ≡ true → self.now.steps ≡ 0 }
        ensures left { result ≡ false → 0 < self.now.steps }
    {
        self.steps == 0
    }

    /// What has come of the stream. It takes no memory.
    pub fn wire(&self) -> Wire
        ensures { (g : Ground) (q : TenantState) (s : Store) → IsRight g
            → StandsForState g self.now q s
            → result ≡ wire_at (g.readings.stream q.heard).ending }
    {
        a_stream_has_one_reading();
        match self.decoder.fault() {
            Some(fault) => Wire::Broken(fault),
            None => {
                if self.decoder.rest_is_empty() {
                    Wire::Whole
                } else {
                    Wire::Partial
                }
            }
        }
    }
}

// The actor of agents behind the others. It fails only for want of memory.
fn agents_last(mut actors: Vec<Actor>) -> Result<Vec<Actor>, AllocError>
    ensures { IfOk result (λ all. all.items ≡ agents_last actors.items) }
{
    actors.retain(|actor| *actor != Actor::Agents);
    actors.push(Actor::Agents)?;
    Ok(actors)
}
