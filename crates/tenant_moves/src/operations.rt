// Each operation is carried out (the nREPL manual, "Supported nREPL operations").
ghost use Rattle.std.specs.Prelude.{◌≡◌, OnOk, Some};
ghost use Rattle.std.specs.Arc.{arc_value};
ghost use Rattle.std.specs.BTreeSet.{keys};
ghost use Rattle.repl_sessions.specs.Named.{NamedSessions};
ghost use Rattle.repl_replies.specs.Inside.View.{origin_view, operation_view};
ghost use Rattle.server_rules.specs.Operating.{after_operation, with_clone, with_close, asker};
ghost use Rattle.tenant_parts.specs.View.{waiting_view, actors_view};
ghost use Rattle.tenant_moves.specs.Holds.{AreSeated};
ghost use Rattle.tenant_moves.specs.Scene.{scene, FollowsRules, IsKept};
ghost use Rattle.repl_replies.specs.Inside.Named.{session_of};
ghost use Rattle.tenant_moves.specs.Served.{IsServed};
ghost use Rattle.tenant_moves.specs.Requested.{with_queued_request};

use crate::changes::{LoggedChange, note};
use crate::draft::Draft;
use crate::telling::{add_interruptions, add_list};
use repl_replies::{Body, Operation, Origin};
use repl_sessions::Sessions;
use server_rules::Actor;
use std::alloc::AllocError;
use std::sync::Arc;
use tenant_parts::{Actors, ProgramText, Waiting};

impl Draft {
    pub(crate) fn operate(
        &mut self,
        origin: Arc<Origin>,
        operation: Operation,
        sessions: &mut Sessions,
        actors: &mut Actors,
    ) -> Result<(), AllocError>
        requires seated { AreSeated sessions.old (actors_view actors.old) }
        requires served { IsServed (session_of (operation_view operation)) (keys self.old.leaving)
            sessions.old.sessions }
        ensures heard { OnOk result (FollowsRules
            (λ g t. after_operation g t (origin_view (arc_value origin)) (operation_view operation))
            (scene self.old sessions.old actors.old) (scene self.new sessions.new actors.new)) }
        ensures kept { IsKept (scene self.old sessions.old actors.old)
            (scene self.new sessions.new actors.new) }
    {
        match operation {
            Operation::Clone { session } => self.open(&*origin, session, sessions, actors),
            Operation::Close { session } => self.close(&*origin, session, actors),
            Operation::Describe { session: _ } => self.batch.add(&*origin, Body::Described),
            Operation::ListSessions { session: _ } => {
                add_list(
                    self.alloc,
                    &mut self.batch,
                    &*origin,
                    sessions,
                    &self.leaving,
                )
            }
            Operation::Eval { session, code, ns } => {
                let text = ProgramText::Code { text: code, ns };
                self.queue(session, Waiting { origin, text }, actors)
            }
            Operation::LoadFile { session, file } => {
                let text = ProgramText::File(file);
                self.queue(session, Waiting { origin, text }, actors)
            }
        }
    }

    // Makes a session, with its actor.
    fn open(
        &mut self,
        origin: &Origin,
        original: Option<u64>,
        sessions: &mut Sessions,
        actors: &mut Actors,
    ) -> Result<(), AllocError>
        requires seated { AreSeated sessions.old (actors_view actors.old) }
        requires served { IsServed original (keys self.old.leaving) sessions.old.sessions }
        ensures heard { OnOk result (FollowsRules
            (λ g t. with_clone g t (origin_view origin.now) original)
            (scene self.old sessions.old actors.old) (scene self.new sessions.new actors.new)) }
        ensures kept { IsKept (scene self.old sessions.old actors.old)
            (scene self.new sessions.new actors.new) }
    {
        self.log.reserve(1)?;
        let number = sessions.clone_of(self.alloc, original)?;
        if let Err(refused) = actors.open(Actor::Session(number)) {
            sessions.retract();
            return Err(refused);
        }
        note(&mut self.log, LoggedChange::Cloned(number));
        let id = sessions.id_string(self.alloc, number)?;
        self.batch.add(origin, Body::NewSession(id))
    }

    // Answers what waits for a session, and closes it at the end.
    fn close(&mut self, origin: &Origin, number: u64, actors: &Actors) -> Result<(), AllocError>
        ensures heard { (s : NamedSessions) → AreSeated s (actors_view actors.now)
            → IsServed (Some number) (keys self.old.leaving) s.sessions
            → OnOk result (FollowsRules (λ g t. with_close (origin_view origin.now) number)
            (scene self.old s actors.now) (scene self.new s actors.now)) }
        ensures log { self.new.log.items ≡ self.old.log.items }
    {
        let Some(actor) = actors.get(Actor::Session(number)) else {
            return Ok(());
        };
        add_interruptions(&mut self.batch, &actor.waiting)?;
        self.batch.add(origin, Body::Closed)?;
        self.leaving.insert(number)?;
        Ok(())
    }

    // Lets a request wait.
    fn queue(
        &mut self,
        session: Option<u64>,
        request: Waiting,
        actors: &mut Actors,
    ) -> Result<(), AllocError>
        ensures heard { (s : NamedSessions) → AreSeated s (actors_view actors.old)
            → IsServed session (keys self.old.leaving) s.sessions
            → OnOk result (FollowsRules (λ g t.
            with_queued_request (asker session) (waiting_view request))
            (scene self.old s actors.old) (scene self.new s actors.new)) }
        ensures kept { (s : NamedSessions) → AreSeated s (actors_view actors.old)
            → IsKept (scene self.old s actors.old) (scene self.new s actors.new) }
    {
        self.log.reserve(1)?;
        let actor = asker(session);
        actors.queue(actor, request)?;
        note(&mut self.log, LoggedChange::Queued(actor));
        Ok(())
    }
}

// Who runs the requests of a session, or those without one.
fn asker(session: Option<u64>) -> Actor
    ensures { result ≡ asker session }
{
    match session {
        Some(number) => Actor::Session(number),
        None => Actor::Bare,
    }
}
