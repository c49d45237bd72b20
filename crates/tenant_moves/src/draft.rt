// What the messages of a piece have come to so far.
ghost use Rattle.std.specs.Prelude.{◌≡◌, [], map, OnOk};
ghost use Rattle.std.specs.BTreeSet.{keys};
ghost use Rattle.bencode_wire.specs.Inside.View.{tree_view, entries_view};
ghost use Rattle.bencode_wire.specs.Tree.{dictionary};
ghost use Rattle.server_rules.specs.Operating.{with_message};
ghost use Rattle.tenant_parts.specs.View.{actors_view};
ghost use Rattle.tenant_parts.specs.Replies.{made_bytes};
ghost use Rattle.tenant_moves.specs.Holds.{AreSeated};
ghost use Rattle.tenant_moves.specs.Scene.{scene, FollowsRules, IsKept};
ghost use Rattle.tenant_moves.specs.Handled.{with_piece};

use crate::changes::LoggedChange;
use crate::staying::read_message;
use bencode_wire::{Ben, Dictionary};
use repl_replies::{Asked, Body, Origin, Reply};
use repl_sessions::Sessions;
use std::alloc::{AllocError, Global};
use std::collections::{BTreeSet, VecDeque};
use std::sync::Arc;
use tenant_parts::{Actors, Batch};

#[derive(Drop)]
pub(crate) struct Draft {
    pub(crate) alloc: Global,
    // What was changed, oldest first.
    pub(crate) log: Vec<LoggedChange>,
    // The sessions that are closed at the end.
    pub(crate) leaving: BTreeSet<u64>,
    pub(crate) batch: Batch,
}

impl Draft {
    // Nothing was heard.
    pub(crate) fn new(alloc: Global) -> Draft
        ensures log { result.log.items ≡ [] }
        ensures leaving { keys result.leaving ≡ [] }
        ensures made { made_bytes result.batch ≡ [] }
    {
        Draft {
            alloc,
            log: Vec::new(alloc),
            leaving: BTreeSet::new(alloc),
            batch: Batch::new(alloc),
        }
    }

    // Carries out messages, oldest first, and tells of a fault behind them. Where memory is refused
    // they may be carried out in part.
    pub(crate) fn fill(
        &mut self,
        mut messages: VecDeque<Ben>,
        is_broken: bool,
        sessions: &mut Sessions,
        actors: &mut Actors,
    ) -> Result<(), AllocError>
        requires { AreSeated sessions.old (actors_view actors.old) }
        ensures heard { OnOk result (FollowsRules
            (λ g t. with_piece g t (map tree_view messages.items) is_broken)
            (scene self.old sessions.old actors.old) (scene self.new sessions.new actors.new)) }
        ensures kept { IsKept (scene self.old sessions.old actors.old)
            (scene self.new sessions.new actors.new) }
    {
        while let Some(message) = messages.pop_front() {
            self.hear(message, sessions, actors)?;
        }
        if is_broken {
            return self.batch.add(&Origin::none(), Body::Malformed);
        }
        Ok(())
    }

    // Carries out one message. Where memory is refused it may be carried out in part.
    pub(crate) fn hear(
        &mut self,
        message: Ben,
        sessions: &mut Sessions,
        actors: &mut Actors,
    ) -> Result<(), AllocError>
        requires { AreSeated sessions.old (actors_view actors.old) }
        ensures heard { OnOk result (FollowsRules (λ g t. with_message g t (tree_view message))
            (scene self.old sessions.old actors.old) (scene self.new sessions.new actors.new)) }
        ensures kept { IsKept (scene self.old sessions.old actors.old)
            (scene self.new sessions.new actors.new) }
    {
        match message {
            Ben::Dictionary(fields) => self.hear_fields(fields, sessions, actors),
            Ben::Integer(_) => Ok(()),
            Ben::String(_) => Ok(()),
            Ben::List(_) => Ok(()),
        }
    }

    fn hear_fields(
        &mut self,
        fields: Dictionary,
        sessions: &mut Sessions,
        actors: &mut Actors,
    ) -> Result<(), AllocError>
        requires { AreSeated sessions.old (actors_view actors.old) }
        ensures heard { OnOk result (FollowsRules
            (λ g t. with_message g t (dictionary (entries_view fields.entries)))
            (scene self.old sessions.old actors.old) (scene self.new sessions.new actors.new)) }
        ensures kept { IsKept (scene self.old sessions.old actors.old)
            (scene self.new sessions.new actors.new) }
    {
        match read_message(fields, sessions, &self.leaving) {
            Ok(Asked { origin, operation }) => {
                let origin = Arc::new(self.alloc, origin)?;
                self.operate(origin, operation, sessions, actors)
            }
            Err(Reply { origin, body }) => self.batch.add(&origin, body),
        }
    }
}
