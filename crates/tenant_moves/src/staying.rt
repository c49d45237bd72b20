// What a message asks for, where it may name the sessions that are not leaving.
ghost use Rattle.std.specs.Prelude.{◌≡◌, IfOk};
ghost use Rattle.std.specs.BTreeSet.{keys};
ghost use Rattle.std.specs.Result.{result_map_both};
ghost use Rattle.bencode_wire.specs.Inside.View.{entries_view};
ghost use Rattle.repl_replies.specs.Operations as meant;
ghost use Rattle.repl_replies.specs.Inside.View.{asked_view, operation_view, reply_view};
ghost use Rattle.repl_sessions.specs.Named.{number_named};
ghost use Rattle.repl_sessions.specs.Inside.Leaving.{remaining_named};
ghost use Rattle.repl_replies.specs.Inside.Named.{session_of};
ghost use Rattle.tenant_moves.specs.Served.{IsServed};

use bencode_wire::Dictionary;
use repl_replies::{Asked, OpenSessions, Reply, operation_of};
use repl_sessions::Sessions;
use std::collections::BTreeSet;

#[derive(Clone, Copy)]
struct Staying<'a> {
    sessions: &'a Sessions,
    leaving: &'a BTreeSet<u64>,
}

impl OpenSessions for Staying<'_> {
    ghost number = { λ it. number_named (remaining_named (keys it.leaving.now) it.sessions.now) };

    fn number_of(&self, id: &[u8]) -> Option<u64> {
        self.sessions.number_but(id, self.leaving)
    }
}

// Reads a message: what it asks for, or else the reply to it. It takes no memory.
pub(crate) fn read_message(
    fields: Dictionary,
    sessions: &Sessions,
    leaving: &BTreeSet<u64>,
) -> Result<Asked, Reply>
    ensures asked { result_map_both asked_view reply_view result
        ≡ meant.operation_or_reply (number_named (remaining_named (keys leaving.now) sessions.now))
        (entries_view fields.entries) }
    ensures served { IfOk result (λ asked.
        IsServed (session_of (operation_view asked.operation)) (keys leaving.now)
        sessions.now.sessions) }
{
    operation_of(fields, &Staying { sessions, leaving })
}
