// A piece's messages are carried out, all or none.
ghost use Rattle.std.specs.Prelude.{◌≡◌, ◌++◌, ℕ, map, Ok, OnOk, OnErr};
ghost use Rattle.std.specs.BTreeSet.{keys};
ghost use Rattle.bencode_wire.specs.Inside.View.{tree_view};
ghost use Rattle.server_rules.specs.Ground.{Ground};
ghost use Rattle.server_rules.specs.Tenant.{TenantState};
ghost use Rattle.tenant_parts.specs.View.{actors_view};
ghost use Rattle.tenant_parts.specs.Replies.{made_bytes, waiting_bytes};
ghost use Rattle.tenant_moves.specs.Holds.{PartsStandFor, AreSeated};
ghost use Rattle.tenant_moves.specs.Scene.{all_vacated};
ghost use Rattle.tenant_moves.specs.Handled.{with_piece};
ghost use Rattle.repl_sessions.specs.Inside.Leaving.{remaining_named};

use crate::changes::undo_all;
use crate::draft::Draft;
use bencode_wire::Ben;
use repl_sessions::Sessions;
use server_rules::Actor;
use std::alloc::{AllocError, Global};
use std::collections::{BTreeSet, VecDeque};
use tenant_parts::{Actors, Batch, Outbox};

/// Carries out the messages of a piece, oldest first, and then tells of a fault of the stream,
/// where the piece has one. It fails only for want of memory, and then changes nothing.
///
/// A message takes about the logarithm of the number of sessions, and what it asks for; a list of
/// the sessions looks at each.
pub(crate) fn handle_messages(
    alloc: Global,
    messages: VecDeque<Ben>,
    is_broken: bool,
    sessions: &mut Sessions,
    actors: &mut Actors,
    outbox: &mut Outbox,
) -> Result<(), AllocError>
    requires { AreSeated sessions.old (actors_view actors.old) }
    ensures taken { (g : Ground) (t : ℕ) (q : TenantState)
        → PartsStandFor g t q sessions.old (actors_view actors.old) (waiting_bytes outbox.old)
        → OnOk result (PartsStandFor g t (with_piece g t (map tree_view messages.items) is_broken q)
        sessions.new (actors_view actors.new) (waiting_bytes outbox.new)) }
    ensures sessions_stay { OnErr result (sessions.new ≡ sessions.old) }
    ensures actors_stay { OnErr result (actors_view actors.new ≡ actors_view actors.old) }
    ensures replies_stay { OnErr result (waiting_bytes outbox.new ≡ waiting_bytes outbox.old) }
    ensures seated { AreSeated sessions.new (actors_view actors.new) }
{
    let mut draft = Draft::new(alloc);
    let filled = draft.fill(messages, is_broken, sessions, actors);
    let Draft {
        log,
        leaving,
        batch,
        ..
    } = draft;
    match post_filled(filled, outbox, batch) {
        Ok(()) => {
            close_all(leaving, sessions, actors);
            Ok(())
        }
        Err(refused) => {
            undo_all(log, sessions, actors);
            Err(refused)
        }
    }
}

// Lets the replies of a batch wait, where all was carried out.
fn post_filled(
    filled: Result<(), AllocError>,
    outbox: &mut Outbox,
    batch: Batch,
) -> Result<(), AllocError>
    ensures posted { OnOk result (waiting_bytes outbox.new
        ≡ waiting_bytes outbox.old ++ made_bytes batch) }
    ensures filled { OnOk result (filled ≡ Ok tt) }
    ensures stays { OnErr result (waiting_bytes outbox.new ≡ waiting_bytes outbox.old) }
{
    filled?;
    outbox.post(batch)
}

// Closes the sessions of these numbers. It takes no memory.
fn close_all(mut leaving: BTreeSet<u64>, sessions: &mut Sessions, actors: &mut Actors)
    ensures sessions { sessions.new ≡ remaining_named (keys leaving) sessions.old }
    ensures actors { actors_view actors.new ≡ all_vacated (keys leaving) (actors_view actors.old) }
{
    while let Some(number) = leaving.pop_first() {
        sessions.close(number);
        actors.vacate(Actor::Session(number));
    }
}
