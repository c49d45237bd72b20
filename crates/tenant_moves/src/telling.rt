// Replies to operations.
ghost use Rattle.std.specs.Prelude.{◌≡◌, [], ◌∷◌, ◌++◌, map, OnOk};
ghost use Rattle.std.specs.BTreeSet.{keys};
ghost use Rattle.repl_sessions.specs.Named.{ids_of};
ghost use Rattle.repl_sessions.specs.Inside.Leaving.{remaining_named};
ghost use Rattle.repl_replies.specs.Replies as replies;
ghost use Rattle.repl_replies.specs.Replies.{bytes_of};
ghost use Rattle.repl_replies.specs.Inside.View.{origin_view};
ghost use Rattle.server_rules.specs.Operating.{interruption};
ghost use Rattle.server_rules.specs.Replying.{reply};
ghost use Rattle.tenant_parts.specs.View.{waiting_view};
ghost use Rattle.tenant_parts.specs.Replies.{made_bytes};

use repl_replies::{Body, Origin};
use repl_sessions::Sessions;
use std::alloc::{AllocError, Global};
use std::collections::{BTreeSet, VecDeque};
use tenant_parts::{Batch, Waiting};

// Adds the list of the sessions that are open and not leaving.
pub(crate) fn add_list(
    alloc: Global,
    batch: &mut Batch,
    origin: &Origin,
    sessions: &Sessions,
    leaving: &BTreeSet<u64>,
) -> Result<(), AllocError>
    ensures { OnOk result (made_bytes batch.new ≡ made_bytes batch.old ++ map bytes_of
        (reply (origin_view origin.now) (replies.sessions
        (ids_of (remaining_named (keys leaving.now) sessions.now))) ∷ [])) }
{
    let ids = sessions.list_but(alloc, leaving)?;
    batch.add(origin, Body::Sessions(ids))
}

// Adds for each request that it is interrupted.
pub(crate) fn add_interruptions(
    batch: &mut Batch,
    requests: &VecDeque<Waiting>,
) -> Result<(), AllocError>
    ensures { OnOk result (made_bytes batch.new ≡ made_bytes batch.old
        ++ map bytes_of (map interruption (map waiting_view requests.now.items))) }
{
    for request in requests.iter() {
        batch.add(&*request.origin, Body::Interrupted)?;
    }
    Ok(())
}
