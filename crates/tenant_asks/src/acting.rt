// What all steps of an actor share.
ghost use Rattle.std.specs.Prelude.{◌≡◌, ◌∷◌, [], ℕ, OnOk, OnErr};
ghost use Rattle.std.specs.Arc.{arc_value};
ghost use Rattle.repl_replies.specs.Replies.{interrupted};
ghost use Rattle.repl_replies.specs.Inside.View.{origin_view};
ghost use Rattle.server_rules.specs.Ground.{Ground};
ghost use Rattle.server_rules.specs.Tenant.{TenantState, with_replies};
ghost use Rattle.server_rules.specs.Replying.{reply};
ghost use Rattle.tenant_asks.specs.Memories.{Remembers, opened_by};

use crate::memory::Remembered;
use repl_replies::{Body, Origin};
use std::alloc::{AllocError, Global};
use std::sync::Arc;
use tenant_parts::Batch;

/// Answers a request that its session was closed. It fails only for want of memory, and then
/// changes nothing.
pub fn interrupt(
    alloc: Global,
    memory: &mut Remembered,
    origin: &Arc<Origin>,
) -> Result<(), AllocError>
    ensures told { (g : Ground) (t : ℕ) (q : TenantState) → Remembers g t memory.old q
        → OnOk result (Remembers g t memory.new
        (with_replies (reply (origin_view (arc_value origin.now)) interrupted ∷ []) q)) }
    ensures stays { (g : Ground) (t : ℕ) (q : TenantState) → Remembers g t memory.old q
        → OnErr result (Remembers g t memory.new q) }
    ensures opened { opened_by memory.new ≡ opened_by memory.old }
{
    let mut batch = Batch::new(alloc);
    batch.add(&**origin, Body::Interrupted)?;
    memory.post(batch)
}
