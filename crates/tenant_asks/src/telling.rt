// Whether the refs would tell what a form asks.
ghost use Rattle.std.specs.Prelude.{◌≡◌, is_some};
ghost use Rattle.repl_asks.specs.Inside.View.{ask_view, name_view, intent_view};
ghost use Rattle.server_rules.specs.Asking.{call_of, may_send_call};
ghost use Rattle.ref_table.specs.Calls.{performed, counts, commits};
ghost use Rattle.ref_table.specs.Store.{Store, ref_named};
ghost use Rattle.server_rules.specs.Tenant.{seat_of};
ghost use Rattle.ref_table.specs.Refs.{TableRefs};
ghost use Rattle.tenant_parts.specs.Bounds.{is_bounded};
ghost use Rattle.tenant_parts.specs.Attempts.{Reaches};
ghost use Rattle.tenant_parts.specs.Serving.{ServesWithAttempts};

use ref_history::RingHistory;
use ref_table::RefTable;
use repl_asks::{Ask, Intent};
use repl_values::{Owner, RefName};
use server_rules::Actor;
use std::alloc::Global;
use tenant_parts::Attempts;

/// Whether the refs would tell anything where this is asked. A commit is looked through with memory
/// where there is some (`RefTable::accepts`).
pub(crate) fn is_told(
    alloc: Global,
    refs: &RefTable<RingHistory>,
    attempts: &Attempts,
    actor: Actor,
    ask: &Ask,
) -> bool
    ensures { (s : Store) (r : TableRefs) → ServesWithAttempts refs.now attempts.now s r
        → result ≡ is_some (performed s (call_of (seat_of actor) (ask_view ask.now))).told }
{
    match ask {
        Ask::Resolve { .. } | Ask::Define { .. } | Ask::Enter(_) | Ask::NewRef { .. } => true,
        Ask::NewAtom(_) | Ask::ReadAtom(_) | Ask::SetAtom { .. } | Ask::TryAtom { .. } => true,
        Ask::NewAgent(_) | Ask::ReadAgent(_) => true,
        Ask::AgentFault(_) | Ask::RestartAgent { .. } => true,
        Ask::Send(_) | Ask::Await(_) => attempts.point(actor).is_none(),
        Ask::MaySend(_) => may_send(attempts, actor),
        Ask::Begin => attempts.point(actor).is_none(),
        Ask::Read(name) => is_there(refs, attempts, *name),
        Ask::History(name) => is_counted(refs, attempts, actor, *name),
        Ask::MinHistory { name, set } | Ask::MaxHistory { name, set } => {
            is_bounded(refs, attempts, *name, set.is_some())
        }
        Ask::Commit(intent) => is_committed(alloc, refs, attempts, actor, intent),
    }
}

// Whether an attempt runs, or it is an action that asks.
fn may_send(attempts: &Attempts, actor: Actor) -> bool
    ensures { (s : Store) → Reaches attempts.now s
        → result ≡ is_some (performed s (may_send_call (seat_of actor))).told }
{
    matches!(actor, Actor::Agents) || attempts.point(actor).is_some()
}

// Whether the tenant reaches a ref.
fn is_there(refs: &RefTable<RingHistory>, attempts: &Attempts, name: RefName) -> bool
    ensures { (s : Store) (r : TableRefs) → ServesWithAttempts refs.now attempts.now s r
        → result ≡ is_some (ref_named (name_view name) s) }
{
    refs.bounds(attempts.tenant, name).is_some()
}

fn is_counted(
    refs: &RefTable<RingHistory>,
    attempts: &Attempts,
    actor: Actor,
    name: RefName,
) -> bool
    ensures { (s : Store) (r : TableRefs) → ServesWithAttempts refs.now attempts.now s r → result
        ≡ is_some (performed s (counts (seat_of actor) (name_view name))).told }
{
    if matches!(name.owner, Owner::Shared) && attempts.point(actor).is_some() {
        return false;
    }
    is_there(refs, attempts, name)
}

fn is_bounded(
    refs: &RefTable<RingHistory>,
    attempts: &Attempts,
    name: RefName,
    is_set: bool,
) -> bool
    ensures { (s : Store) (r : TableRefs) → ServesWithAttempts refs.now attempts.now s r → result
        ≡ is_bounded is_set (name_view name).owner (ref_named (name_view name) s) }
{
    if is_set && matches!(name.owner, Owner::Shared) {
        return false;
    }
    is_there(refs, attempts, name)
}

fn is_committed(
    alloc: Global,
    refs: &RefTable<RingHistory>,
    attempts: &Attempts,
    actor: Actor,
    intent: &Intent,
) -> bool
    ensures { (s : Store) (r : TableRefs) → ServesWithAttempts refs.now attempts.now s r
        → result ≡ is_some (performed s (commits (seat_of actor) (intent_view intent.now))).told }
{
    attempts.point(actor).is_some() && refs.accepts(alloc, attempts.tenant, intent)
}
