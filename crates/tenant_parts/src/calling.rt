// What a form asks of the refs.
ghost use Rattle.std.specs.Prelude.{◌≡◌, ◌<◌, IfOk, OnErr};
ghost use Rattle.repl_asks.specs.Inside.View.{ask_view, name_view, intent_view};
ghost use Rattle.value_data.specs.Inside.View.{view};
ghost use Rattle.server_rules.specs.Asking.{may_send_call};
ghost use Rattle.ref_table.specs.Calls.{performed, makes, begins, reads, counts, commits};
ghost use Rattle.ref_table.specs.Calls.{outside};
ghost use Rattle.ref_table.specs.Store.{Store};
ghost use Rattle.server_rules.specs.Tenant.{seat_of};
ghost use Rattle.ref_table.specs.Refs.{TableRefs};
ghost use Rattle.ref_table.specs.Standing.{counter_of};
ghost use Rattle.ref_table.specs.Told.{setting_told};
ghost use Rattle.tenant_parts.specs.Attempts.{Reaches};
ghost use Rattle.tenant_parts.specs.Promises.{TellsCall, ServesStill, CountsIfTold};
ghost use Rattle.tenant_parts.specs.Bounds.{least_call, most_call};
ghost use Rattle.tenant_parts.specs.Serving.{ServesWithAttempts, PerformsCall};
ghost use Rattle.tenant_parts.specs.AnswerCopies.{told_answer, AreCopies};

use crate::attempts::Attempts;
use crate::copies::AnswerCopies;
use ref_history::{Bounds, RingHistory};
use ref_table::{CommitOutcome, RefTable};
use repl_asks::{Ask, Intent, Reading};
use repl_values::{Owner, RefName, Value, copy};
use server_rules::Actor;
use std::alloc::{AllocError, Global};

/// What the refs tell where this is asked, if they tell anything: they do not where a ref or an
/// attempt is not there. It fails only for want of memory. Then, and where nothing is told, nothing
/// has changed.
pub fn call(
    alloc: Global,
    refs: &mut RefTable<RingHistory>,
    attempts: &mut Attempts,
    actor: Actor,
    ask: &Ask,
) -> Result<Option<AnswerCopies>, AllocError>
    requires { counter_of refs.old < u128.MAX }
    ensures called { TellsCall actor (ask_view ask.now) refs.old attempts.old refs.new attempts.new
        result }
    ensures stays { ServesStill refs.old attempts.old refs.new attempts.new result }
    ensures counted { CountsIfTold refs.old refs.new result }
    ensures copies { IfOk result AreCopies }
{
    match ask {
        Ask::Resolve { .. } | Ask::Define { .. } | Ask::Enter(_) => Ok(Some(AnswerCopies::done())),
        Ask::NewAtom(_) | Ask::ReadAtom(_) => Ok(Some(AnswerCopies::done())),
        Ask::SetAtom { .. } | Ask::TryAtom { .. } => Ok(Some(AnswerCopies::done())),
        Ask::NewAgent(_) | Ask::ReadAgent(_) => Ok(Some(AnswerCopies::done())),
        Ask::AgentFault(_) | Ask::RestartAgent { .. } => Ok(Some(AnswerCopies::done())),
        Ask::Send(_) => Ok(stand_outside(attempts, actor)),
        Ask::Await(_) => Ok(stand_outside(attempts, actor)),
        Ask::MaySend(_) => Ok(stand_to_send(attempts, actor)),
        Ask::NewRef {
            value,
            min_history,
            max_history,
        } => {
            let bounds = Bounds {
                least: *min_history,
                most: *max_history,
            };
            make(alloc, refs, attempts, value, bounds)
        }
        Ask::Begin => begin(refs, attempts, actor),
        Ask::Read(name) => read(refs, attempts, actor, *name),
        Ask::History(name) => Ok(count(refs, attempts, actor, *name)),
        Ask::MinHistory { name, set } => Ok(tell_or_set_least(refs, attempts, *name, *set)),
        Ask::MaxHistory { name, set } => Ok(tell_or_set_most(refs, attempts, *name, *set)),
        Ask::Commit(intent) => commit(alloc, refs, attempts, actor, intent),
    }
}

// A ref is made.
fn make(
    alloc: Global,
    refs: &mut RefTable<RingHistory>,
    attempts: &Attempts,
    value: &Value,
    bounds: Bounds,
) -> Result<Option<AnswerCopies>, AllocError>
    ensures called { (s : Store) (r : TableRefs) → ServesWithAttempts refs.old attempts.now s r
        → IfOk result (λ it. PerformsCall refs.new attempts.now r (told_answer it)
        (performed s (makes (view value.now) bounds.least bounds.most))) }
    ensures stays { (s : Store) (r : TableRefs) → ServesWithAttempts refs.old attempts.now s r
        → OnErr result (ServesWithAttempts refs.new attempts.now s r) }
    ensures counter { counter_of refs.new ≡ counter_of refs.old }
    ensures copies { IfOk result AreCopies }
{
    let owner = Owner::Tenant(attempts.tenant);
    let name = refs.make(alloc, owner, copy(value)?, bounds)?;
    Ok(Some(AnswerCopies::of_name(name)))
}

// An attempt begins.
fn begin(
    refs: &RefTable<RingHistory>,
    attempts: &mut Attempts,
    actor: Actor,
) -> Result<Option<AnswerCopies>, AllocError>
    ensures called { (s : Store) (r : TableRefs) → ServesWithAttempts refs.now attempts.old s r
        → IfOk result (λ it. PerformsCall refs.now attempts.new r (told_answer it)
        (performed s (begins (seat_of actor)))) }
    ensures stays { (s : Store) (r : TableRefs) → ServesWithAttempts refs.now attempts.old s r
        → OnErr result (ServesWithAttempts refs.now attempts.new s r) }
    ensures copies { IfOk result AreCopies }
{
    if attempts.point(actor).is_some() {
        return Ok(None);
    }
    attempts.begin(actor, refs.begin())?;
    Ok(Some(AnswerCopies::done()))
}

// An attempt has to run, but in an action.
fn stand_to_send(attempts: &Attempts, actor: Actor) -> Option<AnswerCopies>
    ensures told { (s : Store) → Reaches attempts.now s
        → told_answer result ≡ (performed s (may_send_call (seat_of actor))).told }
    ensures copies { AreCopies result }
{
    if matches!(actor, Actor::Agents) {
        return Some(AnswerCopies::done());
    }
    let _point = attempts.point(actor)?;
    Some(AnswerCopies::done())
}

// None may run.
fn stand_outside(attempts: &Attempts, actor: Actor) -> Option<AnswerCopies>
    ensures told { (s : Store) → Reaches attempts.now s
        → told_answer result ≡ (performed s (outside (seat_of actor))).told }
    ensures copies { AreCopies result }
{
    match attempts.point(actor) {
        Some(_) => None,
        None => Some(AnswerCopies::done()),
    }
}

// A ref is read. The attempt that is to be made again is over.
fn read(
    refs: &mut RefTable<RingHistory>,
    attempts: &mut Attempts,
    actor: Actor,
    name: RefName,
) -> Result<Option<AnswerCopies>, AllocError>
    ensures called { (s : Store) (r : TableRefs) → ServesWithAttempts refs.old attempts.old s r
        → IfOk result (λ it. PerformsCall refs.new attempts.new r (told_answer it)
        (performed s (reads (seat_of actor) (name_view name)))) }
    ensures stays { (s : Store) (r : TableRefs) → ServesWithAttempts refs.old attempts.old s r
        → OnErr result (ServesWithAttempts refs.new attempts.new s r) }
    ensures counter { counter_of refs.new ≡ counter_of refs.old }
    ensures copies { IfOk result AreCopies }
{
    let point = attempts.point(actor);
    match refs.read(attempts.tenant, name, point)? {
        Some(Reading::Found(value)) => Ok(Some(AnswerCopies::of_found(value)?)),
        Some(Reading::Retry) => {
            attempts.leave(actor);
            Ok(Some(AnswerCopies::retry()))
        }
        None => Ok(None),
    }
}

// How long a ref's history is. In an attempt that of a shared ref is not told.
fn count(
    refs: &RefTable<RingHistory>,
    attempts: &Attempts,
    actor: Actor,
    name: RefName,
) -> Option<AnswerCopies>
    ensures called { (s : Store) (r : TableRefs) → ServesWithAttempts refs.now attempts.now s r
        → PerformsCall refs.now attempts.now r (told_answer result)
        (performed s (counts (seat_of actor) (name_view name))) }
    ensures copies { AreCopies result }
{
    if matches!(name.owner, Owner::Shared) && attempts.point(actor).is_some() {
        return None;
    }
    let count = refs.history_count(attempts.tenant, name)?;
    Some(AnswerCopies::of_number(count))
}

// The lower bound of a ref's history, or the ref where it is set.
fn tell_or_set_least(
    refs: &mut RefTable<RingHistory>,
    attempts: &Attempts,
    name: RefName,
    set: Option<u64>,
) -> Option<AnswerCopies>
    ensures called { (s : Store) (r : TableRefs) → ServesWithAttempts refs.old attempts.now s r
        → PerformsCall refs.new attempts.now r (told_answer result)
        (performed s (least_call (name_view name) set)) }
    ensures counter { counter_of refs.new ≡ counter_of refs.old }
    ensures copies { AreCopies result }
{
    match set {
        Some(least) => ref_if_set(name, refs.set_least(attempts.tenant, name, least)),
        None => Some(AnswerCopies::of_number(refs.bounds(attempts.tenant, name)?.least)),
    }
}

// The upper bound, likewise.
fn tell_or_set_most(
    refs: &mut RefTable<RingHistory>,
    attempts: &Attempts,
    name: RefName,
    set: Option<u64>,
) -> Option<AnswerCopies>
    ensures called { (s : Store) (r : TableRefs) → ServesWithAttempts refs.old attempts.now s r
        → PerformsCall refs.new attempts.now r (told_answer result)
        (performed s (most_call (name_view name) set)) }
    ensures counter { counter_of refs.new ≡ counter_of refs.old }
    ensures copies { AreCopies result }
{
    match set {
        Some(most) => ref_if_set(name, refs.set_most(attempts.tenant, name, most)),
        None => Some(AnswerCopies::of_number(refs.bounds(attempts.tenant, name)?.most)),
    }
}

fn ref_if_set(name: RefName, is_set: bool) -> Option<AnswerCopies>
    ensures told { told_answer result ≡ setting_told name is_set }
    ensures copies { AreCopies result }
{
    if is_set {
        Some(AnswerCopies::of_name(name))
    } else {
        None
    }
}

// What an attempt changed is to stand for all. The attempt is over.
fn commit(
    alloc: Global,
    refs: &mut RefTable<RingHistory>,
    attempts: &mut Attempts,
    actor: Actor,
    intent: &Intent,
) -> Result<Option<AnswerCopies>, AllocError>
    requires { counter_of refs.old < u128.MAX }
    ensures called { (s : Store) (r : TableRefs) → ServesWithAttempts refs.old attempts.old s r
        → IfOk result (λ it. PerformsCall refs.new attempts.new r (told_answer it)
        (performed s (commits (seat_of actor) (intent_view intent.now)))) }
    ensures stays { (s : Store) (r : TableRefs) → ServesWithAttempts refs.old attempts.old s r
        → OnErr result (ServesWithAttempts refs.new attempts.new s r) }
    ensures counted { CountsIfTold refs.old refs.new result }
    ensures copies { IfOk result AreCopies }
{
    let Some(point) = attempts.point(actor) else {
        return Ok(None);
    };
    match refs.commit(alloc, attempts.tenant, intent, point)? {
        CommitOutcome::Committed => {
            attempts.leave(actor);
            Ok(Some(AnswerCopies::committed()))
        }
        CommitOutcome::Conflict => {
            attempts.leave(actor);
            Ok(Some(AnswerCopies::conflict()))
        }
        CommitOutcome::Faulted(fault) => {
            let told = AnswerCopies::faulted(fault)?;
            attempts.leave(actor);
            Ok(Some(told))
        }
        CommitOutcome::Refused => Ok(None),
    }
}
