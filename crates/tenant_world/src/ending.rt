// An evaluation comes back at its end.
ghost use Rattle.std.specs.Prelude.{◌≡◌, ◌≢◌, ℕ, Some, OnOk, IfErr, OnErr, ◌<◌, Err};
ghost use Rattle.std.specs.Prelude.{option_map};
ghost use Rattle.repl_asks.specs.Inside.Jobs.{finished_view};
ghost use Rattle.server_rules.specs.Ground.{Ground};
ghost use Rattle.server_rules.specs.Request as rules;
ghost use Rattle.ref_table.specs.Store.{Store};
ghost use Rattle.server_rules.specs.Tenant.{TenantState};
ghost use Rattle.server_rules.specs.Ending.{end_accepted};
ghost use Rattle.tenant_parts.specs.Spelled.{SpellsEnd};
ghost use Rattle.tenant_parts.specs.View.{actor_view, run_view};
ghost use Rattle.server_rules.specs.Grounds.{IsRight};
ghost use Rattle.server_rules.specs.DeedResult.{carried_out};
ghost use Rattle.tenant_asks.specs.Memories.{Remembers, opened_by};
ghost use Rattle.tenant_world.specs.Answers.{told_ending};
ghost use Rattle.tenant_asks.specs.Acting.{AcceptsOutcome, IsActorStep};
ghost use Rattle.tenant_world.specs.Comparing.{ending_refusal, refusal_in, compared_run};
ghost use Rattle.tenant_world.specs.Comparing.{PassesComparison, FailsComparison};
ghost use Rattle.server_rules.specs.Plan.{form_finished};
ghost use Rattle.repl_asks.specs.Job.{EndingData};
ghost use Rattle.tenant_moves.specs.Endings.{hand_after};
ghost use Rattle.tenant_world.specs.FormEnds.{AcceptsEnd, RefusesEnd, LacksMemoryForEnd};
ghost use Rattle.tenant_world.specs.FormEnds.{AcceptsFinish, RefusesFinish, LacksMemoryForFinish};
ghost use Rattle.tenant_world.specs.FormEnds.{end_site};

use crate::actions::{prepare_end, settle_end};
use crate::answers::{EndAnswer, EndedEvaluation};
use crate::starting::post_effects;
use repl_asks::Finished;
use server_rules::{Actor, Refusal};
use std::alloc::{AllocError, Global};
use tenant_asks::{Remembered, interrupt};
use tenant_moves::{After, form_end, go_on};
use tenant_parts::{ActorState, Aside, Attempts, Left, Run};
use trace_comparison::laws::{equal_traces_differ_nowhere, first_difference_is_unique};
use trace_comparison::{first_difference, same_job};

/// The form of the actor that runs has ended so. Where it is refused nothing has changed.
pub(crate) fn end(
    alloc: Global,
    memory: &mut Remembered,
    attempts: &mut Attempts,
    actor: Actor,
    state: &mut ActorState,
    ending: &EndedEvaluation<'_>,
    aside: &mut Aside,
) -> Result<EndAnswer, Refusal>
    requires { SpellsEnd aside.old.spelled (told_ending ending.now).end }
    ensures acted { AcceptsEnd actor (told_ending ending.now)
        (end_site memory.old attempts.old (actor_view state.old))
        (end_site memory.new attempts.new (actor_view state.new)) result }
    ensures declined { RefusesEnd actor (told_ending ending.now)
        (end_site memory.old attempts.old (actor_view state.old))
        (end_site memory.new attempts.new (actor_view state.new)) result }
    ensures no_memory { LacksMemoryForEnd actor (told_ending ending.now)
        (end_site memory.old attempts.old (actor_view state.old)) result }
    ensures step { IsActorStep memory.old memory.new (actor_view state.old) (actor_view state.new)
        result }
{
    compare_if_due(memory, state, ending)?;
    finish(
        alloc,
        memory,
        attempts,
        actor,
        state,
        ending.finished,
        aside,
    )
}

/// The form of the actor that runs has ended so, by the job and the trace that are kept of it;
/// nothing is compared. Where it is refused nothing has changed.
pub(crate) fn finish(
    alloc: Global,
    memory: &mut Remembered,
    attempts: &mut Attempts,
    actor: Actor,
    state: &mut ActorState,
    finished: &Finished,
    aside: &mut Aside,
) -> Result<EndAnswer, Refusal>
    requires { SpellsEnd aside.old.spelled (finished_view finished.now) }
    ensures acted { AcceptsFinish actor (finished_view finished.now)
        (end_site memory.old attempts.old (actor_view state.old))
        (end_site memory.new attempts.new (actor_view state.new)) result }
    ensures declined { RefusesFinish actor
        (end_site memory.old attempts.old (actor_view state.old))
        (end_site memory.new attempts.new (actor_view state.new)) result }
    ensures no_memory { LacksMemoryForFinish actor
        (end_site memory.old attempts.old (actor_view state.old)) result }
    ensures step { IsActorStep memory.old memory.new (actor_view state.old) (actor_view state.new)
        result }
{
    let Some(hand) = &state.hand else {
        return Err(Refusal::Idle);
    };
    let Some(_run) = &hand.running else {
        return Err(Refusal::Idle);
    };
    if state.is_closed {
        interrupt(alloc, memory, &hand.origin)?;
        attempts.leave(actor);
        return Ok(EndAnswer::Interrupted);
    }
    if memory.outbox.is_held() {
        return Err(Refusal::Held);
    }
    accept(alloc, memory, actor, state, finished, aside)?;
    attempts.leave(actor);
    Ok(EndAnswer::Finished)
}

// Whether the ending may be that of the form that runs. Where the form's end is interrupted or held
// back whatever it is, nothing is compared.
fn compare_if_due(
    memory: &Remembered,
    state: &ActorState,
    ending: &EndedEvaluation<'_>,
) -> Result<(), Refusal>
    ensures free { IfErr result (λ why. why ≢ Refusal.Held) }
    ensures frugal { IfErr result (λ why. why ≢ Refusal.NoMemory) }
    ensures passed { (g : Ground) (t : ℕ) (q : TenantState) → IsRight g → Remembers g t memory.now q
        → OnOk result (PassesComparison g (actor_view state.now) q (told_ending ending.now)) }
    ensures failed { (g : Ground) (t : ℕ) (q : TenantState) → IsRight g → Remembers g t memory.now q
        → IfErr result (FailsComparison g (actor_view state.now) q (told_ending ending.now)) }
{
    match run_to_compare(memory, state) {
        Some(run) => compare(run, ending),
        None => Ok(()),
    }
}

// The form that runs, unless its end is interrupted or held back whatever it is.
fn run_to_compare<'a>(memory: &Remembered, state: &'a ActorState) -> Option<&'a Run>
    ensures { (g : Ground) (t : ℕ) (q : TenantState) → Remembers g t memory.now q
        → option_map (λ run. run_view run.now) result ≡ compared_run (actor_view state.now) q }
{
    if state.is_closed || memory.outbox.is_held() {
        return None;
    }
    state.hand.as_ref()?.running.as_ref()
}

// Whether the ending is of the form that runs: its job is that job, and its trace the one that was
// kept.
fn compare(run: &Run, ending: &EndedEvaluation<'_>) -> Result<(), Refusal>
    ensures free { IfErr result (λ why. why ≢ Refusal.Held) }
    ensures frugal { IfErr result (λ why. why ≢ Refusal.NoMemory) }
    ensures told { (g : Ground) → IsRight g
        → refusal_in result ≡ ending_refusal g (run_view run.now) (told_ending ending.now) }
{
    first_difference_is_unique();
    equal_traces_differ_nowhere();
    if !same_job(ending.job, &run.job) {
        return Err(Refusal::TraceMismatch(0));
    }
    match first_difference(ending.trace, &run.trace) {
        Some(place) => Err(Refusal::TraceMismatch(place as u64)),
        None => Ok(()),
    }
}

// The form is answered, and the request goes on behind it or is done. What an action gives is the
// state of its agent, and what it sends is sent.
fn accept(
    alloc: Global,
    memory: &mut Remembered,
    actor: Actor,
    state: &mut ActorState,
    finished: &Finished,
    aside: &mut Aside,
) -> Result<(), AllocError>
    requires { SpellsEnd aside.old.spelled (finished_view finished.now) }
    ensures acted { (g : Ground) (q : TenantState) (s : Store) (h : rules.WorkInHand)
        (run : rules.Run)
        (e : EndingData) → e.end ≡ finished_view finished.now
        → Remembers g s.tenant memory.old q → (actor_view state.old).hand ≡ Some h
        → h.running ≡ Some run
        → OnOk result (AcceptsOutcome g s.tenant actor q (carried_out s (end_accepted actor
        (actor_view state.old) h run e q)).outcome memory.new
        (actor_view state.new) form_finished) }
    ensures stays { (g : Ground) (t : ℕ) (q : TenantState) → Remembers g t memory.old q
        → OnErr result (Remembers g t memory.new q) }
    ensures actor { OnErr result (actor_view state.new ≡ actor_view state.old) }
    ensures opened { opened_by memory.new ≡ opened_by memory.old }
{
    let session = memory.state_of(alloc, actor)?;
    let Some(hand) = &state.hand else {
        return Ok(());
    };
    let agents = &mut memory.cells.agents;
    let end = prepare_end(alloc, agents, actor, hand, finished.end())?;
    let replies = aside.replies_to(&*hand.origin);
    let (effects, after) = form_end(alloc, hand, finished, replies, session)?;
    post_effects(memory, actor, effects)?;
    settle_end(&mut memory.cells.agents, end);
    aside.left = put_after(state, after);
    Ok(())
}

// The request goes on behind a form, or is done. What it needs no more is given.
fn put_after(state: &mut ActorState, after: After) -> Left
    ensures { (h : rules.WorkInHand) → (actor_view state.old).hand ≡ Some h
        → actor_view state.new ≡ record (actor_view state.old) { hand = hand_after h after } }
{
    let Some(mut hand) = state.hand.take() else {
        return Left::Nothing;
    };
    match after {
        After::Over => Left::WorkInHand(hand),
        next => {
            let run = hand.running.take();
            state.hand = go_on(hand, next);
            match run {
                Some(run) => Left::Form(run),
                None => Left::Nothing,
            }
        }
    }
}
