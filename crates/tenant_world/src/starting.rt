// An actor begins its next form, or takes up its next request; that of agents the next action.
ghost use Rattle.std.specs.Prelude.{◌≡◌, ℕ, true, false, None, Some, option_map, IfOk, IfErr, ◌<◌};
ghost use Rattle.std.specs.Prelude.{Err};
ghost use Rattle.std.specs.Prelude.{OnOk, OnErr};
ghost use Rattle.server_rules.specs.Ground.{Ground};
ghost use Rattle.server_rules.specs.Request as rules;
ghost use Rattle.server_rules.specs.Starting.{start_waiting, held_or, start_outcome, next_begun};
ghost use Rattle.server_rules.specs.Starting.{Started};
ghost use Rattle.server_rules.specs.Moves.{Move};
ghost use Rattle.server_rules.specs.Tenant.{TenantState, actor_state, is_held};
ghost use Rattle.server_rules.specs.Tenant.{with_state, with_replies};
ghost use Rattle.server_rules.specs.Deeds.{start_of};
ghost use Rattle.tenant_parts.specs.View.{actor_view, hand_view, waiting_view};
ghost use Rattle.tenant_moves.specs.Told.{TellsMove};
ghost use Rattle.tenant_moves.specs.Starts.{hand_begun, answer_given, given_job, StartsForm};
ghost use Rattle.server_rules.specs.Grounds.{IsRight};
ghost use Rattle.tenant_asks.specs.Memories.{Remembers, opened_by};
ghost use Rattle.tenant_world.specs.Answers.{start_answer_view, AreSameStarts};
ghost use Rattle.tenant_asks.specs.Acting.{AcceptsOutcome, RefusesOutcome, IsActorStep};
ghost use Rattle.tenant_world.specs.Acting.{oldest, with_next_in_hand};
ghost use Rattle.tenant_asks.specs.Acting.{is_accepted};

use crate::actions::start_action;
use crate::answers::{StartAnswer, StartAnswers};
use repl_asks::Job;
use server_rules::{Actor, Refusal};
use std::alloc::{AllocError, Global};
use tenant_asks::{Remembered, interrupt};
use tenant_moves::{
    BegunForm, BegunRequest, NextForm, RequestEffects, begin, begin_request, next_form,
};
use tenant_parts::{ActorState, Aside, Left, Waiting, WorkInHand};

/// The actor begins its next form, or takes up its next request. Where it is refused nothing has
/// changed.
pub(crate) fn start(
    alloc: Global,
    memory: &mut Remembered,
    retries: u32,
    actor: Actor,
    state: &mut ActorState,
    aside: &mut Aside,
) -> Result<StartAnswers, Refusal>
    ensures acted { (g : Ground) (t : ℕ) (q : TenantState) → IsRight g → retries ≡ g.retries
        → Remembers g t memory.old q → IfOk result (λ s. AcceptsOutcome g t actor q
        (start_of g actor (actor_view state.old) q (actor_view state.old).hand)
        memory.new (actor_view state.new) (start_answer_view s.given)) }
    ensures declined { (g : Ground) (t : ℕ) (q : TenantState) → IsRight g → retries ≡ g.retries
        → Remembers g t memory.old q → IfErr result (RefusesOutcome g t q
        (start_of g actor (actor_view state.old) q (actor_view state.old).hand) memory.new) }
    ensures no_memory { (g : Ground) (t : ℕ) (q : TenantState) → Remembers g t memory.old q
        → result ≡ Err Refusal.NoMemory → is_accepted
        (start_of g actor (actor_view state.old) q (actor_view state.old).hand) ≡ true }
    ensures same { IfOk result AreSameStarts }
    ensures step { IsActorStep memory.old memory.new (actor_view state.old) (actor_view state.new)
        result }
{
    let Some(hand) = &state.hand else {
        return start_request(alloc, memory, retries, actor, state, aside);
    };
    if hand.running.is_some() {
        return Err(Refusal::Idle);
    }
    if state.is_closed {
        interrupt(alloc, memory, &hand.origin)?;
        return Ok(StartAnswers::interrupted());
    }
    start_form(alloc, memory, retries, actor, state)
}

// The next form of the request in hand.
fn start_form(
    alloc: Global,
    memory: &mut Remembered,
    retries: u32,
    actor: Actor,
    state: &mut ActorState,
) -> Result<StartAnswers, Refusal>
    ensures acted { (g : Ground) (t : ℕ) (q : TenantState) (h : rules.WorkInHand)
        → retries ≡ g.retries
        → Remembers g t memory.old q → (actor_view state.old).hand ≡ Some h
        → IfOk result (λ s. AcceptsOutcome g t actor q
        (held_or q (start_outcome actor (actor_view state.old)
        (next_begun g h (actor_state actor q) h.forms) q))
        memory.new (actor_view state.new) (start_answer_view s.given)) }
    ensures declined { (g : Ground) (t : ℕ) (q : TenantState) (h : rules.WorkInHand)
        → retries ≡ g.retries
        → Remembers g t memory.old q → (actor_view state.old).hand ≡ Some h
        → IfErr result (RefusesOutcome g t q
        (held_or q (start_outcome actor (actor_view state.old)
        (next_begun g h (actor_state actor q) h.forms) q)) memory.new) }
    ensures no_memory { (g : Ground) (t : ℕ) (q : TenantState) (h : rules.WorkInHand)
        → Remembers g t memory.old q → result ≡ Err Refusal.NoMemory
        → is_accepted (held_or q (start_outcome actor (actor_view state.old)
        (next_begun g h (actor_state actor q) h.forms) q)) ≡ true }
    ensures same { IfOk result AreSameStarts }
    ensures step { IsActorStep memory.old memory.new (actor_view state.old) (actor_view state.new)
        result }
{
    if memory.outbox.is_held() {
        return Err(Refusal::Held);
    }
    let session = memory.state_of(alloc, actor)?;
    let Some(hand) = &state.hand else {
        return Err(Refusal::Idle);
    };
    let next = next_form(alloc, retries, hand, session)?;
    let answers = enter_form(alloc, memory, actor, state, next)?;
    Ok(answers)
}

// The request in hand goes on by its next form. It fails only for want of memory, and then changes
// nothing.
fn enter_form(
    alloc: Global,
    memory: &mut Remembered,
    actor: Actor,
    state: &mut ActorState,
    next: NextForm,
) -> Result<StartAnswers, AllocError>
    ensures acted { (g : Ground) (t : ℕ) (q : TenantState) (h : rules.WorkInHand) (start : Started)
        → Remembers g t memory.old q → is_held q ≡ false → (actor_view state.old).hand ≡ Some h
        → StartsForm start h next → IfOk result (λ s. AcceptsOutcome g t actor q
        (held_or q (start_outcome actor (actor_view state.old) start q))
        memory.new (actor_view state.new) (start_answer_view s.given)) }
    ensures stays { (g : Ground) (t : ℕ) (q : TenantState) → Remembers g t memory.old q
        → OnErr result (Remembers g t memory.new q) }
    ensures kept { OnErr result (actor_view state.new ≡ actor_view state.old) }
    ensures opened { opened_by memory.new ≡ opened_by memory.old }
    ensures same { IfOk result AreSameStarts }
{
    let NextForm { effects, begun } = next;
    let noted = begun_answer(&begun)?;
    post_effects(memory, actor, effects)?;
    let given = put_begun(alloc, state, begun);
    Ok(StartAnswers { given, noted })
}

/// Lets the replies to a request wait, and puts the state in that its session then has. It fails
/// only for want of memory, and then changes nothing.
pub(crate) fn post_effects(
    memory: &mut Remembered,
    actor: Actor,
    effects: RequestEffects,
) -> Result<(), AllocError>
    ensures taken { (g : Ground) (t : ℕ) (q : TenantState) (m : Move) → Remembers g t memory.old q
        → TellsMove m effects → OnOk result (Remembers g t memory.new
        (with_replies m.replies (with_state actor m.state q))) }
    ensures stays { (g : Ground) (t : ℕ) (q : TenantState) → Remembers g t memory.old q
        → OnErr result (Remembers g t memory.new q) }
    ensures opened { opened_by memory.new ≡ opened_by memory.old }
    ensures cells { memory.new.cells ≡ memory.old.cells }
{
    let RequestEffects { batch, state } = effects;
    memory.post_with_state(actor, batch, state)
}

// What is answered. It fails only where 2^63 owners share a part of the job.
fn begun_answer(begun: &Option<BegunForm>) -> Result<StartAnswer, AllocError>
    ensures { IfOk result (λ it. start_answer_view it ≡ answer_given (given_job begun.now)) }
{
    match begun {
        Some(begun) => Ok(StartAnswer::Begun(begun.given.copy()?)),
        None => Ok(StartAnswer::Answered),
    }
}

// Its next form runs, or the request in hand is done.
fn put_begun(alloc: Global, state: &mut ActorState, begun: Option<BegunForm>) -> StartAnswer
    ensures hand { (h : rules.WorkInHand) → (actor_view state.old).hand ≡ Some h
        → actor_view state.new ≡ record (actor_view state.old) { hand = hand_begun h begun } }
    ensures answer { start_answer_view result ≡ answer_given (given_job begun) }
{
    match begun {
        Some(BegunForm { job, given }) => {
            state.hand = state.hand.take().map(|hand| begin(alloc, hand, job));
            StartAnswer::Begun(given)
        }
        None => {
            state.hand = None;
            StartAnswer::Answered
        }
    }
}

// The oldest request that waits; where none does, the next action.
fn start_request(
    alloc: Global,
    memory: &mut Remembered,
    retries: u32,
    actor: Actor,
    state: &mut ActorState,
    aside: &mut Aside,
) -> Result<StartAnswers, Refusal>
    ensures acted { (g : Ground) (t : ℕ) (q : TenantState) → IsRight g → retries ≡ g.retries
        → Remembers g t memory.old q → (actor_view state.old).hand ≡ None
        → IfOk result (λ s. AcceptsOutcome g t actor q
        (start_waiting g actor (actor_view state.old) q (actor_view state.old).waiting)
        memory.new (actor_view state.new) (start_answer_view s.given)) }
    ensures declined { (g : Ground) (t : ℕ) (q : TenantState) → IsRight g → retries ≡ g.retries
        → Remembers g t memory.old q → (actor_view state.old).hand ≡ None
        → IfErr result (RefusesOutcome g t q
        (start_waiting g actor (actor_view state.old) q (actor_view state.old).waiting)
        memory.new) }
    ensures no_memory { (g : Ground) (t : ℕ) (q : TenantState) → Remembers g t memory.old q
        → result ≡ Err Refusal.NoMemory → is_accepted
        (start_waiting g actor (actor_view state.old) q (actor_view state.old).waiting) ≡ true }
    ensures same { IfOk result AreSameStarts }
    ensures step { IsActorStep memory.old memory.new (actor_view state.old) (actor_view state.new)
        result }
{
    let Some(waiting) = oldest(state) else {
        return start_action(alloc, memory, retries, actor, state);
    };
    if memory.outbox.is_held() {
        return Err(Refusal::Held);
    }
    let session = memory.first_state(alloc, actor)?;
    match begin_request(alloc, retries, &memory.spaces, waiting, session, aside) {
        Ok(
            BegunRequest {
                effects,
                hand,
                given,
            },
        ) => {
            let answers = StartAnswers::of(answer_of(given))?;
            post_effects(memory, actor, effects)?;
            leave_request(aside, put_next_in_hand(state, hand));
            Ok(answers)
        }
        Err(_) => Err(Refusal::NoMemory),
    }
}

fn oldest(state: &ActorState) -> Option<&Waiting>
    ensures { option_map (λ w. waiting_view w.now) result ≡ oldest (actor_view state.now).waiting }
{
    state.waiting.front()
}

// The oldest request waits no longer, and is given; and what is in hand is this.
fn put_next_in_hand(state: &mut ActorState, hand: Option<WorkInHand>) -> Option<Waiting>
    ensures { actor_view state.new
        ≡ with_next_in_hand (option_map hand_view hand) (actor_view state.old) }
{
    let begun = state.waiting.pop_front();
    state.hand = hand;
    begun
}

fn leave_request(aside: &mut Aside, request: Option<Waiting>) {
    if let Some(request) = request {
        aside.left = Left::Request(request);
    }
}

fn answer_of(given: Option<Job>) -> StartAnswer
    ensures { start_answer_view result ≡ answer_given given }
{
    match given {
        Some(job) => StartAnswer::Begun(job),
        None => StartAnswer::Answered,
    }
}
