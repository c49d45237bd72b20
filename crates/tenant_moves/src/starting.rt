// A form of a request begins.
ghost use Rattle.std.specs.Prelude.{◌≡◌, option_map, IfOk};
ghost use Rattle.repl_asks.specs.Inside.Jobs.{job_view};
ghost use Rattle.repl_sessions.specs.Inside.StateView.{state_view};
ghost use Rattle.name_spaces.specs.Inside.Seen.{namespaces_of};
ghost use Rattle.server_rules.specs.Ground.{Ground};
ghost use Rattle.server_rules.specs.Readings.{AreRight};
ghost use Rattle.server_rules.specs.Starting.{form_job, next_begun, text_begun};
ghost use Rattle.repl_asks.specs.Job as jobs;
ghost use Rattle.value_data.specs.Inside.View.{view};
ghost use Rattle.repl_replies.specs.Inside.View.{origin_view};
ghost use Rattle.tenant_parts.specs.View.{hand_view, waiting_view};
ghost use Rattle.tenant_moves.specs.Starts.{first_item, form_begun_with, request_over, with_run};
ghost use Rattle.tenant_moves.specs.Starts.{not_found, StartsForm, BeginsRequest};

use crate::effects::RequestEffects;
use crate::request::{OpenedRequest, open_request};
use name_spaces::Spaces;
use repl_asks::{Job, Work};
use repl_replies::{Body, Origin};
use repl_sessions::SessionState;
use repl_values::{Value, copy, copy_text};
use std::alloc::{AllocError, Global};
use tenant_parts::{Aside, Run, Waiting, WorkInHand};

/// A form that begins: its job, and the same once more to be given out.
#[derive(Drop)]
pub struct BegunForm {
    pub job: Job,
    pub given: Job,
}

/// What a request in hand comes to where it goes on: its next form begins, or it is done.
#[derive(Drop)]
pub struct NextForm {
    pub effects: RequestEffects,
    pub begun: Option<BegunForm>,
}

/// What a request comes to that is taken up: what of it is in hand, and the job of its first form,
/// to be given out.
#[derive(Drop)]
pub struct BegunRequest {
    pub effects: RequestEffects,
    pub hand: Option<WorkInHand>,
    pub given: Option<Job>,
}

/// The next form of a request in hand, whose session has this state. It fails only for want of
/// memory.
pub fn next_form(
    alloc: Global,
    retries: u32,
    hand: &WorkInHand,
    state: SessionState,
) -> Result<NextForm, AllocError>
    ensures { (g : Ground) → retries ≡ g.retries → IfOk result (StartsForm
        (next_begun g (hand_view hand.now) (state_view state) (hand_view hand.now).forms)
        (hand_view hand.now)) }
{
    match first_form(hand) {
        Some(form) => run_form(alloc, retries, hand, form, state),
        None => end_request(alloc, hand, state),
    }
}

fn first_form(hand: &WorkInHand) -> Option<&Value>
    ensures { option_map (λ v. view v.now) result ≡ first_item (hand_view hand.now).forms }
{
    hand.forms.front()
}

fn run_form(
    alloc: Global,
    retries: u32,
    hand: &WorkInHand,
    form: &Value,
    state: SessionState,
) -> Result<NextForm, AllocError>
    ensures { (g : Ground) → retries ≡ g.retries → IfOk result (StartsForm
        (form_begun_with g (hand_view hand.now) (state_view state) (view form.now))
        (hand_view hand.now)) }
{
    let effects = RequestEffects::new(alloc, state);
    let job = job_of(retries, hand, form)?;
    let given = job_of(retries, hand, form)?;
    let begun = Some(BegunForm { job, given });
    Ok(NextForm { effects, begun })
}

// No form is left.
fn end_request(
    alloc: Global,
    hand: &WorkInHand,
    state: SessionState,
) -> Result<NextForm, AllocError>
    ensures { IfOk result (StartsForm (request_over (hand_view hand.now) (state_view state))
        (hand_view hand.now)) }
{
    let mut effects = RequestEffects::new(alloc, state);
    effects.end_request(&hand.origin, &hand.manner, &hand.fault, None)?;
    Ok(NextForm {
        effects,
        begun: None,
    })
}

fn job_of(retries: u32, hand: &WorkInHand, form: &Value) -> Result<Job, AllocError>
    ensures { (g : Ground) → retries ≡ g.retries → IfOk result (λ job. job_view job
        ≡ form_job g (hand_view hand.now) (jobs.form (view form.now))) }
{
    Ok(Job {
        work: Work::Form(copy(form)?),
        namespace: copy_text(&hand.namespace)?,
        retries,
    })
}

/// The request in hand once its next form runs, as this job.
pub fn begin(alloc: Global, mut hand: WorkInHand, job: Job) -> WorkInHand
    ensures { hand_view result ≡ with_run (hand_view hand) (job_view job) }
{
    drop(hand.forms.pop_front());
    hand.running = Some(Run {
        job,
        trace: Vec::new(alloc),
    });
    hand
}

/// Takes up a request, whose session has this state: its text is read, unless it was before, and
/// its first form begins.
/// It fails only for want of memory.
pub fn begin_request(
    alloc: Global,
    retries: u32,
    spaces: &Spaces,
    waiting: &Waiting,
    state: SessionState,
    aside: &mut Aside,
) -> Result<BegunRequest, AllocError>
    ensures { (g : Ground) → AreRight g.readings → retries ≡ g.retries → IfOk result (BeginsRequest
        (text_begun g (namespaces_of spaces.now) (waiting_view waiting.now).origin
        (state_view state) (waiting_view waiting.now).text)) }
{
    match open_request(alloc, spaces, waiting, &state, aside)? {
        OpenedRequest::WorkInHand(hand) => begin_hand(alloc, retries, hand, state),
        OpenedRequest::NamespaceNotFound => refuse(alloc, &*waiting.origin, state),
    }
}

fn begin_hand(
    alloc: Global,
    retries: u32,
    hand: WorkInHand,
    state: SessionState,
) -> Result<BegunRequest, AllocError>
    ensures { (g : Ground) → retries ≡ g.retries → IfOk result (BeginsRequest
        (next_begun g (hand_view hand) (state_view state) (hand_view hand).forms)) }
{
    let NextForm { effects, begun } = next_form(alloc, retries, &hand, state)?;
    Ok(match begun {
        Some(BegunForm { job, given }) => BegunRequest {
            effects,
            hand: Some(begin(alloc, hand, job)),
            given: Some(given),
        },
        None => BegunRequest {
            effects,
            hand: None,
            given: None,
        },
    })
}

fn refuse(alloc: Global, origin: &Origin, state: SessionState) -> Result<BegunRequest, AllocError>
    ensures { IfOk result (BeginsRequest (not_found (origin_view origin.now) (state_view state))) }
{
    let mut effects = RequestEffects::new(alloc, state);
    effects.batch.add(origin, Body::NamespaceNotFound)?;
    Ok(BegunRequest {
        effects,
        hand: None,
        given: None,
    })
}
