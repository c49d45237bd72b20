// An action that was sent to an agent begins, and ends.
ghost use Rattle.std.specs.Prelude.{◌≡◌, ◌≤◌, ℕ, Err, true, length, option_map, IfOk, IfErr};
ghost use Rattle.repl_asks.specs.Inside.Jobs.{job_view, end_view};
ghost use Rattle.private_cells.specs.Inside.View.{agents_view, room_of};
ghost use Rattle.server_rules.specs.Cells.{next_action};
ghost use Rattle.server_rules.specs.Ground.{Ground};
ghost use Rattle.server_rules.specs.Starting.{action_for, action_job, start_action};
ghost use Rattle.server_rules.specs.Tenant.{TenantState};
ghost use Rattle.tenant_parts.specs.View.{actor_view, hand_view};
ghost use Rattle.tenant_asks.specs.Acting.{AcceptsOutcome, RefusesOutcome, IsActorStep};
ghost use Rattle.tenant_asks.specs.Acting.{is_accepted};
ghost use Rattle.tenant_world.specs.Actions.{next_action_view, hand_of_action, action_end};
ghost use Rattle.tenant_world.specs.Actions.{agents_behind};
ghost use Rattle.tenant_world.specs.Actions.{action_end_view, sends_of};
ghost use Rattle.tenant_world.specs.Answers.{start_answer_view, AreSameStarts};
ghost use Rattle.tenant_asks.specs.Memories.{Remembers};

use crate::answers::{StartAnswer, StartAnswers};
use private_cells::{Action, Agents};
use repl_asks::{End, Job, Work};
use repl_values::{Fault, Value, copy, copy_text};
use server_rules::{Actor, Refusal};
use std::alloc::{AllocError, Global};
use std::collections::VecDeque;
use std::sync::{Arc, ArcStr};
use tenant_asks::{Outgoing, Remembered, Sender, send_all, sends_in};
use tenant_parts::{ActorState, Manner, Run, WorkInHand};

/// The action that begins next, and the state of its agent.
#[derive(Clone, Copy)]
pub(crate) struct NextAction<'a> {
    state: &'a Value,
    action: &'a Action,
}

/// What the end of a form makes of the agents.
#[derive(Drop)]
pub(crate) enum ActionEnd {
    /// It is no action.
    Nothing,
    /// The state of the agent, and what is sent.
    Finishes {
        state: Value,
        sends: VecDeque<Outgoing>,
    },
    Fails(Fault),
}

/// The next action begins, where the actor is that of agents and one waits. Where it is refused
/// nothing has changed.
pub(crate) fn start_action(
    alloc: Global,
    memory: &mut Remembered,
    retries: u32,
    actor: Actor,
    state: &mut ActorState,
) -> Result<StartAnswers, Refusal>
    ensures acted { (g : Ground) (t : ℕ) (q : TenantState) → retries ≡ g.retries
        → Remembers g t memory.old q
        → IfOk result (λ s. AcceptsOutcome g t actor q
        (start_action g actor (actor_view state.old) q (action_for actor q.cells.agents))
        memory.new (actor_view state.new) (start_answer_view s.given)) }
    ensures declined { (g : Ground) (t : ℕ) (q : TenantState) → retries ≡ g.retries
        → Remembers g t memory.old q → IfErr result (RefusesOutcome g t q
        (start_action g actor (actor_view state.old) q (action_for actor q.cells.agents))
        memory.new) }
    ensures no_memory { (g : Ground) (t : ℕ) (q : TenantState) → Remembers g t memory.old q
        → result ≡ Err Refusal.NoMemory → is_accepted
        (start_action g actor (actor_view state.old) q (action_for actor q.cells.agents)) ≡ true }
    ensures same { IfOk result AreSameStarts }
    ensures step { IsActorStep memory.old memory.new (actor_view state.old) (actor_view state.new)
        result }
{
    let Some(next) = next_for(actor, &memory.cells.agents) else {
        return Err(Refusal::Idle);
    };
    if memory.outbox.is_held() {
        return Err(Refusal::Held);
    }
    let job = job_of(alloc, retries, next)?;
    let given = job.copy()?;
    let answers = StartAnswers::of(StartAnswer::Begun(given))?;
    let hand = hand_of(alloc, next, job)?;
    memory.cells.agents.take_ready();
    state.hand = Some(hand);
    Ok(answers)
}

// The action that this actor begins next, if it is that of agents and one waits.
pub(crate) fn next_for<'a>(actor: Actor, agents: &'a Agents) -> Option<NextAction<'a>>
    ensures { option_map next_action_view result ≡ action_for actor (agents_view agents.now) }
{
    match actor {
        Actor::Agents => next_action(agents),
        Actor::Bare | Actor::Session(_) => None,
    }
}

fn next_action<'a>(agents: &'a Agents) -> Option<NextAction<'a>>
    ensures { option_map next_action_view result ≡ next_action (agents_view agents.now) }
{
    let number = agents.next_agent()?;
    let sent = agents.first_waiting(number)?;
    let state = agents.read(number)?;
    Some(NextAction {
        state,
        action: &sent.action,
    })
}

fn job_of(alloc: Global, retries: u32, next: NextAction<'_>) -> Result<Job, AllocError>
    ensures { (g : Ground) → retries ≡ g.retries
        → IfOk result (λ job. job_view job ≡ action_job g (next_action_view next.entry)) }
{
    Ok(Job {
        work: Work::Action(copy(next.state)?, Arc::try_clone(&next.action.task)?),
        namespace: ArcStr::from_str(alloc, "user")?,
        retries,
    })
}

// The action in hand, which runs as this job.
fn hand_of(alloc: Global, next: NextAction<'_>, job: Job) -> Result<WorkInHand, AllocError>
    ensures { IfOk result (λ hand. hand_view hand
        ≡ hand_of_action (next_action_view next.entry).action (job_view job)) }
{
    Ok(WorkInHand {
        origin: Arc::try_clone(&next.action.origin)?,
        manner: Manner::OfAction(next.action.session),
        namespace: copy_text(&job.namespace)?,
        running: Some(Run {
            job,
            trace: Vec::new(alloc),
        }),
        forms: VecDeque::new(alloc),
        fault: None,
    })
}

/// What the end of the form in hand makes of the agents, with room for what is sent. It looks at
/// each ask of an action, fails only for want of memory, and changes nothing yet.
pub(crate) fn prepare_end(
    alloc: Global,
    agents: &mut Agents,
    actor: Actor,
    hand: &WorkInHand,
    end: &End,
) -> Result<ActionEnd, AllocError>
    ensures made { IfOk result (λ it. action_end_view it
        ≡ action_end actor (hand_view hand.now) (end_view end.now)) }
    ensures room { IfOk result (λ it. length (sends_of it) ≤ room_of agents.new) }
    ensures same { agents_view agents.new ≡ agents_view agents.old }
{
    let Manner::OfAction(_) = &hand.manner else {
        return Ok(ActionEnd::Nothing);
    };
    match end {
        End::Value(state) => {
            let sends = sends_in(alloc, Sender::of(actor, hand), &hand.running)?;
            agents.reserve(sends.len())?;
            Ok(ActionEnd::Finishes {
                state: copy(state)?,
                sends,
            })
        }
        End::Fault(fault) => Ok(ActionEnd::Fails(fault.copy()?)),
    }
}

/// The action is over. There is room for what it sends.
pub(crate) fn settle_end(agents: &mut Agents, end: ActionEnd)
    requires { length (sends_of end) ≤ room_of agents.old }
    ensures { agents_view agents.new
        ≡ agents_behind (action_end_view end) (agents_view agents.old) }
{
    match end {
        ActionEnd::Nothing => {}
        ActionEnd::Finishes { state, sends } => {
            agents.finish(state);
            send_all(agents, sends);
        }
        ActionEnd::Fails(fault) => agents.fail(fault),
    }
}
